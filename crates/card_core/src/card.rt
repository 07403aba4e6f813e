//! A card (GlobalPlatform Card Specification 2.3.1, chapter 6).

ghost use Rattle.std.specs.Prelude.{◌≡◌, ◌≤◌, List, false, true, None, IfOk, IfErr, IsSome, OnErr, OnOk};
ghost use Rattle.card_core.specs.Prelude.{Always, Answers, AreCards, CardRepresents, Changes, CountsReceipts, HasCause, IsAtRest, IsInOrder, IsUnwritten, KeepsTrees, LeavesEither, LeavesOnly, MayCommit, OpensInSession, Outcome, PowerFails, Registry, Reopens, ReopensAsOne, State, Step, powered_on, status_bytes};

use crate::channels::Channels;
use crate::commit::commit;
use crate::power::{PowerCause, PowerError};
use crate::reply::{REPLY_LIMIT, write_failure};
use crate::serve::serve;
use crate::workspace::Workspace;
use arrayvec::ArrayVec;
use card_types::Tables;
use flash_core::{Flash, FlashFailed};
use policy_rules::Rule;
use rec_store::Records;
use std::alloc::Global;
use std::marker::Model;

/// A card: its registry, which a device keeps, and its volatile state.
#[derive(Drop)]
pub struct Card<F: Flash> {
    pub(crate) records: Records<F>,
    pub(crate) channels: Channels,
    pub(crate) space: Workspace,
    pub(crate) live: bool,
}

// Contracts see the device, the tables, what is kept of the channels, and whether no call on the device has failed.
impl<F: Flash> Model for Card<F> {
    ghost use Rattle.std.specs.Prelude.{◌≡◌, true};
    ghost use Rattle.card_core.specs.Card.{CardOver};
    ghost use Rattle.card_core.specs.Kept.{AreCards, RepresentsSome, kept_of};
    ghost use Rattle.card_core.specs.Loading.{IsIdle};

    ghost Value = { CardOver F };

    ghost view = { λ card. record { flash = card.records.flash; tables = card.records.tables; channels = card.channels; live = card.live } };

    ghost invariant = { λ card. AreCards card.records.tables × (card.live ≡ true → IsIdle F.Flash card.records card.channels.loading.writes.items
        × RepresentsSome (kept_of card.records.tables card.channels)) };
}

impl<F: Flash> Card<F> {
    /// Powers a card on: its registry is read from a device, where a commit that was cut off is ended first and a card in layout
    /// 02 is brought into layout 03, and channel 0 alone is open, with the Issuer Security Domain selected.
    /// `PowerCause::Memory` is want of memory for the tables and the staged pages, before any call on the device.
    pub fn power_on(alloc: Global, flash: F) -> Result<Card<F>, PowerError<F>>
        ensures stands { IfOk result (λ card. (registry : Registry) × (F.tells → Reopens (F.pages flash) registry)
            × CardRepresents F.Flash card (powered_on registry)) }
        // Power lost at any moment leaves no registry that it could not leave before.
        ensures moments { F.tells → (registries : List Registry) → Always (F.may_leave flash) (ReopensAsOne registries)
            → IfOk result (λ card. LeavesOnly F.Flash flash card.flash (ReopensAsOne registries)) }
        ensures idle { F.tells → IsAtRest (F.pages flash) → IfOk result (λ card. IsUnwritten F.Flash flash card.flash) }
        ensures later { IfOk result (λ card. F.faults flash ≤ F.faults card.flash) }
        ensures err_later { IfErr result (λ e. F.faults flash ≤ F.faults e.flash) }
        ensures err_moments { F.tells → (registries : List Registry) → Always (F.may_leave flash) (ReopensAsOne registries)
            → IfErr result (λ e. LeavesOnly F.Flash flash e.flash (ReopensAsOne registries)) }
        ensures err_idle { F.tells → IsAtRest (F.pages flash) → IfErr result (λ e. IsUnwritten F.Flash flash e.flash) }
        ensures err { IfErr result (λ e. PowerFails F.Flash flash e.cause e.flash) }
    {
        match Records::mount(alloc, flash) {
            Ok(records) => Ok(Card {
                records,
                channels: Channels::powered_on(),
                space: Workspace::new(),
                live: true,
            }),
            Err(refused) => Err(PowerError {
                cause: PowerCause::of(refused.cause),
                flash: refused.flash,
            }),
        }
    }

    /// Answers a command: `reply` becomes the whole reply, and what the command changes is committed before. It says which
    /// rule refused the command, if one did, and takes no memory. Where the device fails, `reply` is 6581.
    pub fn process(
        &mut self,
        command: &[u8],
        reply: &mut ArrayVec<u8, REPLY_LIMIT>,
    ) -> Result<Option<Rule>, FlashFailed>
        requires live { self.old.live ≡ true }
        // What comes of the command is one outcome of the policy machine, also where the device fails. Power lost at any
        // moment leaves the registry from before or that of the outcome, and after an answer the latter.
        ensures step { (state : State) → CardRepresents F.Flash self.old state → (outcome : Outcome) × Step state command.now outcome
            × LeavesEither F.Flash self.old.flash self.new.flash state.registry outcome.state.registry
            × IfOk result (Answers F.Flash self.new outcome reply.new.items) }
        // More than a sequence counter is changed by a command alone that no rule refuses, and that opens in the session of its
        // channel: its C-MAC is the next of the chain.
        ensures changes { (state next : State) → CardRepresents F.Flash self.old state → CardRepresents F.Flash self.new next
            → IfOk result (λ rule. F.tells → Changes state.registry next.registry → (rule ≡ None) × OpensInSession state command.now) }
        // Providers are apart, and receipts are counted.
        ensures apart { (state : State) → CardRepresents F.Flash self.old state → (outcome : Outcome) → Step state command.now outcome
            → KeepsTrees state command.now outcome }
        ensures receipts { (state : State) → CardRepresents F.Flash self.old state → (outcome : Outcome) → Step state command.now outcome
            → CountsReceipts state command.now outcome }
        // A command that a rule refuses makes no call on the device, and no other but INITIALIZE UPDATE and those of card
        // content management makes one.
        ensures refused { IfOk result (λ rule. IsSome rule → self.new.flash ≡ self.old.flash) }
        ensures idle { (MayCommit command.now → ⊥) → self.new.flash ≡ self.old.flash }
        ensures ok { OnOk result (self.new.live ≡ true) }
        ensures failed { OnErr result ((reply.new.items ≡ status_bytes 0x6581) × (self.new.live ≡ false)) }
        ensures cause { HasCause (F.faults self.old.flash) (F.faults self.new.flash) result }
    {
        reply.clear();
        let rule = serve(
            &mut self.records,
            &mut self.channels,
            &mut self.space,
            command,
            reply,
        );
        match commit(&mut self.records, &self.channels.loading.writes) {
            Ok(()) => {
                self.channels.loading.writes.clear();
                Ok(rule)
            }
            Err(failed) => {
                self.live = false;
                write_failure(reply);
                Err(failed)
            }
        }
    }

    /// Takes the power away and gives it back: channel 0 alone is open then, with the Issuer Security Domain selected.
    pub fn reset(&mut self)
        requires live { self.old.live ≡ true }
        ensures stands { (state : State) → CardRepresents F.Flash self.old state → CardRepresents F.Flash self.new (powered_on state.registry) }
        ensures same { (self.new.flash ≡ self.old.flash) × (self.new.tables ≡ self.old.tables) × (self.new.live ≡ true) }
    {
        self.channels = Channels::powered_on();
    }

    /// Whether no call on the device has failed.
    pub fn live(&self) -> bool
        ensures { result ≡ self.now.live }
    {
        self.live
    }

    /// The registry.
    pub fn tables(&self) -> &Tables
        ensures tables { result.now ≡ self.now.tables }
        ensures cards { AreCards result.now }
        ensures in_order { IsInOrder result.now }
    {
        self.records.tables()
    }

    /// The device.
    pub fn into_flash(self) -> F
        ensures { result ≡ self.flash }
    {
        self.records.into_flash()
    }
}
