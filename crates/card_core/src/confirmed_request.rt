//! A request of card content management that a receipt may confirm: it is judged, the registry changes, and the command is answered
//! (GlobalPlatform Card Specification 2.3.1, 9.1.3 and 9.3 to 9.5).

ghost use Rattle.std.specs.Prelude.{◌≡◌, [], true};
ghost use Rattle.card_core.specs.Prelude.{Admitted, AreCards, BecomesAsAsked, ForActing, HasFramesFor, IsChanging, IsOfForm, IsRequestOf, IsWellFormed, JudgedFirst, KeepsConfirmer, KeepsFree, KeepsSelected, ManagedForm, aid_list, entry_pages, is_domain_in};

use crate::confirm::{Aids, confirm};
use crate::managed_request::{Acting, ManagedRequest};
use crate::reply::{Answer, Reply};
use apdu_core::Status;
use flash_core::Flash;
use policy_rules::{FormRequest, judge_request};
use rec_store::Records;

/// A request of card content management that a receipt may confirm.
pub trait ConfirmedRequest: FormRequest {
    /// The form of its commands.
    ghost managed: { ManagedForm };

    /// Changes the registry as a command asks for that no rule refuses, and gives the AIDs that its receipt names. It commits nothing.
    fn change<F: Flash>(
        &self,
        records: &mut Records<F>,
        acting: &Acting<'_>,
        found: Self::Found,
    ) -> Aids
        requires live { records.old.live ≡ true }
        requires clean { records.old.staged ≡ [] }
        requires cards { AreCards records.old.tables }
        requires domain { is_domain_in records.old.tables.entries.items acting.now.domain ≡ true }
        requires formed { IsWellFormed (Self.request self.now) }
        requires found { Self.finds self.now records.old.tables acting.now.live.now acting.now.domain found }
        requires passed { ForActing records.old.tables acting.now.domain (λ page admitted. Self.told page records.old.tables acting.now.live.now admitted
            → Self.reads self.now admitted.command → JudgedFirst Self.form admitted None) }
        ensures becomes { ForActing records.old.tables acting.now.domain (λ page admitted. IsRequestOf (Self.request self.now) admitted.command
            → BecomesAsAsked managed admitted page records.new.tables (aid_list result)) }
        ensures confirmer { ForActing records.old.tables acting.now.domain (λ page admitted. KeepsConfirmer records.old.tables records.new.tables admitted) }
        ensures selected { KeepsSelected acting.now.live.now records.old.tables.entries.items records.new.tables.entries.items }
        ensures free { KeepsFree records.old.tables records.new.tables }
        ensures cards { AreCards records.new.tables }
        ensures same { (records.new.flash ≡ records.old.flash) × (records.new.live ≡ true) }
        ensures room { HasFramesFor entry_pages records.new.staged };

    /// Its commands are of the form, and may have a receipt.
    ghost formed: { (these : Self) (admitted : Admitted) → IsRequestOf (Self.request these) admitted.command → IsOfForm managed Self.form Self.receipted admitted };

    /// Its instruction is one that changes the registry.
    ghost changes: { (these : Self) → IsChanging (Self.request these) };
}

impl<F: Flash, M: ConfirmedRequest> ManagedRequest<F> for M {
    ghost request = { M.request };

    #[inline(never)]
    fn manage(&self, records: &mut Records<F>, acting: &Acting<'_>, reply: &mut Reply) -> Answer {
        let judged = judge_request(records.tables(), acting.live, acting.domain, self)?;
        let about = self.change(records, acting, judged.found);
        confirm(records, judged.receipter, &about, reply);
        Ok(Status(0x9000))
    }

    ghost changes = { λ these. M.changes these };
}
