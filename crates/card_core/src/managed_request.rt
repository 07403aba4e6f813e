//! A request of card content management that changes the registry (GlobalPlatform Card Specification 2.3.1, chapter 9).

ghost use Rattle.std.specs.Prelude.{◌≡◌, ◌≤◌, [], OnErr, length, true};
ghost use Rattle.card_core.specs.Prelude.{AreCards, ForActingLive, HoldsFor, IsChanging, IsInSession, IsRequestOf, IsWellFormed, KeepsFree, KeepsSelected, Manages, is_domain_in};
ghost use Rattle.policy_rules.specs.declared.request.Request.{Request};
ghost use Rattle.scp03_card.specs.declared.close.TheConstants.{DATA_LIMIT};

use crate::channel_session::ChannelSession;
use crate::reply::{Answer, Reply};
use flash_core::Flash;
use policy_rules::Live;
use rec_store::Records;

/// What a command of card content management acts with, beside the registry.
#[derive(Clone, Copy)]
pub struct Acting<'a> {
    /// The logical channels and the load session.
    pub live: &'a Live,

    /// The session that the command came in, as its channel holds it.
    pub held: &'a ChannelSession,

    /// The slot of the security domain that it acts for.
    pub domain: u8,
}

/// A request of card content management that changes the registry.
pub trait ManagedRequest<F: Flash> {
    /// The request of the command.
    ghost request: { Self → Request };

    /// Does what the request asks for, and appends the reply's data. It commits nothing.
    fn manage(&self, records: &mut Records<F>, acting: &Acting<'_>, reply: &mut Reply) -> Answer
        requires live { records.old.live ≡ true }
        requires clean { records.old.staged ≡ [] }
        requires cards { AreCards records.old.tables }
        requires domain { is_domain_in records.old.tables.entries.items acting.now.domain ≡ true }
        requires secured { IsInSession acting.now.held.now }
        requires formed { IsWellFormed (request self.now) }
        requires empty { reply.old.items ≡ [] }
        ensures done { ForActingLive records.old.tables acting.now.live.now acting.now.domain (λ page admitted. IsRequestOf (request self.now) admitted.command
            → HoldsFor acting.now.held.now admitted → Manages admitted page records.old.tables records.new.tables reply.new.items result) }
        ensures selected { KeepsSelected acting.now.live.now records.old.tables.entries.items records.new.tables.entries.items }
        ensures free { KeepsFree records.old.tables records.new.tables }
        ensures cards { AreCards records.new.tables }
        ensures same { (records.new.flash ≡ records.old.flash) × (records.new.live ≡ true) }
        ensures refused { OnErr result (records.new ≡ records.old) }
        ensures room { length reply.new.items ≤ DATA_LIMIT };

    /// Its instruction is one that changes the registry.
    ghost changes: { (these : Self) → IsChanging (request these) };
}
