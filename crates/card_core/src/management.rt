//! Card content management: what the commands do that change a registry in a session (GlobalPlatform Card Specification 2.3.1,
//! chapter 9).

ghost use Rattle.std.specs.Prelude.{◌≡◌, ◌≢◌, ◌<◌, ◌≤◌, [], None, Some, Contains, Option, OnErr, length, slice_index_or, true};
ghost use Rattle.card_core.specs.Prelude.{AreCards, CarriesOutBut, ForKept, IsAsked, IsInSession, IsWellFormed, changing, form_in, held_on, is_domain_in, kept_of, managing};
ghost use Rattle.policy_machine.specs.declared.instruction.TheConstants.{MANAGE_CHANNEL, SELECT};
ghost use Rattle.policy_slots.specs.declared.live.Place.{Place};
ghost use Rattle.scp03_card.specs.declared.close.TheConstants.{DATA_LIMIT};

use crate::admit::Received;
use crate::channels::Channels;
use crate::managed_request::{Acting, ManagedRequest};
use crate::reply::{Answer, Reply};
use flash_core::Flash;
use policy_rules::CHANNELS;
use rec_store::Records;

/// Does what a request of card content management asks for, on the channel that it came on. It commits nothing.
pub fn manage<M: ManagedRequest<F>, F: Flash>(
    records: &mut Records<F>,
    channels: &Channels,
    received: &Received<'_>,
    request: &M,
    reply: &mut Reply,
) -> Answer
    requires live { records.old.live ≡ true }
    requires clean { records.old.staged ≡ [] }
    requires cards { AreCards records.old.tables }
    requires channel { received.now.channel < CHANNELS }
    requires selected { slice_index_or channels.now.live.selected received.now.channel None ≡ Some received.now.selected }
    requires domain { (form_in (M.request request.now)).instruction ≢ SELECT → (form_in (M.request request.now)).instruction ≢ MANAGE_CHANNEL
        → is_domain_in records.old.tables.entries.items received.now.selected ≡ true }
    requires secured { Contains managing (form_in (M.request request.now)).instruction → IsInSession (held_on channels.now.sessions received.now.channel) }
    requires formed { IsWellFormed (M.request request.now) }
    requires empty { reply.old.items ≡ [] }
    ensures done { (place : Option Place) → ForKept (kept_of records.old.tables channels.now) (λ page admitted. IsAsked received.now.channel (M.request request.now) place admitted
        → CarriesOutBut page admitted (kept_of records.new.tables channels.now) reply.new.items result) }
    ensures changing { Contains changing (form_in (M.request request.now)).instruction }
    ensures cards { AreCards records.new.tables }
    ensures same { (records.new.flash ≡ records.old.flash) × (records.new.live ≡ true) }
    ensures refused { OnErr result (records.new ≡ records.old) }
    ensures room { length reply.new.items ≤ DATA_LIMIT }
{
    let channel = usize::from(received.channel);
    let acting = Acting {
        live: &channels.live,
        held: &channels.sessions[channel],
        domain: received.selected,
    };
    request.manage(records, &acting, reply)
}
