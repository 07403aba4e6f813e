//! What a request asks for is done (GlobalPlatform Card Specification 2.3.1, chapter 11).

ghost use Rattle.std.specs.Prelude.{◌≡◌, ◌⊎◌, ◌≤◌, [], length, true, Contains, OnErr, option_copied};
ghost use Rattle.card_core.specs.Prelude.{AreCards, AreFree, CarriesOutBut, ForKept, IsAsked, IsOffered, IsReady, IsWellFormed, RepresentsSome, changing, form_in, held_on, kept_of, managing, with_due};
ghost use Rattle.policy_machine.specs.declared.instruction.TheConstants.{EXTERNAL_AUTHENTICATE, GET_DATA, INITIALIZE_UPDATE};
ghost use Rattle.scp03_card.specs.declared.close.TheConstants.{DATA_LIMIT};

use crate::admit::Received;
use crate::begin_load::begin_load;
use crate::card_status::CardStatusRequest;
use crate::channels::Channels;
use crate::delete_key::DeleteKeyRequest;
use crate::external_authenticate::external_authenticate;
use crate::get_data::get_data;
use crate::get_status::get_status;
use crate::initialize_update::initialize_update;
use crate::load::load;
use crate::manage_channel::{close_channel, open_channel};
use crate::management::manage;
use crate::put_key::PutKeyRequest;
use crate::reply::{Answer, Reply};
use crate::select::select;
use crate::store_data::StoreRequest;
use flash_core::Flash;
use policy_rules::{Place, Request};
use rec_store::Records;

/// Does what a request asks for, and appends the reply's data. Commands with large values of their own are out of line, so that the
/// others have a small stack frame.
pub fn perform<F: Flash>(
    records: &mut Records<F>,
    channels: &mut Channels,
    received: &Received<'_>,
    request: &Request<'_>,
    place: Option<&Place>,
    reply: &mut Reply,
) -> Answer
    requires ready { IsReady (form_in request.now).instruction records.old channels.old received.now reply.old.items }
    requires offered { (form_in request.now).instruction ≡ EXTERNAL_AUTHENTICATE → IsOffered (held_on channels.old.sessions received.now.channel) }
    requires formed { IsWellFormed request.now }
    requires some { RepresentsSome (kept_of records.old.tables channels.old) }
    ensures done { ForKept (kept_of records.old.tables channels.old) (λ page admitted. IsAsked received.now.channel request.now (option_copied place.entry) admitted
        → CarriesOutBut (with_due page channels.new.loading) admitted (kept_of records.new.tables channels.new) reply.new.items result) }
    ensures cards { AreCards records.new.tables }
    ensures same { (records.new.flash ≡ records.old.flash) × (records.new.live ≡ true) }
    ensures writes { AreFree records.old.tables channels.new.loading.writes.items }
    ensures refused { OnErr result ((records.new ≡ records.old) × (channels.new.loading.writes.items ≡ [])) }
    ensures idle { ((form_in request.now).instruction ≡ INITIALIZE_UPDATE → ⊥) → (Contains changing (form_in request.now).instruction → ⊥) → (records.new ≡ records.old) × (channels.new.loading.writes.items ≡ []) }
    ensures kept { ((form_in request.now).instruction ≡ GET_DATA) ⊎ Contains managing (form_in request.now).instruction → channels.new.sessions ≡ channels.old.sessions }
    ensures room { length reply.new.items ≤ DATA_LIMIT }
{
    let (channel, domain) = (received.channel, received.selected);
    let at = usize::from(channel);
    match request {
        Request::Select { prefix: aid } => select(records.tables(), channels, channel, aid, reply),
        Request::MoreChannel => open_channel(&mut channels.live, reply),
        Request::LessChannel { number } => close_channel(channels, *number),
        Request::Get { tag } => get_data(records.tables(), channels, channel, domain, *tag, reply),
        Request::Initialize { version, challenge } => {
            let session = &mut channels.sessions[at];
            initialize_update(records, session, domain, *version, challenge, reply)
        }
        Request::Authenticate { level, proof } => {
            external_authenticate(&mut channels.sessions[at], *level, proof)
        }
        Request::List(list) => {
            let live = &mut channels.live;
            get_status(records.tables(), live, place, channel, domain, list, reply)
        }
        Request::PutKey {
            replaced,
            version,
            keys,
        } => {
            let keys = PutKeyRequest::new(*replaced, *version, keys);
            manage(records, channels, received, &keys, reply)
        }
        Request::Store { objects } => {
            let objects = StoreRequest { objects };
            manage(records, channels, received, &objects, reply)
        }
        Request::DeleteKey {
            version,
            identifier,
        } => {
            let keys = DeleteKeyRequest::new(*version, *identifier);
            manage(records, channels, received, &keys, reply)
        }
        Request::DeleteObject(request) => manage(records, channels, received, request, reply),
        Request::Install(request) => manage(records, channels, received, request, reply),
        Request::MakeSelectable(request) => manage(records, channels, received, request, reply),
        Request::Extradite(request) => manage(records, channels, received, request, reply),
        Request::CardStatus { life } => {
            let status = CardStatusRequest { life: *life };
            manage(records, channels, received, &status, reply)
        }
        Request::EntryStatus(request) => manage(records, channels, received, request, reply),
        Request::InstallLoad(new) => {
            begin_load(records.tables(), channels, channel, domain, new, reply)
        }
        Request::Load(block) => load(records, channels, channel, domain, block, reply),
    }
}
