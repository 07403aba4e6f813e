//! The first of a command's own rules that fails.

ghost use Rattle.std.specs.Prelude.{◌≡◌, ◌<◌, List, None, IsSome, slice_index_or};
ghost use Rattle.policy_rules.specs.Prelude.{ActsAsBefore, Apdu, ForSound, IsFirst, IsInOrder, IsJudgedAfter, IsMeant, IsRequestOf, Judges, LoadFails, TellsChecks, front_rules};
ghost use Rattle.policy_machine.specs.declared.instruction.TheConstants.{EXTERNAL_AUTHENTICATE, GET_STATUS, LOAD};

use crate::card_status::judge_card_status;
use crate::delete_key::judge_delete_key;
use crate::entry_status::judge_entry_status;
use crate::form_request::judge_form;
use crate::get_data::judge_get_data;
use crate::get_status::judge_status;
use crate::initialize_update::judge_initialize_update;
use crate::manage_channel::judge_more_channel;
use crate::put_key::judge_put_key;
use crate::request::Request;
use crate::select::judge_select;
use crate::store_data::judge_store_data;
use card_types::Tables;
use content_rules::judge_load;
use policy_machine::{CHANNELS, Rule};
use policy_slots::Live;

/// The first of a well-formed command's own rules that fails, or none. Whether the check values of PUT KEY fit is told by the
/// caller, who has the Key-DEK; of other commands it is not read.
/// Of EXTERNAL AUTHENTICATE the answer is none, since its rules need the keys of the offer. A GET STATUS is judged by what is kept
/// before it, since it goes on at the place that the channel had then. Of a LOAD the rules are judged up to the number of its block:
/// the block is judged where the bytes are kept, and after it the last one by `judge_loaded`.
pub fn judge(
    tables: &Tables,
    live: &Live,
    channel: u8,
    request: &Request<'_>,
    checks_fit: bool,
) -> Option<Rule>
    requires in_order { IsInOrder tables.now }
    requires channel { channel < CHANNELS }
    requires opened { IsSome (slice_index_or live.now.selected channel None) }
    requires meant { IsMeant request.now }
    ensures judged { ForSound tables.now live.now channel (λ admitted. admitted.at) (λ admitted. IsRequestOf request.now admitted.command
        → IsJudgedAfter admitted.command.ins → TellsChecks checks_fit admitted → Judges admitted result) }
    ensures listed { ForSound tables.now live.now channel (λ admitted. admitted.before) (λ admitted. ActsAsBefore admitted
        → IsRequestOf request.now admitted.command → admitted.command.ins ≡ GET_STATUS → Judges admitted result) }
    ensures numbered { ForSound tables.now live.now channel (λ admitted. admitted.at) (λ admitted. IsRequestOf request.now admitted.command
        → admitted.command.ins ≡ LOAD → IsFirst (LoadFails admitted) front_rules result) }
    ensures elsewhere { (command : Apdu) → IsRequestOf request.now command → command.ins ≡ EXTERNAL_AUTHENTICATE → result ≡ None }
{
    let domain = live.selected[usize::from(channel)].unwrap();
    match request {
        Request::Select { prefix } => match judge_select(tables, prefix) {
            Ok(_) => None,
            Err(rule) => Some(Rule::SE(rule)),
        },
        Request::MoreChannel => match judge_more_channel(live) {
            Ok(_) => None,
            Err(rule) => Some(Rule::MC(rule)),
        },
        Request::LessChannel { .. } => None,
        Request::Get { tag } => match judge_get_data(tables, domain, *tag) {
            Ok(_) => None,
            Err(rule) => Some(Rule::GD(rule)),
        },
        Request::Initialize { version, .. } => {
            match judge_initialize_update(tables, domain, *version) {
                Ok(_) => None,
                Err(rule) => Some(rule),
            }
        }
        Request::Authenticate { .. } => None,
        Request::PutKey {
            replaced,
            version,
            keys,
        } => judge_put_key(tables, domain, *replaced, *version, keys, checks_fit).err(),
        Request::Store { objects } => judge_store_data(tables, domain, objects).err(),
        Request::DeleteKey {
            version,
            identifier,
        } => judge_delete_key(tables, domain, *version, *identifier).err(),
        Request::DeleteObject(request) => judge_form(tables, live, domain, request),
        Request::Install(request) => judge_form(tables, live, domain, request),
        Request::MakeSelectable(request) => judge_form(tables, live, domain, request),
        Request::Extradite(request) => judge_form(tables, live, domain, request),
        Request::InstallLoad(request) => judge_form(tables, live, domain, request),
        Request::CardStatus { life } => judge_card_status(tables, domain, *life).err(),
        Request::EntryStatus(request) => judge_entry_status(tables, domain, request).err(),
        Request::Load(request) => judge_load(tables, live, channel, domain, request).err(),
        Request::List(request) => {
            let place = live.places[usize::from(channel)].as_ref();
            judge_status(tables, place, domain, request).err()
        }
    }
}
