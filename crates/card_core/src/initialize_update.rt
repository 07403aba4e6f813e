//! INITIALIZE UPDATE: a session is offered (GlobalPlatform Amendment D, 7.1.1).

ghost use Rattle.std.specs.Prelude.{◌≡◌, ◌≤◌, ℕ, true, List, [], length, None, Some, IfSome, IfNone, OnErr};
ghost use Rattle.card_core.specs.Prelude.{ActsIn, Admitted, AreCards, ForEntry, IsDataObject, IsInOrder, IsRequestOf, OffersAs, RepresentsOffer, counter_of, diversification_of, object_named, offer_body};
ghost use Rattle.card_types.specs.declared.data_objects.TheConstants.{DIVERSIFICATION};
ghost use Rattle.card_types.specs.declared.limits.TheConstants.{COUNTER_LIMIT};
ghost use Rattle.policy_rules.specs.declared.request.Request.TheVariants.{Initialize};
ghost use Rattle.scp03_card.specs.Offer as model;
ghost use Rattle.scp03_card.specs.declared.close.TheConstants.{DATA_LIMIT};

use crate::aes_offer::AesOffer;
use crate::channel_session::ChannelSession;
use crate::reply::{Answer, Reply};
use apdu_core::Status;
use card_types::{DIVERSIFICATION, KeyRec, Object, Tables};
use flash_core::Flash;
use key_sets::raise_counter;
use policy_rules::{Datum, judge_get_data, judge_initialize_update};
use rec_store::Records;

/// SCP03, and its i parameter: a pseudo-random challenge, R-MAC and R-ENCRYPTION.
const PROTOCOL: [u8; 2] = [0x03, 0x70];

// The key diversification data of a domain, where it has such a data object.
fn diversification(tables: &Tables, owner: u8) -> Option<&Object>
    requires in_order { IsInOrder tables.now }
    ensures some { ForEntry tables.now owner (λ said aid. IfSome result (λ object. IsDataObject said aid DIVERSIFICATION object.now.value.items)) }
    ensures none { ForEntry tables.now owner (λ said aid. IfNone result (object_named said aid DIVERSIFICATION ≡ None)) }
{
    match judge_get_data(tables, owner, DIVERSIFICATION) {
        Ok(Datum::Object { object }) => Some(object),
        Ok(Datum::Keys { .. }) => None,
        Ok(Datum::Counter { .. }) => None,
        Err(_) => None,
    }
}

// The key diversification data of a domain, or ten 00.
fn write_diversification(tables: &Tables, owner: u8, reply: &mut Reply)
    requires in_order { IsInOrder tables.now }
    requires empty { reply.old.items ≡ [] }
    ensures written { ForEntry tables.now owner (λ said aid. reply.new.items ≡ diversification_of (object_named said aid DIVERSIFICATION)) }
    ensures size { length reply.new.items ≤ 120 }
{
    match diversification(tables, owner) {
        Some(object) => reply.try_extend_from_slice(&object.value).unwrap(),
        None => reply.try_extend_from_slice(&[0; 10]).unwrap(),
    }
}

// The body of the reply, where this is the Key-ENC of the key set.
fn write_offer(tables: &Tables, enc: &KeyRec, offer: &AesOffer, reply: &mut Reply)
    requires in_order { IsInOrder tables.now }
    requires counter { enc.now.counter ≤ COUNTER_LIMIT }
    requires empty { reply.old.items ≡ [] }
    ensures written { ForEntry tables.now enc.now.owner (λ said aid. (made : model.Offer) → RepresentsOffer offer.now made
        → reply.new.items ≡ offer_body said aid (counter_of tables.now.entries.items enc.now) made) }
    ensures size { length reply.new.items ≤ 142 }
{
    let [_, high, middle, low] = enc.counter.to_be_bytes();
    write_diversification(tables, enc.owner, reply);
    reply.push(enc.version);
    reply.try_extend_from_slice(&PROTOCOL).unwrap();
    reply.try_extend_from_slice(&offer.challenge()).unwrap();
    reply.try_extend_from_slice(&offer.cryptogram()).unwrap();
    reply.try_extend_from_slice(&[high, middle, low]).unwrap();
}

/// Offers a session for the domain in a slot, and draws the counter of the key set. It commits nothing.
#[inline(never)]
pub fn initialize_update<F: Flash>(
    records: &mut Records<F>,
    held: &mut ChannelSession,
    domain: u8,
    version: u8,
    challenge: &[u8],
    reply: &mut Reply,
) -> Answer
    requires live { records.old.live ≡ true }
    requires clean { records.old.staged ≡ [] }
    requires cards { AreCards records.old.tables }
    requires challenge { length challenge.now ≡ 8 }
    requires empty { reply.old.items ≡ [] }
    ensures done { (page : ℕ → List ℕ) (admitted : Admitted) → ActsIn page records.old.tables domain admitted
        → IsRequestOf (Initialize version challenge.entry) admitted.command
        → OffersAs admitted page records.old.tables records.new.tables held.old held.new reply.new.items result }
    ensures entries { records.new.tables.entries.items ≡ records.old.tables.entries.items }
    ensures files { records.new.tables.files.items ≡ records.old.tables.files.items }
    ensures cards { AreCards records.new.tables }
    ensures same { (records.new.flash ≡ records.old.flash) × (records.new.live ≡ true) }
    ensures refused { OnErr result (records.new ≡ records.old) }
    ensures room { length reply.new.items ≤ DATA_LIMIT }
{
    let tables = records.tables();
    let found = judge_initialize_update(tables, domain, version)?;
    let slot = found.slot;
    let mut host = [0; 8];
    host.copy_from_slice(challenge);
    let offer = AesOffer::of_set(&found.keys, found.aid, &host);
    write_offer(tables, found.keys.enc, &offer, reply);
    raise_counter(records, slot);
    *held = ChannelSession::Offered(offer);
    Ok(Status(0x9000))
}
