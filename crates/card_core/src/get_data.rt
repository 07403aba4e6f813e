//! GET DATA: data of the selected domain are answered (GlobalPlatform Card Specification 2.3.1, 11.3).

ghost use Rattle.std.specs.Prelude.{◌≡◌, ◌≤◌, ◌<◌, ◌+◌, ◌++◌, ℕ, List, [], ◌∷◌, length, None, Some, slice_index_or};
ghost use Rattle.card_core.specs.Prelude.{CarriesOutBut, ForEntry, ForKept, HasData, IsFor, IsInOrder, IsKeyInformation, IsLeast, IsRequestOf, IsTag, Spelling, array_vec_len, follows, kept_of, name_order};
ghost use Rattle.policy_rules.specs.declared.request.Request.TheVariants.{Get};
ghost use Rattle.scp03_card.specs.declared.close.TheConstants.{DATA_LIMIT};

use crate::channels::Channels;
use crate::reply::{Answer, Reply};
use apdu_core::Status;
use arrayvec::ArrayVec;
use bertlv::{Tlv, append};
use card_types::{DOMAIN_KEYS, KEYS, KeyRec, Tables};
use policy_rules::{CHANNELS, Datum, KeyName, Rule, judge_get_data, next_key};

/// The tag of what the key information template says of a key.
const KEY: u16 = 0xC0;

/// The code of AES.
const AES: u8 = 0x88;

/// How many bytes the key information template of a domain may take.
const KEY_INFORMATION_ROOM: usize = 128;

// What the key information template says of a key.
fn write_key(key: &KeyRec, value: &mut ArrayVec<u8, KEY_INFORMATION_ROOM>)
    requires room { array_vec_len value.old + 9 ≤ KEY_INFORMATION_ROOM }
    ensures written { (bytes : List ℕ) × Spelling 0xC0 (key.now.identifier ∷ key.now.version ∷ 0x88 ∷ length key.now.bytes.items ∷ []) bytes
        × (value.new.items ≡ value.old.items ++ bytes) }
    ensures size { length value.new.items ≤ length value.old.items + 9 }
{
    let fields = [key.identifier, key.version, AES, key.bytes.len() as u8];
    append(
        &Tlv {
            tag: KEY,
            value: &fields,
        },
        value,
    );
}

// The value of the key information template: the keys of a domain from the first on, in their order.
fn write_keys(
    keys: &[Option<KeyRec>],
    first: &KeyRec,
    value: &mut ArrayVec<u8, KEY_INFORMATION_ROOM>,
)
    requires few { length keys.now ≤ KEYS }
    requires empty { value.old.items ≡ [] }
    ensures listed { (tables : Tables) → keys.now ≡ tables.keys.items
        → ((slot : ℕ) × IsLeast (follows first.now.owner None) name_order keys.now slot first.now)
        → ForEntry tables first.now.owner (λ said aid. IsKeyInformation said aid value.new.items) }
    ensures size { length value.new.items ≤ 108 }
{
    let mut key = first;
    for _ in 0..DOMAIN_KEYS {
        write_key(key, value);
        match next_key(keys, first.owner, Some(KeyName::of(key))) {
            Some(next) => key = next,
            None => return,
        }
    }
}

// Appends the element of a tag with what was found for it.
fn write_datum(tables: &Tables, tag: u16, datum: Datum<'_>, reply: &mut Reply)
    requires in_order { IsInOrder tables.now }
    requires tag { IsTag tag }
    requires empty { reply.old.items ≡ [] }
    ensures written { (domain : ℕ) → ForEntry tables.now domain (λ said aid. IsFor tables.now said domain tag datum.entry
        → (value : List ℕ) × HasData said aid tag value × Spelling tag value reply.new.items) }
    ensures room { length reply.new.items ≤ DATA_LIMIT }
{
    match datum {
        Datum::Keys { first } => {
            let mut value = ArrayVec::new();
            write_keys(&tables.keys, first, &mut value);
            append(&Tlv { tag, value: &value }, reply);
        }
        Datum::Counter { number } => {
            let [_, high, middle, low] = number.to_be_bytes();
            append(
                &Tlv {
                    tag,
                    value: &[high, middle, low],
                },
                reply,
            );
        }
        Datum::Object { object } => append(
            &Tlv {
                tag,
                value: &object.value,
            },
            reply,
        ),
    }
}

/// Answers the data of a tag, for the domain in the slot that is selected on the channel.
// Out of line: the fastest of the placements that were measured.
#[inline(never)]
pub fn get_data(
    tables: &Tables,
    channels: &Channels,
    channel: u8,
    domain: u8,
    tag: u16,
    reply: &mut Reply,
) -> Answer
    requires in_order { IsInOrder tables.now }
    requires channel { channel < CHANNELS }
    requires selected { slice_index_or channels.now.live.selected channel None ≡ Some domain }
    requires empty { reply.old.items ≡ [] }
    ensures done { ForKept (kept_of tables.now channels.now) (λ page admitted. channel ≡ admitted.channel → IsRequestOf (Get tag) admitted.command
        → CarriesOutBut page admitted (kept_of tables.now channels.now) reply.new.items result) }
    ensures room { length reply.new.items ≤ DATA_LIMIT }
{
    match judge_get_data(tables, domain, tag) {
        Ok(datum) => {
            write_datum(tables, tag, datum, reply);
            Ok(Status(0x9000))
        }
        Err(rule) => Err(Rule::GD(rule)),
    }
}
