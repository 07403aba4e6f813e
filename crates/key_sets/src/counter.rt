//! Sequence counters are drawn.

ghost use Rattle.std.specs.Prelude.{◌≡◌, ◌<◌, ◌≤◌, ℕ, List, IfOk, OnErr};
ghost use Rattle.card_types.specs.Counters.{HasNextCounter, raised_key};
ghost use Rattle.card_types.specs.KeySets.{HasKeys};
ghost use Rattle.card_types.specs.declared.limits.TheConstants.{COUNTER_LIMIT};
ghost use Rattle.key_sets.specs.Draws.{Draws, IsSpent, Raises};

use arrayvec::ArrayVec;
use card_types::{COUNTER_LIMIT, KeyRec, find_key, in_slot};
use rec_store::RecordKeeper;

/// The sequence counter stands at FFFFFF.
#[derive(Clone, Copy, Debug, PartialEq, Eq)]
pub struct Spent;

// The key with the next counter.
fn next_key(key: &KeyRec) -> KeyRec
    requires { key.now.counter < COUNTER_LIMIT }
    ensures { result ≡ raised_key key.now }
{
    let mut bytes = ArrayVec::new();
    bytes.try_extend_from_slice(&key.bytes).unwrap();
    KeyRec {
        owner: key.owner,
        version: key.version,
        identifier: key.identifier,
        bytes,
        counter: key.counter + 1,
    }
}

/// Puts the next sequence counter in the place of the one that the key in a slot keeps.
pub fn raise_counter<R: RecordKeeper>(keeper: &mut R, slot: u8)
    requires roomy { R.roomy keeper.old }
    requires counts { HasNextCounter (R.slots keeper.old) slot }
    ensures raises { Raises slot (R.slots keeper.old) (R.slots keeper.new) }
    ensures same_else { R.same_else keeper.old keeper.new }
    ensures roomy { R.roomy keeper.new }
{
    let next = next_key(in_slot(keeper.keys(), slot).unwrap());
    keeper.set_key(slot, Some(next));
}

/// The sequence counter of a key set of the domain in the slot `owner`, with the next one put in its place.
pub fn draw_counter<R: RecordKeeper>(keeper: &mut R, owner: u8, version: u8) -> Result<u32, Spent>
    requires roomy { R.roomy keeper.old }
    requires version { version ≤ 0x6F }
    requires set { (slots : List ℕ) × HasKeys (R.slots keeper.old) owner version slots }
    ensures draws { IfOk result (Draws owner version (R.slots keeper.old) (R.slots keeper.new)) }
    ensures spent { OnErr result (IsSpent owner version (R.slots keeper.old)) }
    ensures unchanged { OnErr result (R.slots keeper.new ≡ R.slots keeper.old) }
    ensures same_else { R.same_else keeper.old keeper.new }
    ensures roomy { R.roomy keeper.new }
{
    let found = find_key(keeper.keys(), owner, version, 1).unwrap();
    let slot = found.slot;
    let number = found.thing.counter;
    if number >= COUNTER_LIMIT {
        return Err(Spent);
    }
    raise_counter(keeper, slot);
    Ok(number)
}
