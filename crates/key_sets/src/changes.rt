//! Changes of key slots.

ghost use Rattle.std.specs.Prelude.{◌≡◌, ◌<◌, ◌∷◌, length};
ghost use Rattle.std.specs.List.Sorted.{IsPermutation};
ghost use Rattle.card_types.specs.Represents.{things_in, thing_in};
ghost use Rattle.card_types.specs.declared.limits.TheConstants.{KEYS};
ghost use Rattle.key_rules.specs.InSlots.{holds_one_of};
ghost use Rattle.key_rules.specs.Staying.{staying};
ghost use Rattle.rec_store.specs.KeySlot.{IsRoomyKey};

use card_types::{KEYS, KeyRec, first_free, in_slot};
use key_rules::is_of;
use rec_store::RecordKeeper;

fn goes(keys: &[Option<KeyRec>], slot: u8, owner: u8, version: u8) -> bool
    ensures { result ≡ holds_one_of owner version (thing_in keys.now slot) }
{
    match in_slot(keys, slot) {
        Some(key) => is_of(key, owner, version),
        None => false,
    }
}

/// Frees the slots of the keys of the domain with this key version number.
pub fn free<R: RecordKeeper>(keeper: &mut R, owner: u8, version: u8)
    requires roomy { R.roomy keeper.old }
    ensures count { length (R.slots keeper.new) ≡ length (R.slots keeper.old) }
    ensures keys { things_in (R.slots keeper.new) ≡ staying owner version (R.slots keeper.old) }
    ensures same_else { R.same_else keeper.old keeper.new }
    ensures roomy { R.roomy keeper.new }
{
    for slot in 0..KEYS as u8 {
        if goes(keeper.keys(), slot, owner, version) {
            keeper.set_key(slot, None);
        }
    }
}

/// Puts a key in the first free slot.
pub fn put_key<R: RecordKeeper>(keeper: &mut R, key: KeyRec)
    requires roomy { R.roomy keeper.old }
    requires key { IsRoomyKey key }
    requires room { length (things_in (R.slots keeper.old)) < KEYS }
    ensures count { length (R.slots keeper.new) ≡ length (R.slots keeper.old) }
    ensures keys { IsPermutation (things_in (R.slots keeper.new)) (key ∷ things_in (R.slots keeper.old)) }
    ensures same_else { R.same_else keeper.old keeper.new }
    ensures roomy { R.roomy keeper.new }
{
    let slot = first_free(keeper.keys()).unwrap();
    keeper.set_key(slot, Some(key));
}
