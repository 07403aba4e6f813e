//! What keeps the key slots of a card.

ghost use Rattle.std.specs.Prelude.{◌≡◌, ◌<◌, List, Option, All, IfSome, length, slice_set};
ghost use Rattle.rec_store.specs.Prelude.{IsRoomy, IsRoomyKey, SameElse, same_else_on, same_else_self, things_in};
ghost use Rattle.card_types.specs.declared.limits.TheConstants.{KEYS};
ghost use Rattle.card_types.specs.declared.tables.KeyRec.{KeyRec as KeyOf};

use crate::records::Records;
use card_types::KeyRec;
use flash_core::Flash;

/// What keeps the key slots of a card. It commits nothing and refuses nothing, so it counts no faults.
pub trait RecordKeeper {
    // The key slots, with all changes so far.
    ghost slots: { Self → List (Option KeyOf) };

    // All else that it holds is the same in two of its states.
    ghost same_else: { Self → Self → Type 0 };

    // There is room for changes in any key slots.
    ghost roomy: { Self → Type 0 };

    /// The key slots.
    fn keys(&self) -> &[Option<KeyRec>]
        ensures key_slots { result.now ≡ slots self.now }
        ensures count { length result.now ≡ KEYS }
        ensures counters { All IsRoomyKey (things_in result.now) };

    /// Changes a key slot.
    fn set_key(&mut self, slot: u8, value: Option<KeyRec>)
        requires roomy { roomy self.old }
        requires range { slot < KEYS }
        requires key { IfSome value IsRoomyKey }
        ensures key_slots { slots self.new ≡ slice_set (slots self.old) slot value }
        ensures same_else { same_else self.old self.new }
        ensures roomy { roomy self.new };

    ghost same_self: { (keeper : Self) → same_else keeper keeper };

    ghost same_on: { (a b c : Self) → same_else a b → same_else b c → same_else a c };
}

impl<F: Flash> RecordKeeper for Records<F> {
    ghost slots = { λ records. records.tables.keys.items };

    ghost same_else = { SameElse };

    ghost roomy = { IsRoomy };

    fn keys(&self) -> &[Option<KeyRec>] {
        &self.tables().keys
    }

    fn set_key(&mut self, slot: u8, value: Option<KeyRec>) {
        Records::set_key(self, slot, value);
    }

    ghost same_self = { same_else_self };

    ghost same_on = { same_else_on };
}
