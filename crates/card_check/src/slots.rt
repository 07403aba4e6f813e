//! What tables ask of each thing in a slot.

ghost use Rattle.std.specs.Prelude.{◌↔◌, ℕ, ◌≤◌, IsTrue, length};
ghost use Rattle.card_check.specs.CardSlots.{EachSlot};

use card_types::in_slot;

/// What is asked of a thing in a slot.
pub trait Asks<T> {
    ghost ready: { Self → Type 0 };

    ghost admits: { Self → ℕ → T → Type 0 };

    fn admits(&self, slot: u8, thing: &T) -> bool
        requires { ready self.now }
        ensures { IsTrue result ↔ admits self.now slot thing.now };
}

/// Whether each thing in a slot is admitted.
pub fn all_admitted<T, A: Asks<T>>(slots: &[Option<T>], asks: &A) -> bool
    requires ready { A.ready asks.now }
    requires few { length slots.now ≤ 255 }
    ensures { IsTrue result ↔ EachSlot slots.now (A.admits asks.now) }
{
    for slot in 0..slots.len() as u8 {
        if let Some(thing) = in_slot(slots, slot) {
            if !asks.admits(slot, thing) {
                return false;
            }
        }
    }
    true
}
