//! What stands in slots of store pages.

ghost use Rattle.std.specs.Prelude.{◌≡◌, ◌*◌, ◌/◌, ◌<◌, ◌≤◌, ℕ, List, Option, length, slice_index, IfOk, OnErr, IfSome};
ghost use Rattle.page_journal.specs.Pages.{IsStorePage};
ghost use Rattle.rec_store.specs.Slot.{SlotHolds};

/// The first byte of a free slot and of a used one.
pub const FREE: u8 = 0;

pub const USED: u8 = 1;

/// The bytes of a slot hold nothing that a card has.
#[derive(Clone, Copy, Debug, PartialEq, Eq)]
pub struct BadSlot;

/// A thing that a slot holds.
pub trait Slot: Drop {
    // Where its slots begin among the store pages, and the bytes of one.
    ghost FIRST: { ℕ };

    const FIRST: u16;

    ghost SIZE: { ℕ };

    const SIZE: usize;

    // A slot with these bytes is used for the thing, and marked so.
    ghost is_in: { List ℕ → Self → Type 0 };

    ghost marked: { (slot : List ℕ) → (thing : Self) → is_in slot thing → slice_index slot 0 ≡ 1 };

    // A slot has room for the thing.
    ghost is_roomy: { Self → Type 0 };

    // What is so of each thing that is read.
    ghost is_read: { Self → Type 0 };

    /// What a used slot holds.
    fn read_used(slot: &[u8]) -> Result<Self, BadSlot>
        requires size { length slot.now ≡ SIZE }
        requires mark { slice_index slot.now 0 ≡ 1 }
        ensures ok { IfOk result (is_in slot.now) }
        ensures read { IfOk result is_read }
        ensures err { OnErr result ((thing : Self) → is_in slot.now thing → ⊥) };

    /// Makes a slot hold this.
    fn write_used(&self, slot: &mut [u8])
        requires size { length slot.old ≡ SIZE }
        requires roomy { is_roomy self.now }
        ensures { is_in slot.new self.now };

    // Whole slots fill a page.
    ghost sizes: { (0 < SIZE) × (256 / SIZE * SIZE ≡ 256) × IsStorePage FIRST };
}

/// What a slot holds.
pub fn read<T: Slot>(slot: &[u8]) -> Result<Option<T>, BadSlot>
    requires { length slot.now ≡ T.SIZE }
    ensures ok { IfOk result (SlotHolds T.is_in slot.now) }
    ensures read { IfOk result (λ thing. IfSome thing T.is_read) }
    ensures err { OnErr result ((thing : Option T) → SlotHolds T.is_in slot.now thing → ⊥) }
{
    match slot[0] {
        FREE => Ok(None),
        USED => Ok(Some(T::read_used(slot)?)),
        _ => Err(BadSlot),
    }
}

/// Makes a slot hold this, or nothing.
pub fn write<T: Slot>(thing: &Option<T>, slot: &mut [u8])
    requires size { length slot.old ≡ T.SIZE }
    requires roomy { IfSome thing.now T.is_roomy }
    ensures { SlotHolds T.is_in slot.new thing.now }
{
    match thing {
        Some(thing) => thing.write_used(slot),
        None => slot[0] = FREE,
    }
}
