//! What one thing owns, in slots of one kind (GlobalPlatform Card Specification 2.3.1, 9.5).

ghost use Rattle.std.specs.Prelude.{◌≡◌, ◌<◌, ℕ, List, Option, true, None, length, map, slice_set};
ghost use Rattle.registry.specs.Prelude.{HasFramesFor, KeepsRoom, StagesChanged, TableLists, is_owned, slot_without, thing_in, with_staged};
ghost use Rattle.card_types.specs.declared.tables.Tables.{Tables};

use card_types::in_slot;
use flash_core::Flash;
use rec_store::Records;

/// What another thing owns, in slots of its kind.
pub trait Owned: Sized {
    // How many slots there are.
    ghost COUNT: { ℕ };

    const COUNT: u8;

    // The slots, and all else that tables hold.
    ghost slots: { Tables → List (Option Self) };

    ghost rest: { Tables → TableLists };

    // The slot of its owner.
    ghost owner: { Self → ℕ };

    // The store page with a slot.
    ghost page: { ℕ → ℕ };

    // Pages that there is room for, those with the slots among them.
    ghost pages: { List ℕ };

    /// The slots.
    fn slots<F: Flash>(records: &Records<F>) -> &[Option<Self>]
        ensures slots { result.now ≡ slots records.now.tables }
        ensures count { length result.now ≡ COUNT };

    /// The slot of its owner.
    fn owner(&self) -> u8
        ensures { result ≡ owner self.now };

    /// Frees a slot. It commits nothing.
    fn free<F: Flash>(records: &mut Records<F>, slot: u8)
        requires live { records.old.live ≡ true }
        requires range { slot < COUNT }
        requires room { HasFramesFor pages records.old.staged }
        ensures slots { slots records.new.tables ≡ slice_set (slots records.old.tables) slot None }
        ensures rest { rest records.new.tables ≡ rest records.old.tables }
        ensures same { (records.new.flash ≡ records.old.flash) × (records.new.live ≡ true) }
        ensures staged { records.new.staged ≡ with_staged records.old.staged (page slot) }
        ensures room { KeepsRoom pages records.old.staged records.new.staged };

    ghost some: { 0 < COUNT };
}

fn is_of<T: Owned>(slots: &[Option<T>], slot: u8, owner: u8) -> bool
    ensures { result ≡ is_owned T.owner owner (thing_in slots.now slot) }
{
    match in_slot(slots, slot) {
        Some(thing) => thing.owner() == owner,
        None => false,
    }
}

/// Frees the slots of what one thing owns. It commits nothing.
pub fn free_owned<F: Flash, T: Owned>(records: &mut Records<F>, owner: u8)
    requires live { records.old.live ≡ true }
    requires room { HasFramesFor T.pages records.old.staged }
    ensures freed { T.slots records.new.tables ≡ map (slot_without T.owner owner) (T.slots records.old.tables) }
    ensures rest { T.rest records.new.tables ≡ T.rest records.old.tables }
    ensures same { (records.new.flash ≡ records.old.flash) × (records.new.live ≡ true) }
    ensures staged { StagesChanged T.page (T.slots records.old.tables) (T.slots records.new.tables) records.old.staged records.new.staged }
    ensures room { KeepsRoom T.pages records.old.staged records.new.staged }
{
    for slot in 0..T::COUNT {
        if is_of(T::slots(records), slot, owner) {
            T::free(records, slot);
        }
    }
}
