//! All slots of one kind.

ghost use Rattle.std.specs.Prelude.{◌≡◌, ◌≢◌, ◌⊎◌, ◌+◌, ◌*◌, ◌/◌, ◌%◌, ◌<◌, ◌≤◌, ℕ, [], Option, true, length, slice_get, All, IsSome, IfSome, IfOk, OnOk, OnErr, IfErr};
ghost use Rattle.rec_store.specs.Prelude.{AreHeld, HasCause, HoldsPage, IsRead, IsStorePage, Rose, SlotHolds, SlotsFail, slot_at, slot_from, staged_at, store_in, store_page, thing_in, things_in, with_page};
ghost use Rattle.flash_core.specs.declared.page.Page.{Page as PageOf};
ghost use Rattle.frame_pool.specs.declared.pool.TheConstants.{FRAMES};
ghost use Rattle.page_journal.specs.declared.pages.TheConstants.{STORE_PAGES};

use crate::open::OpenCause;
use crate::slot::{BadSlot, Slot, read, write};
use flash_core::{Flash, FlashFailed, Page};
use page_journal::PageStore;

// What the slot at a place of a page holds.
fn read_at<T: Slot>(bytes: &[u8; 256], place: usize) -> Result<Option<T>, BadSlot>
    requires { place < 256 / T.SIZE }
    ensures ok { IfOk result (SlotHolds T.is_in (slot_at bytes.now T.SIZE place)) }
    ensures read_each { IfOk result (λ thing. IfSome thing T.is_read) }
    ensures err { OnErr result ((thing : Option T) → SlotHolds T.is_in (slot_at bytes.now T.SIZE place) thing → ⊥) }
{
    let at = place * T::SIZE;
    read(&bytes[at..at + T::SIZE])
}

// Makes the slot at a place of a page hold this.
fn write_at<T: Slot>(thing: &Option<T>, bytes: &mut [u8; 256], place: usize)
    requires place { place < 256 / T.SIZE }
    requires roomy { IfSome thing.now T.is_roomy }
    ensures put { SlotHolds T.is_in (slot_at bytes.new T.SIZE place) thing.now }
    ensures others { (other : ℕ) → other < 256 / T.SIZE → other ≢ place → slot_at bytes.new T.SIZE other ≡ slot_at bytes.old T.SIZE other }
{
    let at = place * T::SIZE;
    write(thing, &mut bytes[at..at + T::SIZE]);
}

// Makes the slot at a place of a page hold what is in this slot of a list, past whose end all are free.
fn write_held<T: Slot>(slots: &[Option<T>], slot: usize, bytes: &mut [u8; 256], place: usize)
    requires place { place < 256 / T.SIZE }
    requires roomy { All T.is_roomy (things_in slots.now) }
    ensures put { SlotHolds T.is_in (slot_at bytes.new T.SIZE place) (thing_in slots.now slot) }
    ensures others { (other : ℕ) → other < 256 / T.SIZE → other ≢ place → slot_at bytes.new T.SIZE other ≡ slot_at bytes.old T.SIZE other }
{
    match slots.get(slot) {
        Some(thing) => write_at(thing, bytes, place),
        None => write_at::<T>(&None, bytes, place),
    }
}

// Reads the slots of a page, which is the one with this number of those.
fn read_page<T: Slot>(
    bytes: &[u8; 256],
    slots: &mut [Option<T>],
    number: usize,
) -> Result<(), BadSlot>
    requires { number * (256 / T.SIZE) + 256 / T.SIZE ≤ length slots.old }
    ensures ok { OnOk result (HoldsPage (SlotHolds T.is_in) T.SIZE bytes.now number slots.new) }
    ensures read_each { OnOk result ((place : ℕ) → place < 256 / T.SIZE → IfSome (thing_in slots.new (number * (256 / T.SIZE) + place)) T.is_read) }
    ensures before { (slot : ℕ) → slot < number * (256 / T.SIZE) → thing_in slots.new slot ≡ thing_in slots.old slot }
    ensures err { OnErr result ((place : ℕ) × (place < 256 / T.SIZE) × ((thing : Option T) → SlotHolds T.is_in (slot_at bytes.now T.SIZE place) thing → ⊥)) }
{
    let each = 256 / T::SIZE;
    for place in 0..each {
        slots[number * each + place] = read_at(bytes, place)?;
    }
    Ok(())
}

/// Reads a store page of a store where nothing is staged.
pub fn read_store<F: Flash>(store: &mut PageStore<F>, page: u16) -> Result<Page, FlashFailed>
    requires live { store.old.live ≡ true }
    requires none { store.old.staged ≡ [] }
    requires range { IsStorePage page }
    ensures page { F.tells → IfOk result (λ read. store_page (F.pages store.old.flash) page ≡ read.bytes) }
    ensures read { IsRead F.Flash store.old store.new }
    ensures cause { OnErr result (Rose (F.faults store.old.flash) (F.faults store.new.flash)) }
{
    let mut into = Page { bytes: [0; 256] };
    store.read(page, &mut into)?;
    Ok(into)
}

/// Reads all slots of one kind, each page once.
pub fn read_slots<F: Flash, T: Slot>(
    store: &mut PageStore<F>,
    slots: &mut [Option<T>],
) -> Result<(), OpenCause>
    requires live { store.old.live ≡ true }
    requires none { store.old.staged ≡ [] }
    requires whole { length slots.old % (256 / T.SIZE) ≡ 0 }
    requires range { T.FIRST * (256 / T.SIZE) + length slots.old ≤ STORE_PAGES * (256 / T.SIZE) }
    ensures ok { F.tells → OnOk result (AreHeld (SlotHolds T.is_in) (slot_from (store_page (F.pages store.old.flash)) T.FIRST T.SIZE) (length slots.new) slots.new) }
    ensures read_each { OnOk result (All T.is_read (things_in slots.new)) }
    ensures read { IsRead F.Flash store.old store.new }
    ensures err { IfErr result (SlotsFail F.tells (F.faults store.old.flash) (F.faults store.new.flash)
        ((slot : ℕ) × (slot < length slots.old) × ((thing : Option T) → SlotHolds T.is_in (slot_from (store_page (F.pages store.old.flash)) T.FIRST T.SIZE slot) thing → ⊥))) }
{
    for number in 0..slots.len() / (256 / T::SIZE) {
        let page = read_store(store, T::FIRST + number as u16)?;
        read_page(&page.bytes, slots, number)?;
    }
    Ok(())
}

/// Stages the page of a slot, with all slots of it. It makes no call on the device.
pub fn stage_slots<F: Flash, T: Slot>(store: &mut PageStore<F>, slots: &[Option<T>], slot: u8)
    requires live { store.old.live ≡ true }
    requires settled { store.old.settled ≡ true }
    requires slot { slot < length slots.now }
    requires whole { length slots.now % (256 / T.SIZE) ≡ 0 }
    requires range { T.FIRST * (256 / T.SIZE) + length slots.now ≤ STORE_PAGES * (256 / T.SIZE) }
    requires roomy { All T.is_roomy (things_in slots.now) }
    requires frame { IsSome (staged_at store.old.staged (T.FIRST + slot / (256 / T.SIZE))) ⊎ (length store.old.staged < FRAMES) }
    ensures { (page : PageOf) × (store.new ≡ record store.old { staged = with_page store.old.staged (T.FIRST + slot / (256 / T.SIZE)) page })
        × HoldsPage (SlotHolds T.is_in) T.SIZE page.bytes (slot / (256 / T.SIZE)) slots.now }
{
    let number = usize::from(slot) / (256 / T::SIZE);
    let page = Page {
        bytes: page_of(slots, number),
    };
    store.stage(T::FIRST + number as u16, &page);
}

// The page of slots with this number.
fn page_of<T: Slot>(slots: &[Option<T>], number: usize) -> [u8; 256]
    requires range { IsStorePage number }
    requires roomy { All T.is_roomy (things_in slots.now) }
    ensures { HoldsPage (SlotHolds T.is_in) T.SIZE result number slots.now }
{
    let mut bytes = [0; 256];
    let each = 256 / T::SIZE;
    for place in 0..each {
        write_held(slots, number * each + place, &mut bytes, place);
    }
    bytes
}

/// Writes the pages of so many slots of one kind. Those past the end of the list are free.
pub fn write_slots<F: Flash, T: Slot>(
    flash: &mut F,
    slots: &[Option<T>],
    count: usize,
) -> Result<(), FlashFailed>
    requires whole { count % (256 / T.SIZE) ≡ 0 }
    requires range { T.FIRST * (256 / T.SIZE) + count ≤ STORE_PAGES * (256 / T.SIZE) }
    requires roomy { All T.is_roomy (things_in slots.now) }
    ensures held { F.tells → OnOk result (AreHeld (SlotHolds T.is_in) (slot_from (store_in (slice_get (F.pages flash.new))) T.FIRST T.SIZE) count slots.now) }
    ensures others { F.tells → (page : ℕ) → (page < T.FIRST) ⊎ (STORE_PAGES ≤ page) → slice_get (F.pages flash.new) page ≡ slice_get (F.pages flash.old) page }
    ensures cause { HasCause (F.faults flash.old) (F.faults flash.new) result }
{
    for number in 0..count / (256 / T::SIZE) {
        let page = Page {
            bytes: page_of(slots, number),
        };
        flash.write(T::FIRST + number as u16, &page)?;
    }
    Ok(())
}
