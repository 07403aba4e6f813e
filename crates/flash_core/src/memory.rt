//! A device in memory.

ghost use Rattle.std.specs.Prelude.{◌≡◌, ◌↔◌, ◌<◌, ◌≤◌, ◌++◌, [], ◌∷◌, Some, true, false, length, replicate, slice_get, vec_len, vec_capacity, IsErr, IsOk, IfOk, OnOk, OnErr};
ghost use Rattle.faults.specs.Faults.{HasCause, next_count};
ghost use Rattle.flash_core.specs.Device.{SameBut, NoneNew, AnyBytesIn, Only, Elapses};
ghost use Rattle.flash_core.specs.Memory.{cut_page as cut_page_of, CutBy, uniform_page};
ghost use Rattle.flash_core.specs.declared.page.TheConstants.{PAGES};

use crate::flash::{Flash, FlashFailed};
use crate::page::{PAGES, Page};
use std::alloc::{AllocError, Global};
use std::marker::Model;

/// What the device was asked to do.
#[derive(Clone, Copy)]
pub enum Call {
    Write(u16, Page),
    Sync,
}

/// A device in memory, which keeps a list of the writes and syncs that it took.
#[derive(Drop)]
pub struct MemFlash {
    first: Vec<Page>,
    seen: Vec<Page>,
    kept: Vec<Page>,
    written: Vec<bool>,
    calls: Vec<Call>,
    room: usize,
    faults: u64,
}

impl Model for MemFlash {
    ghost use Rattle.std.specs.Prelude.{◌≡◌, ◌≤◌, length, vec_len, vec_capacity};
    ghost use Rattle.flash_core.specs.Memory.{MemoryFlash};
    ghost use Rattle.flash_core.specs.Replay.{settled_medium, after_calls};
    ghost use Rattle.flash_core.specs.declared.page.TheConstants.{PAGES};

    ghost Value = { MemoryFlash };

    ghost view = { λ m. record { first = m.first.items; calls = m.calls.items; room = m.room; faults = m.faults } };

    ghost invariant = { λ m.
        (length m.first.items ≡ PAGES)
        × (vec_len m.seen ≡ PAGES)
        × (vec_len m.kept ≡ PAGES)
        × (vec_len m.written ≡ PAGES)
        × (after_calls (settled_medium m.first.items) m.calls.items ≡ record { seen = m.seen.items; kept = m.kept.items; written = m.written.items })
        × (vec_len m.calls ≤ m.room)
        × (m.room ≤ vec_capacity m.calls) };
}

impl MemFlash {
    ghost use Rattle.flash_core.specs.Memory.{MemoryFlash, medium};
    ghost use Rattle.flash_core.specs.Replay.{MayLeave, IsInRange};

    /// Pages of zeros with nothing pending, and room for so many writes and syncs. `AllocError` is want of
    /// memory for the pages and that room.
    pub fn new(alloc: Global, room: u32) -> Result<MemFlash, AllocError>
        ensures { IfOk result (λ m. m ≡ record { first = replicate PAGES (uniform_page 0); calls = []; room = room; faults = 0 }) }
    {
        Ok(MemFlash {
            first: zero_pages(alloc)?,
            seen: zero_pages(alloc)?,
            kept: zero_pages(alloc)?,
            written: Vec::from_elem(alloc, false, PAGES as usize)?,
            calls: Vec::with_capacity(alloc, room as usize)?,
            room: room as usize,
            faults: 0,
        })
    }

    /// A page as a read gives it.
    pub fn page(&self, number: u16) -> &Page
        requires { number < PAGES }
        ensures { slice_get (medium self.now).seen number ≡ Some result.now }
    {
        &self.seen[number as usize]
    }

    // Takes a write or a sync, where the list has room for it.
    fn take(&mut self, call: Call) -> Result<(), FlashFailed>
        requires { IsInRange call }
        ensures pages { length (medium self.old).seen ≡ PAGES }
        ensures refused { IsErr result ↔ (self.old.room ≤ length self.old.calls) }
        ensures ok { OnOk result (self.new ≡ record self.old { calls = self.old.calls ++ call ∷ [] }) }
        ensures err { OnErr result (self.new ≡ record self.old { faults = next_count self.old.faults }) }
        ensures cause { HasCause self.old.faults self.new.faults result }
    {
        if self.calls.len() >= self.room {
            self.faults = self.faults.saturating_add(1);
            return Err(FlashFailed);
        }
        self.calls.push_reserved(call);
        match call {
            Call::Write(page, content) => {
                self.seen[page as usize] = content;
                self.written[page as usize] = true;
            }
            Call::Sync => {
                self.kept.copy_from_slice(&self.seen);
                self.written.fill(false);
            }
        }
        Ok(())
    }

    /// Takes the power away. Of the pages written since the last good sync each comes back as that sync kept it, or
    /// stays as it was written last, or is torn, by the seed and its number. Then nothing is pending, and the
    /// list is empty.
    pub fn power_cut(&mut self, seed: u64)
        ensures outcome { MayLeave (medium self.old) (medium self.new).seen }
        ensures cut { CutBy seed (medium self.old) (medium self.new).seen }
        ensures anew { self.new ≡ record self.old { first = (medium self.new).seen; calls = [] } }
    {
        cut_pages(seed, &mut self.seen, &self.kept, &self.written);
        self.kept.copy_from_slice(&self.seen);
        self.first.copy_from_slice(&self.seen);
        self.written.fill(false);
        self.calls.clear();
    }
}

fn zero_pages(alloc: Global) -> Result<Vec<Page>, AllocError>
    ensures { IfOk result (λ pages. pages.items ≡ replicate PAGES (uniform_page 0)) }
{
    Vec::from_elem(alloc, Page { bytes: [0; 256] }, PAGES as usize)
}

// What a power cut leaves of a page.
fn cut_page(seed: u64, page: u64, seen: Page, kept: Page, written: bool) -> Page
    ensures { result ≡ cut_page_of seed page seen kept written }
{
    if !written {
        return seen;
    }
    let sum = seed.wrapping_add(page);
    match sum % 3 {
        0 => kept,
        1 => seen,
        _ => Page {
            bytes: [(sum % 256) as u8; 256],
        },
    }
}

fn cut_pages(seed: u64, seen: &mut [Page], kept: &[Page], written: &[bool])
    requires kept { length kept.now ≡ length seen.old }
    requires written { length written.now ≡ length seen.old }
    ensures { CutBy seed (record { seen = seen.old; kept = kept.now; written = written.now }) seen.new }
{
    for (page, content) in seen.iter_mut().enumerate() {
        *content = cut_page(seed, page as u64, *content, kept[page], written[page]);
    }
}

impl Flash for MemFlash {
    ghost use Rattle.flash_core.specs.Memory.{MemoryFlash, medium, LeftSince};
    ghost use Rattle.flash_core.specs.Replay.{MayLeave};
    ghost use Rattle.flash_core.specs.MemoryLaws.{left_as_read, left_now, left_only_now};

    ghost tells = { Unit {0} };

    ghost pages = { λ m. (medium m).seen };

    ghost moment = { λ m. length m.calls };

    ghost may_leave = { λ m outcome. MayLeave (medium m) outcome };

    ghost left_since = { LeftSince };

    ghost faults = { λ m. m.faults };

    ghost as_read = { λ m _. left_as_read m };

    ghost counts_now = { λ m t outcome _. left_now m t outcome };

    ghost only_now = { λ m outcome _. left_only_now m outcome };

    fn read(&mut self, page: u16, into: &mut Page) -> Result<(), FlashFailed>
        requires range { page < PAGES }
        ensures written { Unit {0} → OnOk result (slice_get (medium self.old).seen page ≡ Some into.new) }
        ensures torn { Unit {0} → (medium self.new).seen ≡ (medium self.old).seen }
        ensures loss { Unit {0} → NoneNew (MayLeave (medium self.old)) (MayLeave (medium self.new)) }
        ensures time { Unit {0} → Elapses (length self.old.calls) (length self.new.calls) (LeftSince self.old) (LeftSince self.new) (MayLeave (medium self.new)) }
        ensures cause { HasCause self.old.faults self.new.faults result }

        // It never fails, and changes nothing.
        ensures succeeds { IsOk result }
        ensures same { self.new ≡ self.old }
    {
        *into = self.seen[page as usize];
        Ok(())
    }

    fn write(&mut self, page: u16, from: &Page) -> Result<(), FlashFailed>
        requires range { page < PAGES }
        ensures written { Unit {0} → OnOk result (slice_get (medium self.new).seen page ≡ Some from.now) }
        ensures torn { Unit {0} → SameBut page (medium self.old).seen (medium self.new).seen }
        ensures loss { Unit {0} → AnyBytesIn page (MayLeave (medium self.old)) (MayLeave (medium self.new)) }
        ensures time { Unit {0} → Elapses (length self.old.calls) (length self.new.calls) (LeftSince self.old) (LeftSince self.new) (MayLeave (medium self.new)) }
        ensures cause { HasCause self.old.faults self.new.faults result }

        // It fails exactly where the list is full, and changes no page then.
        ensures refused { IsErr result ↔ (self.old.room ≤ length self.old.calls) }
        ensures ok { OnOk result (self.new ≡ record self.old { calls = self.old.calls ++ Call.Write page from.now ∷ [] }) }
        ensures err { OnErr result (self.new ≡ record self.old { faults = next_count self.old.faults }) }
    {
        self.take(Call::Write(page, *from))
    }

    fn sync(&mut self) -> Result<(), FlashFailed>
        ensures written { Unit {0} → OnOk result (Only (medium self.old).seen (MayLeave (medium self.new))) }
        ensures torn { Unit {0} → (medium self.new).seen ≡ (medium self.old).seen }
        ensures loss { Unit {0} → NoneNew (MayLeave (medium self.old)) (MayLeave (medium self.new)) }
        ensures time { Unit {0} → Elapses (length self.old.calls) (length self.new.calls) (LeftSince self.old) (LeftSince self.new) (MayLeave (medium self.new)) }
        ensures cause { HasCause self.old.faults self.new.faults result }

        // It fails exactly where the list is full.
        ensures refused { IsErr result ↔ (self.old.room ≤ length self.old.calls) }
        ensures ok { OnOk result (self.new ≡ record self.old { calls = self.old.calls ++ Call.Sync ∷ [] }) }
        ensures err { OnErr result (self.new ≡ record self.old { faults = next_count self.old.faults }) }
    {
        self.take(Call::Sync)
    }
}
