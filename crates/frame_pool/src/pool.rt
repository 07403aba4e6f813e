//! Frames in one block, each for a page.

ghost use Rattle.std.specs.Prelude.{◌≡◌, ◌≢◌, ◌⊎◌, ◌+◌, ◌-◌, ◌<◌, ◌≤◌, List, [], ℕ, Some, None, length, slice_get, take, IfOk, IsSome, IfSome, IfNone, option_map, unwrap_or};
ghost use Rattle.std.specs.Borrow.{sem};
ghost use Rattle.flash_core.specs.declared.page.Page.{Page as PageOf};
ghost use Rattle.flash_core.specs.Memory.{uniform_page};
ghost use Rattle.core.specs.Mem.Slots.{slots_items, slots_len, IsFull};
ghost use Rattle.frame_pool.specs.Entries.{entries, AreLinked};
ghost use Rattle.frame_pool.specs.Staged.{staged_at, with_page, with_bytes_at, AreDistinct};
ghost use Rattle.frame_pool.specs.declared.pool.TheConstants.{FRAMES};

use core::slots::{Lease, Slots, release, reserve};
use flash_core::Page;
use std::alloc::{AllocError, Global};
use std::marker::Model;

/// How many pages may be staged at once.
pub const FRAMES: usize = 30;

/// A staged page, its number, and the frame that is staged after it.
#[derive(Clone, Copy)]
pub struct Frame {
    pub number: u16,
    pub next: u16,
    pub page: Page,
}

/// Staged pages, each in a frame of its own: thirty frames in one block, linked through themselves.
pub struct FramePool {
    frames: Slots<Frame>,
    lease: Lease<Frame, Global>,
    alloc: Global,
    len: usize,
}

impl Model for FramePool {
    ghost use Rattle.std.specs.Prelude.{◌≡◌, ◌≤◌, List, ℕ, take};
    ghost use Rattle.core.specs.Mem.Slots.{slots_items, slots_ptr, slots_len, lease_ptr, lease_len, lease_heap, IsFull};
    ghost use Rattle.flash_core.specs.declared.page.Page.{Page as PageOf};
    ghost use Rattle.frame_pool.specs.Staged.{AreDistinct};
    ghost use Rattle.frame_pool.specs.Entries.{entries, AreLinked};
    ghost use Rattle.frame_pool.specs.declared.pool.TheConstants.{FRAMES};

    ghost Value = { List (ℕ × PageOf) };

    ghost view = { λ p. entries (take p.len (slots_items p.frames)) };

    ghost invariant = { λ p.
        (slots_len p.frames ≡ FRAMES) × IsFull p.frames × (p.len ≤ FRAMES) × AreLinked (slots_items p.frames)
        × AreDistinct (entries (take p.len (slots_items p.frames)))
        × (lease_ptr p.lease ≡ slots_ptr p.frames) × (lease_len p.lease ≡ slots_len p.frames) × (lease_heap p.lease ≡ p.alloc) };
}

// The block is freed once, here.
impl Drop for FramePool {
    fn drop(self) {
        let FramePool {
            frames,
            lease,
            alloc,
            len: _,
        } = self;
        release(&alloc, frames, lease);
    }
}

impl FramePool {
    ghost use Rattle.frame_pool.specs.Lending.{LendsPage, LendsAt};

    /// A pool with nothing staged. `AllocError` is want of memory for its frames.
    pub fn new(alloc: Global) -> Result<FramePool, AllocError>
        ensures { IfOk result (λ p. p ≡ []) }
    {
        let blank = Frame {
            number: 0,
            next: 0,
            page: Page { bytes: [0; 256] },
        };
        let (mut frames, lease) = unsafe { reserve(&alloc, &[blank; FRAMES])? };
        for at in 0..FRAMES {
            frames.put(
                at,
                Frame {
                    next: at as u16 + 1,
                    ..blank
                },
            );
        }
        Ok(FramePool {
            frames,
            lease,
            alloc,
            len: 0,
        })
    }

    /// How many pages are staged.
    pub fn len(&self) -> usize
        ensures length { result ≡ length self.now }
        ensures room { result ≤ FRAMES }
        ensures distinct { AreDistinct self.now }
    {
        self.len
    }

    /// How many more can be.
    pub fn spare(&self) -> usize
        ensures { result + length self.now ≡ FRAMES }
    {
        FRAMES - self.len
    }

    /// Nothing is staged after it.
    pub fn clear(&mut self)
        ensures { self.new ≡ [] }
    {
        self.len = 0;
    }

    /// A staged page by its number.
    pub fn get(&self, page: u16) -> Option<&Page>
        ensures { option_map (λ r. r.now) result ≡ staged_at self.now page }
    {
        match find(&self.frames, self.len, page) {
            Some(at) => Some(&self.frames.get(at).page),
            None => None,
        }
    }

    /// A staged page by its place, in the order of staging.
    pub fn at(&self, index: usize) -> (u16, &Page)
        requires { index < length self.now }
        ensures { slice_get self.now index ≡ Some (result.0, result.1.now) }
    {
        let frame = self.frames.get(index);
        (frame.number, &frame.page)
    }

    /// Lends a page for writing: the one that is staged, or another of zeros after the others.
    pub fn stage(&mut self, page: u16) -> &mut Page
        requires { IsSome (staged_at self.old page) ⊎ (length self.old < FRAMES) }
        ensures* writes_back { sem 𝓛 (LendsPage self.entry page result) }
        ensures value { result.now ≡ unwrap_or (staged_at self.old page) (uniform_page 0) }
    {
        let at = self.place(page);
        self.lend(at)
    }

    // The place of a page, which is added after the others where it was not staged.
    fn place(&mut self, page: u16) -> usize
        requires { IsSome (staged_at self.old page) ⊎ (length self.old < FRAMES) }
        ensures found { slice_get self.new result ≡ Some (page, unwrap_or (staged_at self.old page) (uniform_page 0)) }
        ensures bytes { (w : PageOf) → with_bytes_at self.new result w ≡ with_page self.old page w }
    {
        match find(&self.frames, self.len, page) {
            Some(at) => at,
            None => {
                let at = self.len;
                let blank = Page { bytes: [0; 256] };
                let frame = Frame {
                    number: page,
                    next: at as u16 + 1,
                    page: blank,
                };
                self.frames.put(at, frame);
                self.len = at + 1;
                at
            }
        }
    }

    // Lends the page at a place.
    fn lend(&mut self, at: usize) -> &mut Page
        requires { at < length self.old }
        ensures* writes_back { sem 𝓛 (LendsAt self.entry at result) }
        ensures value { IfSome (slice_get self.old at) (λ s. result.now ≡ s.1) }
    {
        let frame = self.frames.get_mut(at);
        &mut frame.page
    }
}

// The place of a page, by the links from the first of the staged frames on.
fn find(frames: &Slots<Frame>, len: usize, page: u16) -> Option<usize>
    requires full { IsFull frames.now × (slots_len frames.now ≡ FRAMES) × (len ≤ FRAMES) }
    requires linked { AreLinked (slots_items frames.now) }
    ensures some { IfSome result (λ at. (x : PageOf) × (slice_get (entries (take len (slots_items frames.now))) at ≡ Some (page, x))) }
    ensures first { IfSome result (λ at. (k : ℕ) (s : ℕ × PageOf) → k < at → slice_get (entries (take len (slots_items frames.now))) k ≡ Some s → s.0 ≢ page) }
    ensures none { IfNone result ((k : ℕ) (s : ℕ × PageOf) → slice_get (entries (take len (slots_items frames.now))) k ≡ Some s → s.0 ≢ page) }
{
    let mut at = 0;
    for place in 0..len {
        prove!(at == place);
        let frame = frames.get(at);
        if frame.number == page {
            return Some(at);
        }
        at = frame.next as usize;
    }
    None
}
