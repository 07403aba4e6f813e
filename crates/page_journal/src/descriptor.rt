//! The descriptor of a journal: which copy is of which store page.

ghost use Rattle.std.specs.Prelude.{◌≡◌, ◌↔◌, ℕ, ◌+◌, ◌<◌, ◌≤◌, length, Some, slice_index, IfSome, IsTrue};
ghost use Rattle.flash_core.specs.declared.page.TheConstants.{PAGES};
ghost use Rattle.frame_pool.specs.declared.pool.TheConstants.{FRAMES};
ghost use Rattle.page_journal.specs.Journal.{IsValid, copied_place, place_of_page};
ghost use Rattle.page_journal.specs.Phases.{Names};
ghost use Rattle.page_journal.specs.Store.{AreStorePages};

use crate::pages::{COPIES, STORE_PAGES};
use flash_core::Page;
use frame_pool::{FRAMES, FramePool};

/// A descriptor that names the staged pages in their order.
pub fn describe(pool: &FramePool) -> Page
    requires room { length pool.now ≤ FRAMES }
    requires homes { AreStorePages pool.now }
    ensures { Names pool.now result.bytes }
{
    let mut bytes = [0; 256];
    bytes[0] = pool.len() as u8;
    for index in 0..pool.len() {
        let (home, _) = pool.at(index);
        bytes[index + 1] = home as u8;
    }
    Page { bytes }
}

/// Whether a descriptor has a valid form.
pub fn is_valid(bytes: &[u8; 256]) -> bool
    ensures { IsTrue result ↔ IsValid bytes.now }
{
    let count = bytes[0] as usize;
    if count == 0 || count > FRAMES {
        return false;
    }
    for index in 0..count {
        if bytes[index + 1] >= STORE_PAGES as u8 || is_named_before(bytes, index) {
            return false;
        }
    }
    true
}

// Whether the home at an index is also named before it.
fn is_named_before(bytes: &[u8; 256], index: usize) -> bool
    requires { index < FRAMES }
    ensures { IsTrue result ↔ ((i : ℕ) × (i < index) × (slice_index bytes.now (i + 1) ≡ slice_index bytes.now (index + 1))) }
{
    for earlier in 0..index {
        if bytes[earlier + 1] == bytes[index + 1] {
            return true;
        }
    }
    false
}

/// Where a page stands: in a copy, where there is a descriptor that names it, and otherwise at home.
pub fn place_after(journal: &Option<Page>, page: u16) -> u16
    requires { IfSome journal.now (λ d. slice_index d.bytes 0 ≤ FRAMES) }
    ensures place { result ≡ place_of_page journal.now page }
    ensures bound { page < PAGES → result < PAGES }
{
    match journal {
        Some(descriptor) => place_of(descriptor, page),
        None => page,
    }
}

// Where a page stands while the gate is open.
fn place_of(descriptor: &Page, page: u16) -> u16
    requires room { slice_index descriptor.now.bytes 0 ≤ FRAMES }
    ensures place { result ≡ copied_place descriptor.now.bytes page }
    ensures bound { page < PAGES → result < PAGES }
{
    for index in 0..descriptor.bytes[0] as u16 {
        if u16::from(descriptor.bytes[index as usize + 1]) == page {
            return COPIES + index;
        }
    }
    page
}
