//! The bytes of an Executable Load File that comes: in load pages, and the last ones in memory.

ghost use Rattle.std.specs.Prelude.{◌≡◌, ◌+◌, ◌<◌, ◌≤◌, ◌++◌, ℕ, [], List, length, map, take};
ghost use Rattle.std.specs.List.{concat};
ghost use Rattle.load_session.specs.Prelude.{AreOwn, AreRoomy, AreTaken, HasLoadRoom, HasPages, IsOpen, bytes_in, padded_page, pages_after, pages_in, pages_of, size_of};
ghost use Rattle.card_types.specs.declared.limits.TheConstants.{LOAD_PAGES};

use crate::free_page::free_page;
use crate::load_write::{LoadWrite, WRITES};
use arrayvec::ArrayVec;
use card_types::Tables;
use flash_core::Page;

/// Bytes in load pages, and after them those that fill none yet.
#[derive(Drop)]
pub(crate) struct PagedBytes {
    pub(crate) pages: ArrayVec<u16, 128>,
    pub(crate) rest: ArrayVec<u8, 256>,
}

impl PagedBytes {
    /// No bytes.
    pub(crate) fn new() -> PagedBytes
        ensures pages { result.pages.items ≡ [] }
        ensures rest { result.rest.items ≡ [] }
    {
        PagedBytes {
            pages: ArrayVec::new(),
            rest: ArrayVec::new(),
        }
    }

    /// How many bytes there are.
    pub(crate) fn len(&self) -> usize
        ensures value { result ≡ size_of self.now }
        ensures few { result ≤ 33_024 }
    {
        256 * self.pages.len() + self.rest.len()
    }

    /// Adds bytes. A page that is full is to be written.
    pub(crate) fn add(
        &mut self,
        tables: &Tables,
        bytes: &[u8],
        writes: &mut ArrayVec<LoadWrite, WRITES>,
    )
        requires roomy { AreRoomy tables.now }
        requires ready { IsOpen tables.now self.old }
        requires room { HasLoadRoom tables.now self.old (length bytes.now) }
        requires short { length bytes.now ≤ 255 }
        requires none { writes.old.items ≡ [] }
        ensures ready { IsOpen tables.now self.new }
        ensures size { size_of self.new ≡ size_of self.old + length bytes.now }
        ensures bytes { (page : ℕ → List ℕ) → bytes_in (pages_after page writes.new.items) self.new ≡ bytes_in page self.old ++ bytes.now }
        ensures taken { AreTaken tables.now self.old.pages.items self.new.pages.items writes.new.items }
        ensures few { length writes.new.items ≤ 1 }
    {
        let free = self.rest.remaining_capacity();
        if bytes.len() < free {
            self.rest.try_extend_from_slice(bytes).unwrap();
            return;
        }
        let (first, later) = bytes.split_at(free);
        self.rest.try_extend_from_slice(first).unwrap();
        self.write_rest(tables, writes);
        self.rest.try_extend_from_slice(later).unwrap();
    }

    /// The last page, where it has bytes, is to be written too.
    pub(crate) fn close(&mut self, tables: &Tables, writes: &mut ArrayVec<LoadWrite, WRITES>)
        requires roomy { AreRoomy tables.now }
        requires ready { IsOpen tables.now self.old }
        requires room { HasLoadRoom tables.now self.old 0 }
        requires few { length writes.old.items ≤ 1 }
        ensures own { AreOwn tables.now self.new.pages.items }
        ensures whole { length self.new.pages.items ≡ pages_of (size_of self.old) }
        ensures bytes { (page : ℕ → List ℕ) → HasPages (pages_after page writes.old.items)
            → take (size_of self.old) (concat (map (pages_after page writes.new.items) self.new.pages.items)) ≡ bytes_in (pages_after page writes.old.items) self.old }
        ensures taken { (taken : List ℕ) → AreTaken tables.now taken self.old.pages.items writes.old.items
            → AreTaken tables.now taken self.new.pages.items writes.new.items }
    {
        if self.rest.is_empty() {
            return;
        }
        self.write_rest(tables, writes);
    }

    // The bytes that are in no page are to be written to one, with zeros after them.
    fn write_rest(&mut self, tables: &Tables, writes: &mut ArrayVec<LoadWrite, WRITES>)
        requires roomy { AreRoomy tables.now }
        requires own { AreOwn tables.now self.old.pages.items }
        requires few { length self.old.pages.items < 128 }
        requires room { pages_in tables.now + length self.old.pages.items < LOAD_PAGES }
        requires place { length writes.old.items < WRITES }
        ensures own { AreOwn tables.now self.new.pages.items }
        ensures pages { length self.new.pages.items ≡ length self.old.pages.items + 1 }
        ensures writes { length writes.new.items ≡ length writes.old.items + 1 }
        ensures rest { self.new.rest.items ≡ [] }
        ensures bytes { (page : ℕ → List ℕ) → concat (map (pages_after page writes.new.items) self.new.pages.items)
            ≡ concat (map (pages_after page writes.old.items) self.old.pages.items) ++ padded_page self.old.rest.items }
        ensures taken { (taken : List ℕ) → AreTaken tables.now taken self.old.pages.items writes.old.items
            → AreTaken tables.now taken self.new.pages.items writes.new.items }
    {
        let number = free_page(tables, &self.pages);
        writes.push(LoadWrite {
            number,
            page: page_of(&self.rest),
        });
        self.pages.push(number);
        self.rest.clear();
    }
}

// A page that begins with the bytes.
fn page_of(bytes: &[u8]) -> Page
    requires { length bytes.now ≤ 256 }
    ensures { result.bytes ≡ padded_page bytes.now }
{
    let mut padded = [0; 256];
    padded[..bytes.len()].copy_from_slice(bytes);
    Page { bytes: padded }
}
