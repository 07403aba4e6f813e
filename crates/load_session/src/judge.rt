//! Whether a block is taken (GlobalPlatform Card Specification 2.3.1, 11.6.2).

ghost use Rattle.std.specs.Prelude.{◌≡◌, ◌≢◌, ◌↔◌, ◌⊎◌, ◌+◌, ◌<◌, ◌≤◌, ℕ, List, Bool, All, false, true, Err, IfErr, IfNone, IfOk, IfSome, drop, length};
ghost use Rattle.load_session.specs.Prelude.{AreRoomy, BlockPasses, BringsBytes, ForEachSaid, HasPageNumbers, IsBlockTaken, StopsBlock, pages_in, pages_of, size_of, things_in};

use crate::block::{BlockStop, Taken, first_block};
use crate::free_page::count_pages;
use crate::session::LoadSession;
use card_types::{FILE_LIMIT, LOAD_PAGES, Tables};

impl LoadSession {
    /// Judges a block: what it brings, or the first of the causes why it is not taken. It writes nothing.
    pub fn judge_block(&self, tables: &Tables, last: bool, block: &[u8]) -> Result<Taken, BlockStop>
        requires roomy { AreRoomy tables.now }
        // Each cause is given exactly where it is the first that holds.
        ensures stop { ForEachSaid tables.now self.now (λ said load. (stop : BlockStop) → (result ≡ Err stop ↔ StopsBlock said load (record { last = last; field = block.now }) stop)) }
        ensures taken { IfOk result (IsBlockTaken tables.now self.now (record { last = last; field = block.now })) }
    {
        self.first_stop(tables, last, block)
    }

    // What `judge_block` gives: a cause that stands there, or what passes all of them.
    fn first_stop(&self, tables: &Tables, last: bool, block: &[u8]) -> Result<Taken, BlockStop>
        requires roomy { AreRoomy tables.now }
        ensures stopped { IfErr result (λ stop. ForEachSaid tables.now self.now (λ said load. StopsBlock said load (record { last = last; field = block.now }) stop)) }
        ensures passes { IfOk result (λ taken. ForEachSaid tables.now self.now (λ said load. BlockPasses said load (record { last = last; field = block.now }))) }
        ensures taken { IfOk result (IsBlockTaken tables.now self.now (record { last = last; field = block.now })) }
    {
        let Some(taken) = self.brought(block) else {
            return Err(BlockStop::FirstBlock);
        };
        if !has_room(tables, taken.size) {
            return Err(BlockStop::NoRoom);
        }
        let bytes = &block[taken.start..];
        if !self.has_count(last, taken.size, bytes) {
            return Err(BlockStop::Count);
        }
        if last && !self.hasher.fits(bytes, &self.hash) {
            return Err(BlockStop::Hash);
        }
        Ok(taken)
    }

    // What a block brings: the first one announces how many bytes come, and the others are bytes alone.
    fn brought(&self, block: &[u8]) -> Option<Taken>
        ensures within { IfSome result (λ taken. taken.start ≤ length block.now) }
        ensures some { IfSome result (λ taken. (last : Bool) → BringsBytes self.now.announced (record { last = last; field = block.now }) taken.size (drop taken.start block.now)) }
        ensures none { IfNone result ((last : Bool) (size : ℕ) (bytes : List ℕ) → BringsBytes self.now.announced (record { last = last; field = block.now }) size bytes → ⊥) }
    {
        match self.announced {
            Some(size) => Some(Taken { size, start: 0 }),
            None => first_block(block),
        }
    }

    // Whether no more bytes have come than were announced, and with the last block as many.
    fn has_count(&self, last: bool, size: u16, bytes: &[u8]) -> bool
        ensures yes { result ≡ true → size_of self.now.paged + length bytes.now ≤ size }
        ensures all { result ≡ true → last ≡ true → size_of self.now.paged + length bytes.now ≡ size }
        ensures no { result ≡ false → (size < size_of self.now.paged + length bytes.now) ⊎ ((last ≡ true) × (size_of self.now.paged + length bytes.now ≢ size)) }
    {
        let count = self.paged.len() + bytes.len();
        if last {
            count == usize::from(size)
        } else {
            count <= usize::from(size)
        }
    }
}

// Whether there is room for a file of this size.
fn has_room(tables: &Tables, size: u16) -> bool
    requires { AreRoomy tables.now }
    ensures yes { result ≡ true → (size ≤ FILE_LIMIT) × (pages_in tables.now + pages_of size ≤ LOAD_PAGES) }
    ensures no { result ≡ false → (FILE_LIMIT < size) ⊎ (LOAD_PAGES < pages_in tables.now + pages_of size) }
    ensures arrays { All HasPageNumbers (things_in tables.now.files.items) }
{
    let size = usize::from(size);
    let in_use = count_pages(tables);
    size <= FILE_LIMIT && in_use + size.div_ceil(256) <= LOAD_PAGES
}
