//! A block is taken, and the file is whole with the last one (GlobalPlatform Card Specification 2.3.1, 11.6).

ghost use Rattle.std.specs.Prelude.{◌≡◌, ◌+◌, ◌<◌, ◌≤◌, ◌++◌, [], ℕ, List, drop, length};
ghost use Rattle.load_session.specs.Prelude.{AreNewPages, AreOwn, AreRoomy, HasPages, IsAfterBlock, IsBlockTaken, IsInLoadPages, IsReadyForBlock, IsWholeFile, RepresentsAfter, RepresentsLoad, RepresentsWhole, blocks_taken, file_of, len_of, load_aid, load_slot, numbers, pages_after, pages_named, pages_taken, with_block};
ghost use Rattle.policy_machine.specs.State.{LoadSession as Load};
ghost use Rattle.card_types.specs.declared.tables.Tables.{Tables as TablesOf};

use crate::block::Taken;
use crate::load_write::{LoadWrite, WRITES};
use crate::session::LoadSession;
use arrayvec::ArrayVec;
use card_types::{LoadFile, Tables};

impl LoadSession {
    /// Takes a block that was judged so, and gives the load pages that are to be written: one that is full, and with the last
    /// block the last one too. From then on the session stands over load pages in which they are written.
    pub fn take_block(
        &mut self,
        tables: &Tables,
        last: bool,
        block: &[u8],
        taken: Taken,
        writes: &mut ArrayVec<LoadWrite, WRITES>,
    )
        requires roomy { AreRoomy tables.now }
        requires ready { IsReadyForBlock tables.now self.old }
        requires taken { IsBlockTaken tables.now self.old (record { last = last; field = block.now }) taken }
        requires number { blocks_taken self.old < 0xFFFF }
        requires short { length block.now ≤ 255 }
        requires none { writes.old.items ≡ [] }
        ensures stands { (page : ℕ → List ℕ) (load : Load) → HasPages page → RepresentsLoad page tables.now self.old load
            → RepresentsAfter last (pages_after page writes.new.items) tables.now self.new (with_block load taken.size (drop taken.start block.now)) }
        ensures sound { IsAfterBlock last tables.now self.new }
        ensures number { blocks_taken self.new ≡ blocks_taken self.old + 1 }
        ensures name { (load_aid self.new ≡ load_aid self.old) × (load_slot self.new ≡ load_slot self.old) }
        ensures writes { AreNewPages tables.now (pages_taken self.old) writes.new.items }
        ensures pages { pages_taken self.new ≡ pages_taken self.old ++ numbers writes.new.items }
    {
        let bytes = &block[taken.start..];
        self.announced = Some(taken.size);
        self.blocks += 1;
        self.paged.add(tables, bytes, writes);
        if last {
            // The hash of the whole file was compared when this block was judged.
            self.paged.close(tables, writes);
            return;
        }
        self.hasher.feed(bytes);
    }

    /// The Executable Load File, once its last block was taken.
    pub fn finish(self) -> LoadFile
        ensures file { (page : ℕ → List ℕ) (tables : TablesOf) (load : Load) → RepresentsWhole page tables self load
            → file_of page tables.entries.items result ≡ record { aid = load.aid; domain = load.domain; bytes = load.bytes } }
        ensures pages { (tables : TablesOf) → IsWholeFile tables self → IsInLoadPages result × AreOwn tables (pages_named result) }
        ensures name { (result.aid ≡ load_aid self) × (result.domain ≡ load_slot self) }
        ensures len { result.len ≡ len_of self }
    {
        let mut pages = [0; 128];
        pages[..self.paged.pages.len()].copy_from_slice(&self.paged.pages);
        LoadFile {
            aid: self.aid,
            domain: self.domain,
            len: self.announced.unwrap_or(0),
            pages,
        }
    }
}
