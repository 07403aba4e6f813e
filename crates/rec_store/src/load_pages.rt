//! Load pages.

ghost use Rattle.std.specs.Prelude.{◌≡◌, ◌≢◌, ◌<◌, ℕ, true, OnOk};
ghost use Rattle.rec_store.specs.Prelude.{HasCause, IsFree, IsLoadPage, IsSpare, KeepsRegistry, LeavesOnly, Registry, Reopens, Represents, load_page};

use crate::records::Records;
use flash_core::{Flash, FlashFailed, Page};

impl<F: Flash> Records<F> {
    /// Reads a load page.
    pub fn read_load(&mut self, page: u16, into: &mut Page) -> Result<(), FlashFailed>
        requires live { self.old.live ≡ true }
        requires range { IsLoadPage page }
        ensures bytes { F.tells → OnOk result (into.new.bytes ≡ load_page (F.pages self.old.flash) page) }
        ensures same { (self.new.tables ≡ self.old.tables) × (self.new.staged ≡ self.old.staged) × (self.new.live ≡ true) }
        ensures pages { F.tells → F.pages self.new.flash ≡ F.pages self.old.flash }
        // Power lost at any moment leaves the registry.
        ensures moments { F.tells → (registry : Registry) → KeepsRegistry F.Flash self.old.flash registry
            → LeavesOnly F.Flash self.old.flash self.new.flash (λ outcome. Reopens outcome registry) }
        ensures keeps { F.tells → (registry : Registry) → KeepsRegistry F.Flash self.old.flash registry
            → KeepsRegistry F.Flash self.new.flash registry }
        ensures cause { HasCause (F.faults self.old.flash) (F.faults self.new.flash) result }
    {
        let answer = self.store.read(page, into);
        prove!(into.bytes[..].len() == 256);
        answer
    }

    /// Writes a load page. Until a commit of changes a power loss may leave any bytes in it.
    pub fn write_load(&mut self, page: u16, from: &Page) -> Result<(), FlashFailed>
        requires live { self.old.live ≡ true }
        requires range { IsLoadPage page }
        ensures bytes { F.tells → OnOk result (load_page (F.pages self.new.flash) page ≡ from.now.bytes) }
        ensures others { F.tells → (other : ℕ) → other ≢ page → load_page (F.pages self.new.flash) other ≡ load_page (F.pages self.old.flash) other }
        // Where no file of the tables has the page, their files have their bytes.
        ensures says { F.tells → (registry : Registry) → IsFree self.old.tables page
            → Represents (load_page (F.pages self.old.flash)) self.old.tables registry
            → Represents (load_page (F.pages self.new.flash)) self.old.tables registry }
        ensures same { (self.new.tables ≡ self.old.tables) × (self.new.staged ≡ self.old.staged) × (self.new.live ≡ true) }
        // Where no file on the device has it, power lost at any moment leaves the registry.
        ensures moments { F.tells → IsSpare F.Flash self.old.flash page → (registry : Registry) → KeepsRegistry F.Flash self.old.flash registry
            → LeavesOnly F.Flash self.old.flash self.new.flash (λ outcome. Reopens outcome registry) }
        ensures keeps { F.tells → IsSpare F.Flash self.old.flash page → (registry : Registry) → KeepsRegistry F.Flash self.old.flash registry
            → KeepsRegistry F.Flash self.new.flash registry }
        // What is spare stays so.
        ensures spare { F.tells → (other : ℕ) → IsSpare F.Flash self.old.flash other → IsSpare F.Flash self.new.flash other }
        ensures cause { HasCause (F.faults self.old.flash) (F.faults self.new.flash) result }
    {
        prove!(from.bytes[..].len() == 256);
        self.store.write_free(page, from)
    }
}
