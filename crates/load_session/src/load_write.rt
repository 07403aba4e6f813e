//! Load pages that are to be written.

ghost use Rattle.std.specs.Prelude.{◌≡◌, [], true, All, IsOk, OnOk};
ghost use Rattle.load_session.specs.Prelude.{HasCause, IsLoadPage, IsSpare, KeepsRegistry, LeavesOnly, Registry, Reopens, load_page, numbers, pages_after};

use flash_core::{Flash, FlashFailed, Page};
use rec_store::Records;
use std::default::Default;

/// A load page that is to be written: its number, and its bytes.
#[derive(Clone, Copy, Debug)]
pub struct LoadWrite {
    pub number: u16,
    pub page: Page,
}

impl Default for LoadWrite {
    /// Zeros in a page of no number that is written.
    fn default() -> LoadWrite {
        LoadWrite {
            number: 0,
            page: Page { bytes: [0; 256] },
        }
    }
}

/// How many load pages one block may fill, the last one among them.
pub const WRITES: usize = 2;

/// Writes load pages, one after the other.
pub fn write_pages<F: Flash>(
    records: &mut Records<F>,
    writes: &[LoadWrite],
) -> Result<(), FlashFailed>
    requires live { records.old.live ≡ true }
    requires range { All IsLoadPage (numbers writes.now) }
    ensures bytes { F.tells → OnOk result (load_page (F.pages records.new.flash) ≡ pages_after (load_page (F.pages records.old.flash)) writes.now) }
    ensures same { (records.new.tables ≡ records.old.tables) × (records.new.staged ≡ records.old.staged) × (records.new.live ≡ true) }
    // Where no file on the device has one of the pages, power lost at any moment leaves the registry.
    ensures moments { F.tells → All (IsSpare F.Flash records.old.flash) (numbers writes.now)
        → (registry : Registry) → KeepsRegistry F.Flash records.old.flash registry
        → LeavesOnly F.Flash records.old.flash records.new.flash (λ outcome. Reopens outcome registry) }
    ensures keeps { F.tells → All (IsSpare F.Flash records.old.flash) (numbers writes.now)
        → (registry : Registry) → KeepsRegistry F.Flash records.old.flash registry → KeepsRegistry F.Flash records.new.flash registry }
    ensures idle { writes.now ≡ [] → IsOk result × (records.new ≡ records.old) }
    ensures cause { HasCause (F.faults records.old.flash) (F.faults records.new.flash) result }
{
    for write in writes {
        records.write_load(write.number, &write.page)?;
    }
    Ok(())
}
