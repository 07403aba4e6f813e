//! What a command changed is committed (this profile's own).

ghost use Rattle.std.specs.Prelude.{◌≡◌, [], All, OnOk, true};
ghost use Rattle.card_core.specs.Prelude.{AreCards, AreSpare, HasCause, IsLoadPage, IsSpare, KeepsRegistry, LeavesOnly, Registry, ReopensEither, Represents, load_page, numbers, pages_after};

use flash_core::{Flash, FlashFailed};
use load_session::{LoadWrite, write_pages};
use rec_store::Records;

/// Writes the load pages that a command filled, and then commits what it changed. No Executable Load File that the device holds has such
/// a page. With nothing written and nothing changed it makes no call on the device.
pub fn commit<F: Flash>(records: &mut Records<F>, writes: &[LoadWrite]) -> Result<(), FlashFailed>
    requires live { records.old.live ≡ true }
    requires cards { AreCards records.old.tables }
    requires range { All IsLoadPage (numbers writes.now) }
    requires spare { F.tells → All (IsSpare F.Flash records.old.flash) (numbers writes.now) }
    // Power lost at any moment leaves the registry from before, or the one that the tables say over the load pages with those written.
    ensures moments { F.tells → (before after : Registry) → KeepsRegistry F.Flash records.old.flash before
        → Represents (pages_after (load_page (F.pages records.old.flash)) writes.now) records.old.tables after
        → LeavesOnly F.Flash records.old.flash records.new.flash (ReopensEither before after) }
    ensures keeps { F.tells → (before after : Registry) → KeepsRegistry F.Flash records.old.flash before
        → Represents (pages_after (load_page (F.pages records.old.flash)) writes.now) records.old.tables after
        → OnOk result (KeepsRegistry F.Flash records.new.flash after) }
    ensures load { F.tells → OnOk result (load_page (F.pages records.new.flash) ≡ pages_after (load_page (F.pages records.old.flash)) writes.now) }
    ensures spare { F.tells → OnOk result (AreSpare F.Flash records.new.flash records.new.tables) }
    ensures tables { records.new.tables ≡ records.old.tables }
    ensures idle { writes.now ≡ [] → records.old.staged ≡ [] → records.new ≡ records.old }
    ensures ok { OnOk result ((records.new.staged ≡ []) × (records.new.live ≡ true)) }
    ensures cause { HasCause (F.faults records.old.flash) (F.faults records.new.flash) result }
{
    write_pages(records, writes)?;
    records.commit()
}
