//! A commit and the end of one that was cut off, at every moment.

ghost use Rattle.std.specs.Prelude.{◌≡◌, ℕ, ◌<◌, ◌≤◌, List, length, Some, false, true, slice_get, OnOk};
ghost use Rattle.faults.specs.Faults.{HasCause};
ghost use Rattle.flash_core.specs.Device.{Only};
ghost use Rattle.frame_pool.specs.Staged.{AreDistinct};
ghost use Rattle.frame_pool.specs.declared.pool.TheConstants.{FRAMES};
ghost use Rattle.page_journal.specs.Journal.{is_open, stored_page, IsValid};
ghost use Rattle.page_journal.specs.Moments.{Always, LeavesPages, LeavesOnly, Leaves, current};
ghost use Rattle.page_journal.specs.Store.{AreStorePages, SameBelow, StandsForList};
ghost use Rattle.page_journal.specs.declared.pages.TheConstants.{DESCRIPTOR};

use crate::steps::{OPEN, copy_in_place, put_in_place, record, set_gate};
use flash_core::{Flash, FlashFailed, Page};
use frame_pool::FramePool;

/// Commits the staged pages.
pub fn commit_pages<F: Flash>(flash: &mut F, pool: &FramePool) -> Result<(), FlashFailed>
    requires some { 0 < length pool.now }
    requires room { length pool.now ≤ FRAMES }
    requires homes { AreStorePages pool.now }
    requires distinct { AreDistinct pool.now }
    requires closed { F.tells → is_open (F.pages flash.old) ≡ false }
    requires calm { F.tells → Always (F.may_leave flash.old) (SameBelow (F.pages flash.old)) }
    ensures moments { F.tells → (loose : List ℕ) → Always (F.may_leave flash.old) (Leaves (stored_page (F.pages flash.old)) loose)
        → LeavesOnly F.Flash flash.old flash.new
        (LeavesPages (stored_page (F.pages flash.old)) loose (current pool.now (F.pages flash.old))) }
    ensures list { F.tells → OnOk result (StandsForList (current pool.now (F.pages flash.old)) (F.pages flash.new)) }
    ensures only { F.tells → OnOk result (Only (F.pages flash.new) (F.may_leave flash.new)) }
    ensures shut { F.tells → OnOk result (is_open (F.pages flash.new) ≡ false) }
    ensures cause { HasCause (F.faults flash.old) (F.faults flash.new) result }
{
    record(flash, pool)?;
    // Only now, when the copies stand on the device, may the gate open.
    set_gate(flash, OPEN)?;
    put_in_place(flash, pool)?;
    // Only now, when the pages stand in place, may it close.
    set_gate(flash, 0)
}

/// Ends a commit that was cut off while the gate was open.
pub fn settle_pages<F: Flash>(flash: &mut F, descriptor: &Page) -> Result<(), FlashFailed>
    requires valid { IsValid descriptor.now.bytes }
    requires gate { F.tells → is_open (F.pages flash.old) ≡ true }
    requires named { F.tells → slice_get (F.pages flash.old) DESCRIPTOR ≡ Some descriptor.now }
    requires calm { F.tells → Always (F.may_leave flash.old) (SameBelow (F.pages flash.old)) }
    ensures moments { F.tells → (loose : List ℕ) → Always (F.may_leave flash.old) (Leaves (stored_page (F.pages flash.old)) loose)
        → LeavesOnly F.Flash flash.old flash.new (Leaves (stored_page (F.pages flash.old)) loose) }
    ensures list { F.tells → OnOk result (StandsForList (stored_page (F.pages flash.old)) (F.pages flash.new)) }
    ensures only { F.tells → OnOk result (Only (F.pages flash.new) (F.may_leave flash.new)) }
    ensures shut { F.tells → OnOk result (is_open (F.pages flash.new) ≡ false) }
    ensures cause { HasCause (F.faults flash.old) (F.faults flash.new) result }
{
    copy_in_place(flash, descriptor)?;
    set_gate(flash, 0)
}
