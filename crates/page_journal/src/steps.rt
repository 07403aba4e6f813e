//! The steps of a commit on the device, each of which ends with a sync.

ghost use Rattle.std.specs.Prelude.{◌≡◌, ◌+◌, ◌<◌, ◌≤◌, length, Some, slice_get, slice_index, OnOk};
ghost use Rattle.faults.specs.Faults.{HasCause};
ghost use Rattle.flash_core.specs.declared.page.Page.{Page as PageOf};
ghost use Rattle.flash_core.specs.declared.page.TheConstants.{PAGES};
ghost use Rattle.flash_core.specs.Device.{Only};
ghost use Rattle.frame_pool.specs.declared.pool.TheConstants.{FRAMES};
ghost use Rattle.page_journal.specs.Journal.{IsValid};
ghost use Rattle.page_journal.specs.Phases.{IsCopy, IsRecord, IsStaged, IsInDescriptor, CopiesOf, Names, HomesOf, CopiesHome};
ghost use Rattle.page_journal.specs.Store.{AreStorePages};
ghost use Rattle.page_journal.specs.Touches.{Touches};
ghost use Rattle.page_journal.specs.declared.pages.TheConstants.{DESCRIPTOR, GATE};

use crate::descriptor::describe;
use crate::pages::{COPIES, DESCRIPTOR, GATE};
use flash_core::{Flash, FlashFailed, Page};
use frame_pool::FramePool;

/// The first byte of an open gate.
pub const OPEN: u8 = 0xA5;

/// Writes one page, and syncs.
pub fn write_synced<F: Flash>(flash: &mut F, page: u16, from: &Page) -> Result<(), FlashFailed>
    requires { page < PAGES }
    ensures touches { F.tells → Touches F.Flash (λ p. p ≡ page) flash.old flash.new }
    ensures written { F.tells → OnOk result (slice_get (F.pages flash.new) page ≡ Some from.now) }
    ensures only { F.tells → OnOk result (Only (F.pages flash.new) (F.may_leave flash.new)) }
    ensures cause { HasCause (F.faults flash.old) (F.faults flash.new) result }
{
    flash.write(page, from)?;
    flash.sync()
}

// Writes the copies of the staged pages.
fn write_copies<F: Flash>(flash: &mut F, pool: &FramePool) -> Result<(), FlashFailed>
    requires { length pool.now ≤ FRAMES }
    ensures touches { F.tells → Touches F.Flash IsCopy flash.old flash.new }
    ensures copies { F.tells → OnOk result (CopiesOf (length pool.now) pool.now (F.pages flash.new)) }
    ensures cause { HasCause (F.faults flash.old) (F.faults flash.new) result }
{
    for index in 0..pool.len() {
        let (_, page) = pool.at(index);
        flash.write(COPIES + index as u16, page)?;
    }
    Ok(())
}

/// Writes the copies of the staged pages and the descriptor that names them, and syncs.
pub fn record<F: Flash>(flash: &mut F, pool: &FramePool) -> Result<(), FlashFailed>
    requires room { length pool.now ≤ FRAMES }
    requires homes { AreStorePages pool.now }
    ensures touches { F.tells → Touches F.Flash IsRecord flash.old flash.new }
    ensures copies { F.tells → OnOk result (CopiesOf (length pool.now) pool.now (F.pages flash.new)) }
    ensures names { F.tells → OnOk result ((page : PageOf) × (slice_get (F.pages flash.new) DESCRIPTOR ≡ Some page) × Names pool.now page.bytes) }
    ensures only { F.tells → OnOk result (Only (F.pages flash.new) (F.may_leave flash.new)) }
    ensures cause { HasCause (F.faults flash.old) (F.faults flash.new) result }
{
    write_copies(flash, pool)?;
    write_synced(flash, DESCRIPTOR, &describe(pool))
}

/// Writes the gate, and syncs.
pub fn set_gate<F: Flash>(flash: &mut F, byte: u8) -> Result<(), FlashFailed>
    ensures touches { F.tells → Touches F.Flash (λ p. p ≡ GATE) flash.old flash.new }
    ensures written { F.tells → OnOk result ((page : PageOf) × (slice_get (F.pages flash.new) GATE ≡ Some page) × (slice_index page.bytes 0 ≡ byte)) }
    ensures only { F.tells → OnOk result (Only (F.pages flash.new) (F.may_leave flash.new)) }
    ensures cause { HasCause (F.faults flash.old) (F.faults flash.new) result }
{
    write_synced(flash, GATE, &Page { bytes: [byte; 256] })
}

/// Writes the staged pages in place, and syncs.
pub fn put_in_place<F: Flash>(flash: &mut F, pool: &FramePool) -> Result<(), FlashFailed>
    requires homes { AreStorePages pool.now }
    ensures touches { F.tells → Touches F.Flash (IsStaged pool.now) flash.old flash.new }
    ensures homes { F.tells → OnOk result (HomesOf (length pool.now) pool.now (F.pages flash.new)) }
    ensures only { F.tells → OnOk result (Only (F.pages flash.new) (F.may_leave flash.new)) }
    ensures cause { HasCause (F.faults flash.old) (F.faults flash.new) result }
{
    for index in 0..pool.len() {
        let (home, page) = pool.at(index);
        flash.write(home, page)?;
    }
    flash.sync()
}

/// Writes the copies that a descriptor names in place, and syncs.
pub fn copy_in_place<F: Flash>(flash: &mut F, descriptor: &Page) -> Result<(), FlashFailed>
    requires { IsValid descriptor.now.bytes }
    ensures touches { F.tells → Touches F.Flash (IsInDescriptor descriptor.now.bytes) flash.old flash.new }
    ensures homes { F.tells → OnOk result (CopiesHome (slice_index descriptor.now.bytes 0) descriptor.now.bytes (F.pages flash.old) (F.pages flash.new)) }
    ensures only { F.tells → OnOk result (Only (F.pages flash.new) (F.may_leave flash.new)) }
    ensures cause { HasCause (F.faults flash.old) (F.faults flash.new) result }
{
    let mut page = Page { bytes: [0; 256] };
    for index in 0..descriptor.bytes[0] as u16 {
        flash.read(COPIES + index, &mut page)?;
        flash.write(u16::from(descriptor.bytes[index as usize + 1]), &page)?;
    }
    flash.sync()
}
