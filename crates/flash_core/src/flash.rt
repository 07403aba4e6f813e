//! What a flash device is.

ghost use Rattle.std.specs.Prelude.{◌≡◌, ◌<◌, ◌≤◌, List, ℕ, Some, slice_get, OnOk};
ghost use Rattle.faults.specs.Faults.{HasCause};
ghost use Rattle.flash_core.specs.declared.page.TheConstants.{PAGES};
ghost use Rattle.flash_core.specs.declared.page.Page.{Page as PageOf};
ghost use Rattle.flash_core.specs.Device.{SameBut, NoneNew, AnyBytesIn, Only, Elapses};

use crate::page::Page;

/// A call was refused.
#[derive(Clone, Copy, Debug, PartialEq, Eq)]
pub struct FlashFailed;

/// A device of `PAGES` pages that counts its faults. Its content may be unknown.
pub trait Flash {
    // A fact where the content is known, and `⊥` where it is not.
    ghost tells: { Type 0 };

    // The pages as a read gives them.
    ghost pages: { Self → List PageOf };

    // A clock that never goes back.
    ghost moment: { Self → ℕ };

    // What power lost now may leave.
    ghost may_leave: { Self → List PageOf → Type 0 };

    // What power lost at some moment since that one might have left, within a call or between two.
    ghost left_since: { Self → ℕ → List PageOf → Type 0 };

    // How many calls have failed.
    ghost faults: { Self → ℕ };

    /// Reads a page.
    fn read(&mut self, page: u16, into: &mut Page) -> Result<(), FlashFailed>
        requires range { page < PAGES }
        ensures written { tells → OnOk result (slice_get (pages self.old) page ≡ Some into.new) }
        ensures torn { tells → pages self.new ≡ pages self.old }
        ensures loss { tells → NoneNew (may_leave self.old) (may_leave self.new) }
        ensures time { tells → Elapses (moment self.old) (moment self.new) (left_since self.old) (left_since self.new) (may_leave self.new) }
        ensures cause { HasCause (faults self.old) (faults self.new) result };

    /// Writes a page. After an `Err` it may hold any bytes.
    fn write(&mut self, page: u16, from: &Page) -> Result<(), FlashFailed>
        requires range { page < PAGES }
        ensures written { tells → OnOk result (slice_get (pages self.new) page ≡ Some from.now) }
        ensures torn { tells → SameBut page (pages self.old) (pages self.new) }
        ensures loss { tells → AnyBytesIn page (may_leave self.old) (may_leave self.new) }
        ensures time { tells → Elapses (moment self.old) (moment self.new) (left_since self.old) (left_since self.new) (may_leave self.new) }
        ensures cause { HasCause (faults self.old) (faults self.new) result };

    /// After it power lost leaves what a read gives. After an `Err` every write that was pending still is.
    fn sync(&mut self) -> Result<(), FlashFailed>
        ensures written { tells → OnOk result (Only (pages self.old) (may_leave self.new)) }
        ensures torn { tells → pages self.new ≡ pages self.old }
        ensures loss { tells → NoneNew (may_leave self.old) (may_leave self.new) }
        ensures time { tells → Elapses (moment self.old) (moment self.new) (left_since self.old) (left_since self.new) (may_leave self.new) }
        ensures cause { HasCause (faults self.old) (faults self.new) result };

    // The pages as read are what power lost now may leave.
    ghost as_read: { (device : Self) → tells → may_leave device (pages device) };

    // This moment is one of those since an earlier one.
    ghost counts_now: { (device : Self) (t : ℕ) (outcome : List PageOf) → tells → t ≤ moment device → may_leave device outcome → left_since device t outcome };

    // Since this moment there is no other.
    ghost only_now: { (device : Self) (outcome : List PageOf) → tells → left_since device (moment device) outcome → may_leave device outcome };
}
