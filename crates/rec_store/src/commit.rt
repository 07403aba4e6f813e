//! A commit of changes.

ghost use Rattle.std.specs.Prelude.{◌≡◌, [], false, true, IsOk, OnErr, OnOk};
ghost use Rattle.rec_store.specs.Prelude.{AreSpare, HasCause, IsCard, KeepsRegistry, LeavesOnly, Registry, ReopensEither, Represents, load_page};

use crate::records::Records;
use flash_core::{Flash, FlashFailed};

impl<F: Flash> Records<F> {
    /// Commits all changes. With none it makes no call on the device. After an `Err` the device is mounted again; until then
    /// only `tables` and `into_flash` may be called.
    pub fn commit(&mut self) -> Result<(), FlashFailed>
        requires live { self.old.live ≡ true }
        requires card { F.tells → IsCard (load_page (F.pages self.old.flash)) self.old.tables }
        // Power lost at any moment leaves the registry from before, or the one that the tables say.
        ensures moments { F.tells → (before after : Registry) → KeepsRegistry F.Flash self.old.flash before
            → Represents (load_page (F.pages self.old.flash)) self.old.tables after
            → LeavesOnly F.Flash self.old.flash self.new.flash (ReopensEither before after) }
        ensures keeps { F.tells → (before after : Registry) → KeepsRegistry F.Flash self.old.flash before
            → Represents (load_page (F.pages self.old.flash)) self.old.tables after
            → OnOk result (KeepsRegistry F.Flash self.new.flash after) }
        ensures load { F.tells → OnOk result (load_page (F.pages self.new.flash) ≡ load_page (F.pages self.old.flash)) }
        // What the tables leave free, the device has to spare.
        ensures spare { F.tells → OnOk result (AreSpare F.Flash self.new.flash self.new.tables) }
        ensures tables { self.new.tables ≡ self.old.tables }
        ensures idle { self.old.staged ≡ [] → IsOk result × (self.new ≡ self.old) }
        ensures ok { OnOk result ((self.new.staged ≡ []) × (self.new.live ≡ true)) }
        ensures err { OnErr result (self.new.live ≡ false) }
        ensures cause { HasCause (F.faults self.old.flash) (F.faults self.new.flash) result }
    {
        self.store.commit()
    }
}
