//! The store.

ghost use Rattle.std.specs.Prelude.{◌≡◌, ◌≢◌, ◌⊎◌, ◌<◌, ◌≤◌, ◌↔◌, ℕ, List, [], ◌∷◌, length, Some, None, Ok, true, false, slice_get, is_none, IsOk, IsSome, IfSome, IfOk, IfErr, OnOk, OnErr, IsTrue};
ghost use Rattle.faults.specs.Faults.{HasCause};
ghost use Rattle.flash_core.specs.Device.{NoneNew, Only};
ghost use Rattle.frame_pool.specs.Staged.{staged_at, with_page};
ghost use Rattle.frame_pool.specs.declared.pool.TheConstants.{FRAMES};
ghost use Rattle.page_journal.specs.Journal.{HasValidJournal, IsValid, is_open, stored_page};
ghost use Rattle.page_journal.specs.Moments.{Always, LeavesPages, LeavesOnly, Leaves, current};
ghost use Rattle.page_journal.specs.Pages.{IsLoadPage, IsStorePage};
ghost use Rattle.page_journal.specs.Store.{StandsForList, HasJournal, CauseHolds, MountFails};

use crate::cause::{MountCause, MountError};
use crate::commit::{commit_pages, settle_pages};
use crate::descriptor::{is_valid, place_after};
use crate::pages::{DESCRIPTOR, GATE};
use crate::steps::OPEN;
use flash_core::{Flash, FlashFailed, Page};
use frame_pool::FramePool;
use std::alloc::Global;
use std::marker::Model;

/// Store pages 0 to 44 and load pages 96 to 607 of a device. Store pages are staged and committed together.
#[derive(Drop)]
pub struct PageStore<F: Flash> {
    flash: F,
    pool: FramePool,
    journal: Option<Page>,
    live: bool,
}

// Contracts see the device, the staged pages, whether the gate that was open at `mount` is closed, and whether no
// commit has failed.
impl<F: Flash> Model for PageStore<F> {
    ghost use Rattle.std.specs.Prelude.{◌≡◌, true, is_none, IfSome};
    ghost use Rattle.page_journal.specs.Journal.{IsValid};
    ghost use Rattle.page_journal.specs.Store.{Store, IsCalm, AreStorePages};

    ghost Value = { Store F };

    ghost view = { λ s. record { flash = s.flash; staged = s.pool; settled = is_none s.journal; live = s.live } };

    ghost invariant = { λ s. AreStorePages s.pool × IfSome s.journal (λ page. IsValid page.bytes) × (F.tells → s.live ≡ true → IsCalm (F.pages s.flash) (F.may_leave s.flash) s.journal) };
}

impl<F: Flash> PageStore<F> {
    /// Syncs the device and reads its journal. It writes nothing. `MountCause::Memory` is want of memory for the
    /// staged pages, before any call on the device.
    pub fn mount(alloc: Global, flash: F) -> Result<PageStore<F>, MountError<F>>
        ensures ready { IfOk result (λ s. (s.staged ≡ []) × (s.live ≡ true)) }
        ensures pages { F.tells → IfOk result (λ s. F.pages s.flash ≡ F.pages flash) }
        ensures settled { F.tells → IfOk result (λ s. IsTrue s.settled ↔ (is_open (F.pages flash) ≡ false)) }
        ensures sound { F.tells → IfOk result (λ s. HasValidJournal (F.pages flash)) }
        ensures only { F.tells → IfOk result (λ s. Only (F.pages flash) (F.may_leave s.flash)) }
        ensures moments { F.tells → IfOk result (λ s. LeavesOnly F.Flash flash s.flash (F.may_leave flash)) }
        ensures later { IfOk result (λ s. F.faults flash ≤ F.faults s.flash) }
        ensures err_later { IfErr result (λ e. F.faults flash ≤ F.faults e.flash) }
        ensures err_pages { F.tells → IfErr result (λ e. F.pages e.flash ≡ F.pages flash) }
        ensures err_moments { F.tells → IfErr result (λ e. LeavesOnly F.Flash flash e.flash (F.may_leave flash)) }
        ensures err { IfErr result (λ e. MountFails F.Flash flash e.cause e.flash) }
    {
        let pool = match FramePool::new(alloc) {
            Ok(pool) => pool,
            Err(refused) => {
                return Err(MountError {
                    cause: MountCause::Memory(refused),
                    flash,
                });
            }
        };
        let mut flash = flash;
        match read_journal(&mut flash) {
            Ok(journal) => Ok(PageStore {
                flash,
                pool,
                journal,
                live: true,
            }),
            Err(cause) => Err(MountError { cause, flash }),
        }
    }

    /// False where the gate was open at `mount` and `settle` has not answered `Ok` since.
    pub fn settled(&self) -> bool
        ensures { result ≡ self.now.settled }
    {
        self.journal.is_none()
    }

    /// How many pages are staged.
    pub fn staged(&self) -> usize
        ensures { result ≡ length self.now.staged }
    {
        self.pool.len()
    }

    /// The device.
    pub fn into_flash(self) -> F
        ensures { result ≡ self.flash }
    {
        self.flash
    }

    /// Ends a commit that was cut off: it writes the copies in place and closes the gate. On a settled store it
    /// makes no call on the device. After an `Err` the device is mounted again.
    pub fn settle(&mut self) -> Result<(), FlashFailed>
        requires live { self.old.live ≡ true }
        requires none { self.old.staged ≡ [] }
        // The committed pages are the same at every moment.
        ensures moments { F.tells → (loose : List ℕ) → Always (F.may_leave self.old.flash) (Leaves (stored_page (F.pages self.old.flash)) loose)
            → LeavesOnly F.Flash self.old.flash self.new.flash (Leaves (stored_page (F.pages self.old.flash)) loose) }
        ensures list { F.tells → OnOk result (StandsForList (stored_page (F.pages self.old.flash)) (F.pages self.new.flash)) }
        ensures only { F.tells → self.old.settled ≡ false → OnOk result (Only (F.pages self.new.flash) (F.may_leave self.new.flash)) }
        ensures idle { self.old.settled ≡ true → IsOk result × (self.new ≡ self.old) }
        ensures ok { OnOk result ((self.new.settled ≡ true) × (self.new.live ≡ true) × (self.new.staged ≡ [])) }
        ensures err { OnErr result ((self.new.settled ≡ self.old.settled) × (self.new.live ≡ false) × (self.new.staged ≡ [])) }
        ensures cause { HasCause (F.faults self.old.flash) (F.faults self.new.flash) result }
    {
        let descriptor = match self.journal {
            Some(descriptor) => descriptor,
            None => return Ok(()),
        };
        self.live = false;
        settle_pages(&mut self.flash, &descriptor)?;
        self.journal = None;
        self.live = true;
        Ok(())
    }

    /// Reads a page: the staged one, and otherwise that of the list, loose or not.
    pub fn read(&mut self, page: u16, into: &mut Page) -> Result<(), FlashFailed>
        requires { IsStorePage page ⊎ IsLoadPage page }
        ensures staged { IfSome (staged_at self.old.staged page) (λ x. IsOk result × (into.new ≡ x) × (self.new ≡ self.old)) }
        ensures list { F.tells → self.old.live ≡ true → OnOk result (current self.old.staged (F.pages self.old.flash) page ≡ Some into.new) }
        // After a commit that failed the pages that were not staged are read where they are.
        ensures home { F.tells → self.old.settled ≡ true → staged_at self.old.staged page ≡ None → OnOk result (slice_get (F.pages self.old.flash) page ≡ Some into.new) }
        ensures same { (self.new.staged ≡ self.old.staged) × (self.new.settled ≡ self.old.settled) × (self.new.live ≡ self.old.live) }
        ensures pages { F.tells → F.pages self.new.flash ≡ F.pages self.old.flash }
        ensures loss { F.tells → NoneNew (F.may_leave self.old.flash) (F.may_leave self.new.flash) }
        ensures moments { F.tells → LeavesOnly F.Flash self.old.flash self.new.flash (F.may_leave self.old.flash) }
        ensures cause { HasCause (F.faults self.old.flash) (F.faults self.new.flash) result }
    {
        if let Some(staged) = self.pool.get(page) {
            *into = *staged;
            return Ok(());
        }
        let place = place_after(&self.journal, page);
        self.flash.read(place, into)
    }

    /// Stages a store page. It makes no call on the device.
    pub fn stage(&mut self, page: u16, from: &Page)
        requires live { self.old.live ≡ true }
        requires settled { self.old.settled ≡ true }
        requires range { IsStorePage page }
        requires room { IsSome (staged_at self.old.staged page) ⊎ (length self.old.staged < FRAMES) }
        ensures { self.new ≡ record self.old { staged = with_page self.old.staged page from.now } }
    {
        *self.pool.stage(page) = *from;
    }

    /// Writes a load page, which is loose from then on: until a commit of staged pages power lost may leave any
    /// bytes in it.
    pub fn write_free(&mut self, page: u16, from: &Page) -> Result<(), FlashFailed>
        requires live { self.old.live ≡ true }
        requires settled { self.old.settled ≡ true }
        requires range { IsLoadPage page }
        ensures written { F.tells → OnOk result (stored_page (F.pages self.new.flash) page ≡ Some from.now) }
        ensures others { F.tells → (other : ℕ) → other ≢ page → stored_page (F.pages self.new.flash) other ≡ stored_page (F.pages self.old.flash) other }
        ensures moments { F.tells → (loose : List ℕ) → Always (F.may_leave self.old.flash) (Leaves (stored_page (F.pages self.old.flash)) loose)
            → LeavesOnly F.Flash self.old.flash self.new.flash (Leaves (stored_page (F.pages self.old.flash)) (page ∷ loose)) }
        ensures same { (self.new.staged ≡ self.old.staged) × (self.new.settled ≡ true) × (self.new.live ≡ true) }
        ensures cause { HasCause (F.faults self.old.flash) (F.faults self.new.flash) result }
    {
        self.flash.write(page, from)
    }

    /// Commits the staged pages, and with them all load pages written so far. With nothing staged it makes no call
    /// on the device. After an `Err` the device is mounted again; until then only `read`, `staged` and
    /// `into_flash` may be called.
    pub fn commit(&mut self) -> Result<(), FlashFailed>
        requires live { self.old.live ≡ true }
        requires settled { self.old.settled ≡ true }
        // At every moment power lost leaves the committed pages from before or those after.
        ensures moments { F.tells → (loose : List ℕ) → Always (F.may_leave self.old.flash) (Leaves (stored_page (F.pages self.old.flash)) loose)
            → LeavesOnly F.Flash self.old.flash self.new.flash
            (LeavesPages (stored_page (F.pages self.old.flash)) loose (current self.old.staged (F.pages self.old.flash))) }
        ensures list { F.tells → OnOk result (StandsForList (current self.old.staged (F.pages self.old.flash)) (F.pages self.new.flash)) }
        ensures only { F.tells → 0 < length self.old.staged → OnOk result (Only (F.pages self.new.flash) (F.may_leave self.new.flash)) }
        ensures idle { self.old.staged ≡ [] → IsOk result × (self.new ≡ self.old) }
        ensures ok { OnOk result ((self.new.staged ≡ []) × (self.new.settled ≡ true) × (self.new.live ≡ true)) }
        ensures err { OnErr result ((self.new.staged ≡ self.old.staged) × (self.new.settled ≡ true) × (self.new.live ≡ false)) }
        ensures cause { HasCause (F.faults self.old.flash) (F.faults self.new.flash) result }
    {
        if self.pool.len() == 0 {
            return Ok(());
        }
        self.live = false;
        commit_pages(&mut self.flash, &self.pool)?;
        self.pool.clear();
        self.live = true;
        Ok(())
    }
}

// Syncs a device, and reads the descriptor where the gate is open.
fn read_journal<F: Flash>(flash: &mut F) -> Result<Option<Page>, MountCause>
    ensures pages { F.tells → F.pages flash.new ≡ F.pages flash.old }
    ensures moments { F.tells → LeavesOnly F.Flash flash.old flash.new (F.may_leave flash.old) }
    ensures only { F.tells → OnOk result (Only (F.pages flash.new) (F.may_leave flash.new)) }
    ensures stands { F.tells → IfOk result (HasJournal (F.pages flash.new)) }
    ensures valid { IfOk result (λ journal. IfSome journal (λ page. IsValid page.bytes)) }
    ensures later { F.faults flash.old ≤ F.faults flash.new }
    ensures err { IfErr result (CauseHolds F.tells (F.faults flash.old) (F.faults flash.new) (F.pages flash.old)) }
{
    flash.sync()?;
    let mut page = Page { bytes: [0; 256] };
    flash.read(GATE, &mut page)?;
    if page.bytes[0] != OPEN {
        return Ok(None);
    }
    flash.read(DESCRIPTOR, &mut page)?;
    if !is_valid(&page.bytes) {
        return Err(MountCause::BadJournal);
    }
    Ok(Some(page))
}
