//! Power on: the tables are read from a device.

ghost use Rattle.std.specs.Prelude.{◌≡◌, ◌≤◌, ℕ, List, [], true, All, IfOk, IfErr, OnOk};
ghost use Rattle.rec_store.specs.Prelude.{Always, AreRoomy, AreSpare, CardFails, HasPages, HasSlots, HasThreeBytes, HasValidJournal, HoldsTables, IsAtRest, IsCard, IsInLayout, IsInOrder, IsRead, IsUnwritten, KeepsRegistry, LeavesOnly, Only, OpenFails, Registry, Reopens, ReopensAsOne, Represents, SlotsFail, load_page, opened_cause, store_page, things_in};
ghost use Rattle.card_types.specs.declared.tables.Tables.{Tables as TablesOf};
ghost use Rattle.rec_store.specs.declared.store_layout.Layout.{Layout as LayoutOf};
ghost use Rattle.rec_store.specs.declared.store_layout.Layout.TheVariants.{Third};

use crate::open::{OpenCause, OpenError};
use crate::raise::raise;
use crate::records::Records;
use crate::slots::{read_slots, read_store};
use crate::store_layout::{Layout, fits_layout};
use crate::superblock::read_superblock;
use card_check::is_card;
use card_types::Tables;
use flash_core::Flash;
use page_journal::{MountCause, PageStore};
use std::alloc::Global;

impl<F: Flash> Records<F> {
    /// Reads the tables of a card from a device, ends a commit that was cut off, and brings a card in layout 02 into layout 03.
    /// `OpenCause::Memory` is want of memory for the tables and the staged pages, before any call on the device.
    pub fn mount(alloc: Global, flash: F) -> Result<Records<F>, OpenError<F>>
        ensures ready { IfOk result (λ r. (r.staged ≡ []) × (r.live ≡ true)) }
        ensures card { IfOk result (λ r. (page : ℕ → List ℕ) → HasPages page → IsCard page r.tables) }
        ensures in_order { IfOk result (λ r. IsInOrder r.tables) }
        // The tables say the registry that the pages reopened as, and power lost leaves it from then on.
        ensures says { F.tells → IfOk result (λ r. (registry : Registry) × Reopens (F.pages flash) registry
            × Represents (load_page (F.pages r.flash)) r.tables registry × KeepsRegistry F.Flash r.flash registry) }
        ensures load { F.tells → IfOk result (λ r. load_page (F.pages r.flash) ≡ load_page (F.pages flash)) }
        // What the tables leave free, the device has to spare.
        ensures spare { F.tells → IfOk result (λ r. AreSpare F.Flash r.flash r.tables) }
        // Power lost from then on leaves layout 03.
        ensures raised { F.tells → IfOk result (λ r. Always (F.may_leave r.flash) (IsInLayout Third)) }
        // Power lost at any moment leaves no registry that it could not leave before.
        ensures moments { F.tells → (registries : List Registry) → Always (F.may_leave flash) (ReopensAsOne registries)
            → IfOk result (λ r. LeavesOnly F.Flash flash r.flash (ReopensAsOne registries)) }
        ensures idle { F.tells → IsAtRest (F.pages flash) → IfOk result (λ r. IsUnwritten F.Flash flash r.flash) }
        ensures later { IfOk result (λ r. F.faults flash ≤ F.faults r.flash) }
        ensures err_later { IfErr result (λ e. F.faults flash ≤ F.faults e.flash) }
        ensures err_moments { F.tells → (registries : List Registry) → Always (F.may_leave flash) (ReopensAsOne registries)
            → IfErr result (λ e. LeavesOnly F.Flash flash e.flash (ReopensAsOne registries)) }
        ensures err_idle { F.tells → IsAtRest (F.pages flash) → IfErr result (λ e. IsUnwritten F.Flash flash e.flash) }
        ensures err { IfErr result (λ e. OpenFails F.Flash flash e.cause e.flash) }
    {
        // Each slot of these tables is read over.
        let tables = match Tables::factory(alloc) {
            Ok(tables) => tables,
            Err(refused) => {
                return Err(OpenError {
                    cause: OpenCause::Memory(refused),
                    flash,
                });
            }
        };
        match PageStore::mount(alloc, flash) {
            Ok(store) => open(tables, store),
            Err(refused) => Err(OpenError {
                cause: cause_of(refused.cause),
                flash: refused.flash,
            }),
        }
    }
}

fn cause_of(cause: MountCause) -> OpenCause
    ensures { result ≡ opened_cause cause }
{
    match cause {
        MountCause::Memory(refused) => OpenCause::Memory(refused),
        MountCause::FlashFailed => OpenCause::FlashFailed,
        MountCause::BadJournal => OpenCause::NotACard,
    }
}

// Reads the tables from a store, ends a commit that was cut off, and raises a card in layout 02.
fn open<F: Flash>(mut tables: Tables, mut store: PageStore<F>) -> Result<Records<F>, OpenError<F>>
    requires slots { HasSlots tables }
    requires live { store.live ≡ true }
    requires none { store.staged ≡ [] }
    requires sound { F.tells → HasValidJournal (F.pages store.flash) }
    requires only { F.tells → Only (F.pages store.flash) (F.may_leave store.flash) }
    ensures ready { IfOk result (λ r. (r.staged ≡ []) × (r.live ≡ true)) }
    ensures card { IfOk result (λ r. (page : ℕ → List ℕ) → HasPages page → IsCard page r.tables) }
    ensures says { F.tells → IfOk result (λ r. (registry : Registry) × Reopens (F.pages store.flash) registry
        × Represents (load_page (F.pages r.flash)) r.tables registry × KeepsRegistry F.Flash r.flash registry) }
    ensures load { F.tells → IfOk result (λ r. load_page (F.pages r.flash) ≡ load_page (F.pages store.flash)) }
    ensures spare { F.tells → IfOk result (λ r. AreSpare F.Flash r.flash r.tables) }
    ensures raised { F.tells → IfOk result (λ r. Always (F.may_leave r.flash) (IsInLayout Third)) }
    ensures moments { F.tells → (registry : Registry) → Reopens (F.pages store.flash) registry
        → IfOk result (λ r. LeavesOnly F.Flash store.flash r.flash (λ outcome. Reopens outcome registry)) }
    ensures idle { F.tells → store.settled ≡ true → IsInLayout Third (F.pages store.flash)
        → IfOk result (λ r. IsUnwritten F.Flash store.flash r.flash) }
    ensures later { IfOk result (λ r. F.faults store.flash ≤ F.faults r.flash) }
    ensures err_later { IfErr result (λ e. F.faults store.flash ≤ F.faults e.flash) }
    ensures err_moments { F.tells → (registry : Registry) → Reopens (F.pages store.flash) registry
        → IfErr result (λ e. LeavesOnly F.Flash store.flash e.flash (λ outcome. Reopens outcome registry)) }
    ensures err_idle { F.tells → store.settled ≡ true → IsInLayout Third (F.pages store.flash)
        → IfErr result (λ e. IsUnwritten F.Flash store.flash e.flash) }
    ensures err { IfErr result (λ e. CardFails F.Flash store.flash e.cause e.flash) }
{
    match read_card(&mut tables, &mut store) {
        Ok(()) => Ok(Records { tables, store }),
        Err(cause) => Err(OpenError {
            cause,
            flash: store.into_flash(),
        }),
    }
}

// Reads the tables. Where they are a card's, it ends a commit that was cut off, and raises one in layout 02.
fn read_card<F: Flash>(tables: &mut Tables, store: &mut PageStore<F>) -> Result<(), OpenCause>
    requires slots { HasSlots tables.old }
    requires live { store.old.live ≡ true }
    requires none { store.old.staged ≡ [] }
    requires sound { F.tells → HasValidJournal (F.pages store.old.flash) }
    requires only { F.tells → Only (F.pages store.old.flash) (F.may_leave store.old.flash) }
    ensures ready { OnOk result ((store.new.staged ≡ []) × (store.new.settled ≡ true) × (store.new.live ≡ true)) }
    ensures card { OnOk result ((page : ℕ → List ℕ) → HasPages page → IsCard page tables.new) }
    ensures roomy { OnOk result (AreRoomy tables.new) }
    ensures held { F.tells → OnOk result (HoldsTables Third (store_page (F.pages store.new.flash)) tables.new) }
    ensures says { F.tells → OnOk result ((registry : Registry) × Reopens (F.pages store.old.flash) registry
        × Represents (load_page (F.pages store.new.flash)) tables.new registry × KeepsRegistry F.Flash store.new.flash registry) }
    ensures load { F.tells → OnOk result (load_page (F.pages store.new.flash) ≡ load_page (F.pages store.old.flash)) }
    ensures raised { F.tells → OnOk result (Always (F.may_leave store.new.flash) (IsInLayout Third)) }
    ensures moments { F.tells → (registry : Registry) → Reopens (F.pages store.old.flash) registry
        → LeavesOnly F.Flash store.old.flash store.new.flash (λ outcome. Reopens outcome registry) }
    ensures idle { F.tells → store.old.settled ≡ true → IsInLayout Third (F.pages store.old.flash)
        → IsUnwritten F.Flash store.old.flash store.new.flash }
    ensures later { F.faults store.old.flash ≤ F.faults store.new.flash }
    ensures err { IfErr result (λ cause. CardFails F.Flash store.old.flash cause store.new.flash) }
{
    let layout = read_tables(tables, store)?;
    if !is_card(tables) {
        return Err(OpenCause::NotACard);
    }
    store.settle()?;
    raise(layout, tables.life, store)?;
    Ok(())
}

// Reads the superblock and all slots, and answers the layout.
fn read_tables<F: Flash>(tables: &mut Tables, store: &mut PageStore<F>) -> Result<Layout, OpenCause>
    requires slots { HasSlots tables.old }
    requires live { store.old.live ≡ true }
    requires none { store.old.staged ≡ [] }
    ensures held { F.tells → IfOk result (λ layout. HoldsTables layout (store_page (F.pages store.old.flash)) tables.new) }
    ensures roomy { OnOk result (AreRoomy tables.new) }
    ensures entries { OnOk result (All HasThreeBytes (things_in tables.new.entries.items)) }
    ensures read { IsRead F.Flash store.old store.new }
    ensures err { IfErr result (SlotsFail F.tells (F.faults store.old.flash) (F.faults store.new.flash)
        ((layout : LayoutOf) (held : TablesOf) → HoldsTables layout (store_page (F.pages store.old.flash)) held → ⊥)) }
{
    let (layout, life) = read_superblock(&read_store(store, 0)?.bytes)?;
    tables.life = life;
    read_slots(store, &mut tables.entries)?;
    read_slots(store, &mut tables.files)?;
    read_slots(store, &mut tables.keys)?;
    read_slots(store, &mut tables.objects)?;
    if !fits_layout(layout, &tables.keys) {
        return Err(OpenCause::NotACard);
    }
    Ok(layout)
}
