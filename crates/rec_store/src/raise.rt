//! A card of an earlier layout is brought into the present one.

ghost use Rattle.std.specs.Prelude.{◌≡◌, [], true, IsOk, OnOk};
ghost use Rattle.rec_store.specs.Prelude.{Always, HasCause, HasValidJournal, HoldsTables, IsInLayout, IsSuperblock, KeepsRegistry, LeavesOnly, Only, Registry, Reopens, load_page, store_page};
ghost use Rattle.card_types.specs.declared.tables.Tables.{Tables};
ghost use Rattle.rec_store.specs.declared.store_layout.Layout.TheVariants.{Third};

use crate::store_layout::Layout;
use crate::superblock::superblock;
use card_types::CardLife;
use flash_core::{Flash, FlashFailed, Page};
use page_journal::PageStore;

/// Commits the superblock in layout 03 where a card is in layout 02. Where it is in layout 03, no call is made on the device.
pub fn raise<F: Flash>(
    layout: Layout,
    life: CardLife,
    store: &mut PageStore<F>,
) -> Result<(), FlashFailed>
    requires live { store.old.live ≡ true }
    requires settled { store.old.settled ≡ true }
    requires none { store.old.staged ≡ [] }
    requires sound { F.tells → HasValidJournal (F.pages store.old.flash) }
    requires only { F.tells → Only (F.pages store.old.flash) (F.may_leave store.old.flash) }
    requires superblock { F.tells → IsSuperblock (store_page (F.pages store.old.flash) 0) layout life }
    ensures ready { OnOk result ((store.new.staged ≡ []) × (store.new.settled ≡ true) × (store.new.live ≡ true)) }
    ensures held { F.tells → (tables : Tables) → HoldsTables layout (store_page (F.pages store.old.flash)) tables
        → OnOk result (HoldsTables Third (store_page (F.pages store.new.flash)) tables) }
    ensures load { F.tells → OnOk result (load_page (F.pages store.new.flash) ≡ load_page (F.pages store.old.flash)) }
    ensures raised { F.tells → OnOk result (Always (F.may_leave store.new.flash) (IsInLayout Third)) }
    // The registry is the same at every moment.
    ensures keeps { F.tells → (registry : Registry) → Reopens (F.pages store.old.flash) registry
        → OnOk result (KeepsRegistry F.Flash store.new.flash registry) }
    ensures moments { F.tells → (registry : Registry) → Reopens (F.pages store.old.flash) registry
        → LeavesOnly F.Flash store.old.flash store.new.flash (λ outcome. Reopens outcome registry) }
    ensures idle { layout ≡ Third → IsOk result × (store.new ≡ store.old) }
    ensures cause { HasCause (F.faults store.old.flash) (F.faults store.new.flash) result }
{
    if layout == Layout::Third {
        return Ok(());
    }
    store.stage(
        0,
        &Page {
            bytes: superblock(life),
        },
    );
    store.commit()
}
