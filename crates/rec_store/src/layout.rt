//! A card laid out on a device.

ghost use Rattle.std.specs.Prelude.{◌≡◌, ◌<◌, ◌≤◌, ℕ, All, OnOk, slice_get};
ghost use Rattle.rec_store.specs.Prelude.{HasCause, HasFirst, HaveRoom, HoldsTables, IsCard, IsInLoadPages, IsRoomyKey, KeepsRegistry, Registry, Represents, load_page, store_in, things_in};
ghost use Rattle.card_types.specs.declared.tables.Tables.{Tables};
ghost use Rattle.page_journal.specs.declared.pages.TheConstants.{GATE, STORE_PAGES};
ghost use Rattle.rec_store.specs.declared.store_layout.Layout.TheVariants.{Third};

use crate::slots::write_slots;
use crate::superblock::superblock;
use card_types::{CardLife, ENTRIES, Entry, FILES, KEYS, KeyRec, LoadFile, OBJECTS, Object};
use flash_core::{Flash, FlashFailed, Page};
use page_journal::GATE;

/// Lays out a card on a device: its store pages, and a closed journal. The slots past the end of a list are free. Nothing is
/// said of the device where power is lost before the call's end. The superblock is blank from the first write to the last, so
/// what is stopped between two writes leaves no card.
pub fn lay_out<F: Flash>(
    flash: &mut F,
    life: CardLife,
    entries: &[Option<Entry>],
    files: &[Option<LoadFile>],
    keys: &[Option<KeyRec>],
    objects: &[Option<Object>],
) -> Result<(), FlashFailed>
    requires room { HaveRoom entries.now files.now keys.now objects.now }
    requires roomy_files { All IsInLoadPages (things_in files.now) }
    requires roomy_keys { All IsRoomyKey (things_in keys.now) }
    // Power lost from then on leaves each registry that tables with these things in their first slots say.
    ensures keeps { F.tells → (tables : Tables) (registry : Registry) → HasFirst tables life entries.now files.now keys.now objects.now
        → IsCard (load_page (F.pages flash.new)) tables → Represents (load_page (F.pages flash.new)) tables registry
        → OnOk result (KeepsRegistry F.Flash flash.new registry) }
    ensures others { F.tells → (page : ℕ) → GATE < page → slice_get (F.pages flash.new) page ≡ slice_get (F.pages flash.old) page }
    ensures cause { HasCause (F.faults flash.old) (F.faults flash.new) result }
{
    let blank = Page { bytes: [0; 256] };
    flash.write(0, &blank)?;
    flash.write(GATE, &blank)?;
    write_tables(flash, life, entries, files, keys, objects)?;
    flash.sync()
}

// Writes all slots, and then the superblock.
fn write_tables<F: Flash>(
    flash: &mut F,
    life: CardLife,
    entries: &[Option<Entry>],
    files: &[Option<LoadFile>],
    keys: &[Option<KeyRec>],
    objects: &[Option<Object>],
) -> Result<(), FlashFailed>
    requires roomy_files { All IsInLoadPages (things_in files.now) }
    requires roomy_keys { All IsRoomyKey (things_in keys.now) }
    ensures held { F.tells → (tables : Tables) → HasFirst tables life entries.now files.now keys.now objects.now
        → OnOk result (HoldsTables Third (store_in (slice_get (F.pages flash.new))) tables) }
    ensures others { F.tells → (page : ℕ) → STORE_PAGES ≤ page → slice_get (F.pages flash.new) page ≡ slice_get (F.pages flash.old) page }
    ensures cause { HasCause (F.faults flash.old) (F.faults flash.new) result }
{
    write_slots(flash, entries, ENTRIES)?;
    write_slots(flash, files, FILES)?;
    write_slots(flash, keys, KEYS)?;
    write_slots(flash, objects, OBJECTS)?;
    let first = Page {
        bytes: superblock(life),
    };
    flash.write(0, &first)
}
