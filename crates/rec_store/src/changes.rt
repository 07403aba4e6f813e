//! Changes of the tables, which are staged.

ghost use Rattle.std.specs.Prelude.{◌≡◌, ◌<◌, true, IfSome};
ghost use Rattle.rec_store.specs.Prelude.{HasFrame, IsInLoadPages, IsRoomyKey, SetsEntry, SetsFile, SetsKey, SetsObject, entry_page, file_page, key_page, object_page, with_staged};
ghost use Rattle.card_types.specs.declared.limits.TheConstants.{ENTRIES, FILES, KEYS, OBJECTS};

use crate::records::Records;
use crate::slots::stage_slots;
use crate::superblock::superblock;
use card_types::{CardLife, Entry, KeyRec, LoadFile, Object};
use flash_core::{Flash, Page};

impl<F: Flash> Records<F> {
    /// Changes an entry slot. It makes no call on the device.
    pub fn set_entry(&mut self, slot: u8, value: Option<Entry>)
        requires live { self.old.live ≡ true }
        requires range { slot < ENTRIES }
        requires frame { HasFrame self.old.staged (entry_page slot) }
        ensures tables { SetsEntry self.old.tables self.new.tables slot value }
        ensures staged { self.new.staged ≡ with_staged self.old.staged (entry_page slot) }
        ensures same { (self.new.flash ≡ self.old.flash) × (self.new.live ≡ true) }
    {
        self.tables.entries[usize::from(slot)] = value;
        stage_slots(&mut self.store, &self.tables.entries, slot);
    }

    /// Changes a file slot. It makes no call on the device.
    pub fn set_file(&mut self, slot: u8, value: Option<LoadFile>)
        requires live { self.old.live ≡ true }
        requires range { slot < FILES }
        requires roomy { IfSome value IsInLoadPages }
        requires frame { HasFrame self.old.staged (file_page slot) }
        ensures tables { SetsFile self.old.tables self.new.tables slot value }
        ensures staged { self.new.staged ≡ with_staged self.old.staged (file_page slot) }
        ensures same { (self.new.flash ≡ self.old.flash) × (self.new.live ≡ true) }
    {
        self.tables.files[usize::from(slot)] = value;
        stage_slots(&mut self.store, &self.tables.files, slot);
    }

    /// Changes a key slot. It makes no call on the device.
    pub fn set_key(&mut self, slot: u8, value: Option<KeyRec>)
        requires live { self.old.live ≡ true }
        requires range { slot < KEYS }
        requires roomy { IfSome value IsRoomyKey }
        requires frame { HasFrame self.old.staged (key_page slot) }
        ensures tables { SetsKey self.old.tables self.new.tables slot value }
        ensures staged { self.new.staged ≡ with_staged self.old.staged (key_page slot) }
        ensures same { (self.new.flash ≡ self.old.flash) × (self.new.live ≡ true) }
    {
        self.tables.keys[usize::from(slot)] = value;
        stage_slots(&mut self.store, &self.tables.keys, slot);
    }

    /// Changes an object slot. It makes no call on the device.
    pub fn set_object(&mut self, slot: u8, value: Option<Object>)
        requires live { self.old.live ≡ true }
        requires range { slot < OBJECTS }
        requires frame { HasFrame self.old.staged (object_page slot) }
        ensures tables { SetsObject self.old.tables self.new.tables slot value }
        ensures staged { self.new.staged ≡ with_staged self.old.staged (object_page slot) }
        ensures same { (self.new.flash ≡ self.old.flash) × (self.new.live ≡ true) }
    {
        self.tables.objects[usize::from(slot)] = value;
        stage_slots(&mut self.store, &self.tables.objects, slot);
    }

    /// Changes the life cycle state of the card. It makes no call on the device.
    pub fn set_card_life(&mut self, life: CardLife)
        requires live { self.old.live ≡ true }
        requires frame { HasFrame self.old.staged 0 }
        ensures tables { self.new.tables ≡ record self.old.tables { life = life } }
        ensures staged { self.new.staged ≡ with_staged self.old.staged 0 }
        ensures same { (self.new.flash ≡ self.old.flash) × (self.new.live ≡ true) }
    {
        self.tables.life = life;
        self.store.stage(
            0,
            &Page {
                bytes: superblock(life),
            },
        );
    }
}
