//! A registry in words, laid out in the pages of a device.
//!
//! The words are those of `gp show`, with the content of keys and files. The places of the slots are known here
//! apart from the card's own code. Each thing gets the next slot of its kind, and an Executable Load File the next load pages.

mod bytes;
mod slot;

ghost use Rattle.std.specs.Prelude.{◌≡◌, ◌<◌, OnOk, OnErr};
ghost use Rattle.case_cards.specs.Image.{with_bytes};
ghost use Rattle.script_lines.specs.Words.{remaining_words};

use crate::case_error::CaseError;
use crate::image::Image;
use crate::things::{EntryWords, FileWords, KeyWords, Name, ObjectWords};
use crate::words::last_after;
use bytes::{entry_slot, file_slot, key_slot, object_slot};
use script_lines::values::byte;
use script_lines::words::Words;
use slot::{ENTRIES, FILES, KEYS, LOAD_PAGES, OBJECTS, Slot, Slots, copied, name_page, slot_of};
use std::alloc::Global;
use std::marker::Model;

/// The front of the superblock: the mark of a card, and its layout.
const SUPERBLOCK: [u8; 5] = [0x47, 0x50, 0x43, 0x44, 0x03];

const PAGE_SIZE: usize = 256;

/// The pages, and what was laid out in them.
#[derive(Drop)]
pub struct Layout {
    image: Image,
    entries: Vec<Name>,
    files: Vec<Name>,
    keys: usize,
    objects: usize,
    load_page: usize,
}

impl Model for Layout {
    ghost use Rattle.std.specs.Prelude.{map};
    ghost use Rattle.case_cards.specs.Layout.{Laid};

    ghost Value = { Laid };

    ghost view = { λ l. record {
      image = l.image;
      entries = map (λ name. name.items) l.entries.items;
      files = map (λ name. name.items) l.files.items;
      keys = l.keys;
      objects = l.objects;
      load_page = l.load_page;
    } };
}

impl Layout {
    ghost use Rattle.case_cards.specs.Layout.{Lays, LaysCard, LaysEntry, LaysFile, LaysKey, LaysObject, nothing_in, with_slot};

    /// Pages in which nothing was laid out.
    pub fn of(alloc: Global, image: Image) -> Layout
        ensures { result ≡ nothing_in image }
    {
        Layout {
            image,
            entries: Vec::new(alloc),
            files: Vec::new(alloc),
            keys: 0,
            objects: 0,
            load_page: LOAD_PAGES,
        }
    }

    /// The pages.
    pub fn image(&self) -> &Image
        ensures { result.now ≡ self.now.image }
    {
        &self.image
    }

    /// Puts bytes at a place. What lies past the end is refused.
    pub fn put(&mut self, place: usize, bytes: &[u8]) -> Result<(), CaseError>
        ensures ok { OnOk result (self.new ≡ record self.old { image = with_bytes self.old.image place bytes.now }) }
        ensures err { OnErr result (self.new ≡ self.old) }
    {
        self.image.put(place, bytes)
    }

    /// Lays out what a line says: `card`, or one thing, which has the next slot of its kind.
    pub fn lay(&mut self, kind: &[u8], line: &[u8]) -> Result<(), CaseError>
        ensures { OnOk result (Lays kind.now line.now self.old self.new) }
    {
        let words = Words::new(line);
        match kind {
            b"card" => self.lay_card(words),
            b"file" => self.lay_file(words),
            b"key" => self.lay_key(words),
            b"object" => self.lay_object(words),
            _ => self.lay_entry(words),
        }
    }

    // LIFE
    fn lay_card(&mut self, words: Words<'_>) -> Result<(), CaseError>
        ensures { OnOk result (LaysCard (remaining_words words.entry) self.old self.new) }
    {
        let word = words.last().ok_or(CaseError::NoForm)?;
        let life = byte(word).ok_or(CaseError::NoForm)?;
        self.image.put(0, &SUPERBLOCK)?;
        self.image.put(SUPERBLOCK.len(), &[life])
    }

    fn lay_entry(&mut self, words: Words<'_>) -> Result<(), CaseError>
        ensures { OnOk result (LaysEntry (remaining_words words.entry) self.old self.new) }
    {
        let Some(said) = EntryWords::read(words) else {
            return Err(CaseError::NoForm);
        };
        let number = self.entries.len();
        let file = slot_of(&self.files, &said.file)?;
        self.entries.push(copied(&said.aid)?)?;
        let domain = slot_of(&self.entries, &said.domain)?;
        let slot = entry_slot(domain, file, &said)?;
        self.put_slot(ENTRIES, number, &slot)
    }

    fn lay_file(&mut self, words: Words<'_>) -> Result<(), CaseError>
        ensures { OnOk result (LaysFile self.old self.new) }
    {
        let mut words = words;
        let Some(said) = FileWords::read(&mut words) else {
            return Err(CaseError::NoForm);
        };
        let fill = read_fill(words).ok_or(CaseError::NoForm)?;
        // The file of the Issuer Security Domain is laid out before it.
        let domain = if self.files.is_empty() {
            0
        } else {
            slot_of(&self.entries, &said.domain)?
        };
        let number = self.files.len();
        let mut slot = file_slot(domain, &said)?;
        self.load_page = fill_pages(&mut self.image, self.load_page, said.len, fill, &mut slot)?;
        self.files.push(said.aid)?;
        self.put_slot(FILES, number, &slot)
    }

    fn lay_key(&mut self, words: Words<'_>) -> Result<(), CaseError>
        ensures { OnOk result (LaysKey (remaining_words words.entry) self.old self.new) }
    {
        let Some(said) = KeyWords::read(words) else {
            return Err(CaseError::NoForm);
        };
        let owner = slot_of(&self.entries, &said.owner)?;
        let slot = key_slot(owner, &said)?;
        self.put_slot(KEYS, self.keys, &slot)?;
        self.keys = self.keys.saturating_add(1);
        Ok(())
    }

    fn lay_object(&mut self, words: Words<'_>) -> Result<(), CaseError>
        ensures { OnOk result (LaysObject (remaining_words words.entry) self.old self.new) }
    {
        let Some(said) = ObjectWords::read(words) else {
            return Err(CaseError::NoForm);
        };
        let owner = slot_of(&self.entries, &said.owner)?;
        let slot = object_slot(owner, &said)?;
        self.put_slot(OBJECTS, self.objects, &slot)?;
        self.objects = self.objects.saturating_add(1);
        Ok(())
    }

    fn put_slot(&mut self, slots: Slots, number: usize, slot: &Slot) -> Result<(), CaseError>
        ensures laid { OnOk result (self.new ≡ record self.old { image = with_slot slots number slot.now.items self.old.image }) }
        ensures room { OnOk result (number < slots.count) }
    {
        let place = slots.place(number).ok_or(CaseError::NoRegistry)?;
        self.image.put(place, slot)
    }
}

// Fills the load pages of a file from this one on, and names them in its slot. Answers the page after them.
fn fill_pages(
    image: &mut Image,
    first: usize,
    len: u16,
    fill: u8,
    slot: &mut Slot,
) -> Result<usize, CaseError> {
    let content = [fill; PAGE_SIZE];
    let mut left = usize::from(len);
    let mut page = first;
    for index in 0..left.div_ceil(PAGE_SIZE) {
        let count = PAGE_SIZE.min(left);
        left -= count;
        image.put(page.saturating_mul(PAGE_SIZE), &content[..count])?;
        name_page(slot, index, page)?;
        page = page.saturating_add(1);
    }
    Ok(page)
}

// fill BB
fn read_fill(words: Words<'_>) -> Option<u8> {
    byte(last_after(words, b"fill")?)
}
