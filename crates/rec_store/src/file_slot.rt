//! The load directory of an Executable Load File.

ghost use Rattle.std.specs.Prelude.{◌≡◌, ◌<◌, ◌≤◌, ◌+◌, ◌-◌, ◌/◌, ◌%◌, ◌^◌, ℕ, All, length, slice_index, take};
ghost use Rattle.rec_store.specs.Prelude.{IsFileIn, IsInLoadPages, IsLoadPage, page_in};
ghost use Rattle.flash_core.specs.declared.page.TheConstants.{PAGES};
ghost use Rattle.page_journal.specs.declared.pages.TheConstants.{FIRST_LOAD_PAGE};
ghost use Rattle.rec_store.specs.declared.slot_places.TheConstants.{FIRST_FILE_PAGE, FILE_BYTES};
ghost use Rattle.std.proofs.Common.{lit<, refl};

use crate::bytes::{aid_at, put_bytes, put_u16};
use crate::slot::{BadSlot, Slot, USED};
use crate::slot_places::{FILE_BYTES, FIRST_FILE_PAGE};
use byteorder::{BigEndian, ByteOrder};
use card_types::{FILE_LIMIT, LoadFile};
use page_journal::FIRST_LOAD_PAGE;

impl Slot for LoadFile {
    ghost FIRST = { FIRST_FILE_PAGE };

    const FIRST: u16 = FIRST_FILE_PAGE;

    ghost SIZE = { FILE_BYTES };

    const SIZE: usize = FILE_BYTES;

    ghost is_in = { IsFileIn };

    ghost marked = { λ slot file is. is.mark };

    ghost is_roomy = { IsInLoadPages };

    ghost is_read = { IsInLoadPages };

    fn read_used(slot: &[u8]) -> Result<LoadFile, BadSlot> {
        let aid = aid_at(slot, 1)?;
        let len = BigEndian::read_u16(&slot[19..]);
        if usize::from(len) > FILE_LIMIT {
            return Err(BadSlot);
        }
        Ok(LoadFile {
            aid,
            domain: slot[18],
            len,
            pages: read_pages(slot, usize::from(len).div_ceil(256)),
        })
    }

    fn write_used(&self, slot: &mut [u8]) {
        slot[0] = USED;
        put_bytes(slot, 1, self.aid.as_bytes());
        slot[18] = self.domain;
        put_u16(slot, 19, self.len);
        write_pages(&self.pages, usize::from(self.len).div_ceil(256), slot);
    }

    ghost sizes = { (lit< tt, refl, lit< tt) };
}

// The numbers of the first so many load pages, and zeros after them.
fn read_pages(slot: &[u8], count: usize) -> [u16; 128]
    requires size { length slot.now ≡ 256 }
    requires few { count ≤ 128 }
    ensures { (i : ℕ) → i < count → slice_index result i ≡ page_in slot.now i }
{
    let mut pages = [0; 128];
    for i in 0..count {
        let ninth = (slot[192 + i / 8] >> (7 - i % 8)) % 2;
        pages[i] = FIRST_LOAD_PAGE + 256 * u16::from(ninth) + u16::from(slot[64 + i]);
    }
    pages
}

// Makes the numbers of the first so many load pages stand in a slot.
fn write_pages(pages: &[u16; 128], count: usize, slot: &mut [u8])
    requires size { length slot.old ≡ 256 }
    requires few { count ≤ 128 }
    requires range { All IsLoadPage (take count pages.now) }
    ensures pages { (i : ℕ) → i < count → slice_index pages.now i ≡ page_in slot.new i }
    ensures below { (i : ℕ) → i < 64 → slice_index slot.new i ≡ slice_index slot.old i }
{
    for i in 0..count {
        slot[64 + i] = ((pages[i] - FIRST_LOAD_PAGE) % 256) as u8;
    }
    for byte in 0..16 {
        slot[192 + byte] = ninth_bits(&pages[..count], byte);
    }
}

// The byte of this number in the bit map of the ninth bits.
fn ninth_bits(pages: &[u16], byte: usize) -> u8
    requires few { length pages.now ≤ 128 }
    requires byte { byte < 16 }
    ensures { (i : ℕ) → i < length pages.now → i / 8 ≡ byte → slice_index pages.now i < PAGES → result / 2 ^ (7 - i % 8) % 2 ≡ (slice_index pages.now i - FIRST_LOAD_PAGE) / 256 }
{
    let first = 8 * byte;
    128 * ninth(pages, first)
        + 64 * ninth(pages, first + 1)
        + 32 * ninth(pages, first + 2)
        + 16 * ninth(pages, first + 3)
        + 8 * ninth(pages, first + 4)
        + 4 * ninth(pages, first + 5)
        + 2 * ninth(pages, first + 6)
        + ninth(pages, first + 7)
}

fn ninth(pages: &[u16], index: usize) -> u8
    ensures bit { result ≤ 1 }
    ensures of { index < length pages.now → slice_index pages.now index < PAGES → result ≡ (slice_index pages.now index - FIRST_LOAD_PAGE) / 256 }
{
    match pages.get(index) {
        Some(page) => u8::from(*page >= FIRST_LOAD_PAGE + 256),
        None => 0,
    }
}
