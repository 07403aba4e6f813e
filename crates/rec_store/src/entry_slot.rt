//! The slot of an application or a security domain.

ghost use Rattle.rec_store.specs.EntrySlot.{HasThreeBytes, IsEntryIn};
ghost use Rattle.rec_store.specs.declared.slot_places.TheConstants.{FIRST_ENTRY_PAGE, ENTRY_BYTES};
ghost use Rattle.std.proofs.Common.{lit<, refl};

use crate::bytes::{aid_at, put_bytes, put_u16, put_u24, u24_at};
use crate::slot::{BadSlot, Slot, USED};
use crate::slot_places::{ENTRY_BYTES, FIRST_ENTRY_PAGE};
use bitflags::Flags;
use byteorder::{BigEndian, ByteOrder};
use card_types::{Entry, LifeMark, Privileges};

impl Slot for Entry {
    ghost FIRST = { FIRST_ENTRY_PAGE };

    const FIRST: u16 = FIRST_ENTRY_PAGE;

    ghost SIZE = { ENTRY_BYTES };

    const SIZE: usize = ENTRY_BYTES;

    ghost is_in = { IsEntryIn };

    ghost marked = { λ slot entry is. is.mark };

    ghost is_roomy = { λ _. Unit {0} };

    ghost is_read = { HasThreeBytes };

    fn read_used(slot: &[u8]) -> Result<Entry, BadSlot> {
        Ok(Entry {
            aid: aid_at(slot, 1)?,
            domain: slot[18],
            file: slot[19],
            module: aid_at(slot, 20)?,
            life: LifeMark::from_code(slot[37]).ok_or(BadSlot)?,
            privileges: Privileges::from_bits_retain(u24_at(slot, 38)),
            receipts: BigEndian::read_u16(&slot[41..]),
        })
    }

    fn write_used(&self, slot: &mut [u8]) {
        slot[0] = USED;
        put_bytes(slot, 1, self.aid.as_bytes());
        slot[18] = self.domain;
        slot[19] = self.file;
        put_bytes(slot, 20, self.module.as_bytes());
        slot[37] = self.life.code();
        put_u24(slot, 38, self.privileges.bits() % 0x100_0000);
        put_u16(slot, 41, self.receipts);
    }

    ghost sizes = { (lit< tt, refl, lit< tt) };
}
