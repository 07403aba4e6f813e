//! The slot of a data object.

ghost use Rattle.rec_store.specs.ObjectSlot.{IsObjectIn};
ghost use Rattle.rec_store.specs.declared.slot_places.TheConstants.{FIRST_OBJECT_PAGE, OBJECT_BYTES};
ghost use Rattle.std.proofs.Common.{lit<, refl};

use crate::bytes::{bytes_at, put_bytes, put_u16};
use crate::slot::{BadSlot, Slot, USED};
use crate::slot_places::{FIRST_OBJECT_PAGE, OBJECT_BYTES};
use arrayvec::ArrayVec;
use byteorder::{BigEndian, ByteOrder};
use card_types::Object;

impl Slot for Object {
    ghost FIRST = { FIRST_OBJECT_PAGE };

    const FIRST: u16 = FIRST_OBJECT_PAGE;

    ghost SIZE = { OBJECT_BYTES };

    const SIZE: usize = OBJECT_BYTES;

    ghost is_in = { IsObjectIn };

    ghost marked = { λ slot object is. is.mark };

    ghost is_roomy = { λ _. Unit {0} };

    ghost is_read = { λ _. Unit {0} };

    fn read_used(slot: &[u8]) -> Result<Object, BadSlot> {
        let mut value = ArrayVec::new();
        value
            .try_extend_from_slice(bytes_at(slot, 4)?)
            .map_err(|_| BadSlot)?;
        Ok(Object {
            owner: slot[1],
            tag: BigEndian::read_u16(&slot[2..]),
            value,
        })
    }

    fn write_used(&self, slot: &mut [u8]) {
        slot[0] = USED;
        slot[1] = self.owner;
        put_u16(slot, 2, self.tag);
        put_bytes(slot, 4, &self.value);
    }

    ghost sizes = { (lit< tt, refl, lit< tt) };
}
