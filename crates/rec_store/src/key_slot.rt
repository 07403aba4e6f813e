//! The slot of a key.

ghost use Rattle.rec_store.specs.KeySlot.{IsKeyIn, IsRoomyKey};
ghost use Rattle.rec_store.specs.declared.slot_places.TheConstants.{FIRST_KEY_PAGE, KEY_BYTES};
ghost use Rattle.std.proofs.Common.{lit<, refl};

use crate::bytes::{bytes_at, put_bytes, put_u24, u24_at};
use crate::slot::{BadSlot, Slot, USED};
use crate::slot_places::{FIRST_KEY_PAGE, KEY_BYTES};
use arrayvec::ArrayVec;
use card_types::KeyRec;

impl Slot for KeyRec {
    ghost FIRST = { FIRST_KEY_PAGE };

    const FIRST: u16 = FIRST_KEY_PAGE;

    ghost SIZE = { KEY_BYTES };

    const SIZE: usize = KEY_BYTES;

    ghost is_in = { IsKeyIn };

    ghost marked = { λ slot key is. is.mark };

    ghost is_roomy = { IsRoomyKey };

    ghost is_read = { IsRoomyKey };

    fn read_used(slot: &[u8]) -> Result<KeyRec, BadSlot> {
        let mut bytes = ArrayVec::new();
        bytes
            .try_extend_from_slice(bytes_at(slot, 4)?)
            .map_err(|_| BadSlot)?;
        let identifier = slot[3];
        let version = slot[2];
        let counter = if identifier == 1 && version < 0x70 {
            u24_at(slot, 37)
        } else {
            0
        };
        Ok(KeyRec {
            owner: slot[1],
            version,
            identifier,
            bytes,
            counter,
        })
    }

    fn write_used(&self, slot: &mut [u8]) {
        slot[0] = USED;
        slot[1] = self.owner;
        slot[2] = self.version;
        slot[3] = self.identifier;
        put_bytes(slot, 4, &self.bytes);
        put_u24(slot, 37, self.counter);
    }

    ghost sizes = { (lit< tt, refl, lit< tt) };
}
