//! Elements at the end of a buffer.
ghost use Rattle.std.specs.Prelude.{◌≡◌, ◌↔◌, ◌+◌, ◌<◌, ◌≤◌, ◌++◌, ℕ, List, length, OnOk, OnErr, IsErr};
ghost use Rattle.arrayvec.specs.ArrayVec.{array_vec_len};
ghost use Rattle.bertlv.specs.Tag.{IsTag};
ghost use Rattle.bertlv.specs.Spelling.{Spelling, Appends};

use crate::length::{length_field, push_length};
use crate::tag::{push_tag, tag_field};
use crate::{NoRoom, Tlv};
use arrayvec::ArrayVec;

/// Appends the one spelling of the element (ISO/IEC 7816-4:2013, chapter 6). The tag has the form that
/// `is_tag` tests. A value of more than 65,535 bytes has no spelling, and so never fits.
pub fn write<const CAP: usize>(tlv: &Tlv<'_>, out: &mut ArrayVec<u8, CAP>) -> Result<(), NoRoom>
    requires { IsTag tlv.now.tag }
    ensures ok { OnOk result (Appends tlv.now.tag tlv.now.value.now out.old.items out.new.items) }

    // No other bytes spell the element.
    ensures only { (bytes : List ℕ) → Spelling tlv.now.tag tlv.now.value.now bytes
        → OnOk result (out.new.items ≡ out.old.items ++ bytes) }
    ensures no_room { IsErr result ↔ ((bytes : List ℕ) → Spelling tlv.now.tag tlv.now.value.now bytes
        → CAP < length out.old.items + length bytes) }
    ensures err { OnErr result (out.new ≡ out.old) }
{
    let Ok(length) = u16::try_from(tlv.value.len()) else {
        return Err(NoRoom);
    };
    let tag = tag_field(tlv.tag);
    let length = length_field(length);
    if out.remaining_capacity() < tag.len() + length.len() + tlv.value.len() {
        return Err(NoRoom);
    }
    out.try_extend_from_slice(tag.as_slice()).unwrap();
    out.try_extend_from_slice(length.as_slice()).unwrap();
    out.try_extend_from_slice(tlv.value).unwrap();
    Ok(())
}

/// Appends the one spelling of the element, where there is room for it and for the longest length
/// field.
#[inline]
pub fn append<const CAP: usize>(tlv: &Tlv<'_>, out: &mut ArrayVec<u8, CAP>)
    requires tag { IsTag tlv.now.tag }
    requires short { length tlv.now.value.now < 65536 }
    requires room { array_vec_len out.old + length tlv.now.value.now + 5 ≤ CAP }
    ensures appends { Appends tlv.now.tag tlv.now.value.now out.old.items out.new.items }
    ensures size { length out.new.items ≤ length out.old.items + length tlv.now.value.now + 5 }
{
    push_tag(tlv.tag, out);
    push_length(tlv.value.len() as u16, out);
    out.try_extend_from_slice(tlv.value).unwrap();
}
