//! Tag fields (ISO/IEC 7816-4:2013, chapter 6).
ghost use Rattle.std.specs.Prelude.{◌≡◌, ◌↔◌, ◌≤◌, ◌+◌, ◌++◌, ℕ, List, IsTrue, IfOk, IfErr, length};
ghost use Rattle.arrayvec.specs.ArrayVec.{array_vec_len};
ghost use Rattle.bertlv.specs.Tag.{TagGoesOn, EndsTag, TagBytes, IsTag};
ghost use Rattle.bertlv.specs.Refusal.{AfterTag, Refused};

use crate::TlvError;
use arrayvec::ArrayVec;

/// Whether a number is a tag: one byte other than 00 whose five low bits are not all set, or two
/// bytes, the first of which has them all set and the second of which is from 1F to 7F.
pub fn is_tag(tag: u16) -> bool
    ensures { IsTrue result ↔ IsTag tag }
{
    let [first, second] = tag.to_be_bytes();
    if first == 0 {
        second != 0 && !goes_on(second)
    } else {
        goes_on(first) && ends(second)
    }
}

/// The tag at the front, and the bytes after its field.
pub(crate) fn split_tag(bytes: &[u8]) -> Result<(u16, &[u8]), TlvError>
    ensures ok { IfOk result (λ r. (field : List ℕ) × AfterTag r.0 field r.1.now bytes.now) }
    ensures err { IfErr result (Refused bytes.now) }
{
    match bytes {
        [] => Err(TlvError::Short(0)),
        [0, ..] => Err(TlvError::Tag(0)),
        [first, rest @ ..] if !goes_on(*first) => Ok((u16::from(*first), rest)),
        [_] => Err(TlvError::Short(1)),
        [first, second, rest @ ..] if ends(*second) => {
            Ok((u16::from_be_bytes([*first, *second]), rest))
        }
        _ => Err(TlvError::Tag(1)),
    }
}

/// Appends the field that spells the tag.
#[inline]
pub(crate) fn push_tag<const CAP: usize>(tag: u16, out: &mut ArrayVec<u8, CAP>)
    requires tag { IsTag tag }
    requires room { array_vec_len out.old + 2 ≤ CAP }
    ensures field { (field : List ℕ) × TagBytes tag field × (out.new.items ≡ out.old.items ++ field) }
    ensures size { length out.new.items ≤ length out.old.items + 2 }
{
    let [first, second] = tag.to_be_bytes();
    if first != 0 {
        out.push(first);
    }
    out.push(second);
}

/// The field that spells the tag.
pub(crate) fn tag_field(tag: u16) -> ArrayVec<u8, 2>
    requires { IsTag tag }
    ensures { TagBytes tag result.items }
{
    let mut field = ArrayVec::new();
    push_tag(tag, &mut field);
    field
}

/// Whether a first byte says that a second follows.
fn goes_on(first: u8) -> bool
    ensures { IsTrue result ↔ TagGoesOn first }
{
    first & 0x1F == 0x1F
}

/// Whether a second byte ends the field.
fn ends(second: u8) -> bool
    ensures { IsTrue result ↔ EndsTag second }
{
    (0x1F..=0x7F).contains(&second)
}
