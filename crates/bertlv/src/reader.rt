//! Elements at the front of bytes.
ghost use Rattle.std.specs.Prelude.{◌≡◌, ◌↔◌, ◌++◌, ℕ, List, Ok, Err, IfOk, IfErr, IsOkAnd};
ghost use Rattle.bertlv.specs.Spelling.{Spelling, BeginsWith};
ghost use Rattle.bertlv.specs.Tag.{IsTag};
ghost use Rattle.bertlv.specs.Refusal.{EndsShortAt, BadTagAt, BadLengthAt, Refused};

use crate::length::{LengthError, split_length};
use crate::tag::split_tag;
use crate::{Tlv, TlvError};

/// The element at the front, and the bytes after it (ISO/IEC 7816-4:2013, chapter 6).
///
/// Of several causes of a refusal the first in reading order is given. A length field is judged by
/// its first byte where that is 80 or from 83 up, and otherwise once all its bytes are there.
pub fn read(bytes: &[u8]) -> Result<(Tlv<'_>, &[u8]), TlvError>
    ensures found { IfOk result (λ r. BeginsWith r.0.tag r.0.value.now r.1.now bytes.now) }
    ensures is_tag { IfOk result (λ r. IsTag r.0.tag) }

    // What is spelled so is read so, whatever follows it: no front has a second reading.
    ensures only { (tag : ℕ) (value front rest : List ℕ) → Spelling tag value front
        → bytes.now ≡ front ++ rest
        → IsOkAnd result (λ r. (r.0.tag ≡ tag) × (r.0.value.now ≡ value) × (r.1.now ≡ rest)) }
    ensures short { (n : ℕ) → (result ≡ Err (TlvError.Short n)) ↔ EndsShortAt n bytes.now }
    ensures tag { (n : ℕ) → (result ≡ Err (TlvError.Tag n)) ↔ BadTagAt n bytes.now }
    ensures length { (n : ℕ) → (result ≡ Err (TlvError.Length n)) ↔ BadLengthAt n bytes.now }
{
    element_at_front(bytes)
}

/// What `read` gives: an element that stands there, or a cause that does.
fn element_at_front(bytes: &[u8]) -> Result<(Tlv<'_>, &[u8]), TlvError>
    ensures found { IfOk result (λ r. BeginsWith r.0.tag r.0.value.now r.1.now bytes.now) }
    ensures refused { IfErr result (Refused bytes.now) }
{
    let (tag, after_tag) = split_tag(bytes)?;
    let (length, after_length) = match split_length(after_tag) {
        Ok(split) => split,
        Err(LengthError::Short) => return Err(TlvError::Short(bytes.len())),
        Err(LengthError::Form) => return Err(TlvError::Length(bytes.len() - after_tag.len())),
    };
    if after_length.len() < length {
        return Err(TlvError::Short(bytes.len()));
    }
    let (value, rest) = after_length.split_at(length);
    Ok((Tlv { tag, value }, rest))
}
