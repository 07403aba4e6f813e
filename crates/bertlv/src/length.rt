//! Length fields (ISO/IEC 7816-4:2013, chapter 6).
ghost use Rattle.std.specs.Prelude.{◌≡◌, ◌≤◌, ◌+◌, ◌++◌, ℕ, List, IfOk, IsErrOf, length as length_of};
ghost use Rattle.arrayvec.specs.ArrayVec.{array_vec_len};
ghost use Rattle.bertlv.specs.Length.{LengthBytes};
ghost use Rattle.bertlv.specs.Refusal.{AfterLength, EndsInLength, BadLength};

use arrayvec::ArrayVec;

/// Why bytes don't begin with a length field.
#[derive(Clone, Copy)]
pub(crate) enum LengthError {
    /// The bytes end before the field does.
    Short,

    /// The field has none of the three forms.
    Form,
}

/// The length at the front, and the bytes after its field.
pub(crate) fn split_length(bytes: &[u8]) -> Result<(usize, &[u8]), LengthError>
    ensures ok { IfOk result (λ r. (field : List ℕ) × AfterLength r.0 field r.1.now bytes.now) }
    ensures short { IsErrOf result LengthError.Short → EndsInLength bytes.now }
    ensures form { IsErrOf result LengthError.Form → BadLength bytes.now }
{
    match bytes {
        [] => Err(LengthError::Short),
        [length @ 0..=0x7F, rest @ ..] => Ok((usize::from(*length), rest)),
        [0x81, ..] => match bytes {
            [_, length @ 0x80.., rest @ ..] => Ok((usize::from(*length), rest)),
            [_, _, ..] => Err(LengthError::Form),
            _ => Err(LengthError::Short),
        },
        [0x82, ..] => match bytes {
            [_, high @ 1.., low, rest @ ..] => {
                Ok((usize::from(u16::from_be_bytes([*high, *low])), rest))
            }
            [_, _, _, ..] => Err(LengthError::Form),
            _ => Err(LengthError::Short),
        },
        _ => Err(LengthError::Form),
    }
}

/// Appends the field that spells the length.
#[inline]
pub(crate) fn push_length<const CAP: usize>(length: u16, out: &mut ArrayVec<u8, CAP>)
    requires room { array_vec_len out.old + 3 ≤ CAP }
    ensures field { (field : List ℕ) × LengthBytes length field × (out.new.items ≡ out.old.items ++ field) }
    ensures size { length_of out.new.items ≤ length_of out.old.items + 3 }
{
    let [high, low] = length.to_be_bytes();
    if length < 0x80 {
        out.push(low);
    } else if length < 0x100 {
        out.push(0x81);
        out.push(low);
    } else {
        out.push(0x82);
        out.push(high);
        out.push(low);
    }
}

/// The field that spells the length.
pub(crate) fn length_field(length: u16) -> ArrayVec<u8, 3>
    ensures { LengthBytes length result.items }
{
    let mut field = ArrayVec::new();
    push_length(length, &mut field);
    field
}
