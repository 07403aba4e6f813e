//! Bytes in one word (this profile's own).

ghost use Rattle.script_lines.specs.Words.{Reads, SaysBytes, remaining_words};

use crate::values::bytes;
use crate::words::Words;
use arrayvec::ArrayVec;

/// Reads `HEX`, the one word that is left.
#[inline(never)]
pub fn read(words: Words<'_>) -> Option<ArrayVec<u8, 258>>
    ensures { Reads (SaysBytes (remaining_words words.entry)) result }
{
    let bytes = bytes(words.last()?)?;
    Some(bytes)
}
