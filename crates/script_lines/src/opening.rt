//! Sessions to open (GlobalPlatform Amendment D, 7.1.1, 7.1.2).

ghost use Rattle.script_lines.specs.Prelude.{Reads, SaysOpen, remaining_words};

use crate::values::{array, byte, level};
use crate::words::Words;
use card_types::Level;

/// A session to open: the key version number, the security level and the host challenge.
#[derive(Clone, Copy)]
pub struct Opening {
    pub version: u8,
    pub level: Level,
    pub challenge: [u8; 8],
}

/// Reads `VV LL CHALLENGE`, the words after `open`.
#[inline(never)]
pub fn read(mut words: Words<'_>) -> Option<Opening>
    ensures { Reads (SaysOpen (remaining_words words.entry)) result }
{
    let version = byte(words.take()?)?;
    let level = level(words.take()?)?;
    let challenge = array(words.last()?)?;
    Some(Opening {
        version,
        level,
        challenge,
    })
}
