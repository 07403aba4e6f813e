//! Lists of objects (GlobalPlatform Card Specification 2.3.1, 11.4).

ghost use Rattle.std.specs.Prelude.{◌≡◌};
ghost use Rattle.script_lines.specs.Prelude.{MayBegin, Reads, SaysListing, command_of_plain, listing_command, remaining_words};

use crate::plain::Plain;
use crate::values::{byte, bytes};
use crate::words::Words;
use arrayvec::ArrayVec;
use tokens_receipts::{DataField, push_field};

/// A GET STATUS: P1, and the bytes that each AID begins with.
#[derive(Drop)]
pub struct Listing {
    pub p1: u8,
    pub prefix: ArrayVec<u8, 16>,
}

impl Listing {
    /// GET STATUS with this P2.
    #[inline(never)]
    pub fn command(&self, p2: u8) -> Plain
        ensures { command_of_plain result ≡ listing_command p2 self.now }
    {
        let mut body = DataField::new();
        body.push(0x4f);
        push_field(&self.prefix, &mut body);
        Plain {
            ins: 0xf2,
            p1: self.p1,
            p2,
            body,
        }
    }
}

// The bytes that each AID begins with, or none where the words end.
fn may_begin(mut words: Words<'_>) -> Option<ArrayVec<u8, 16>>
    ensures { Reads (λ prefix. MayBegin (remaining_words words.entry) prefix.items) result }
{
    match words.take() {
        None => Some(ArrayVec::new()),
        Some(word) => {
            let prefix = bytes(word)?;
            words.end()?;
            Some(prefix)
        }
    }
}

/// Reads `P1 [AID]`, the words after `list` or `more`.
#[inline(never)]
pub fn read(mut words: Words<'_>) -> Option<Listing>
    ensures { Reads (SaysListing (remaining_words words.entry)) result }
{
    let p1 = byte(words.take()?)?;
    let prefix = may_begin(words)?;
    Some(Listing { p1, prefix })
}
