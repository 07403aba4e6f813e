//! Objects to delete (GlobalPlatform Card Specification 2.3.1, 11.2).

ghost use Rattle.std.specs.Prelude.{◌≡◌};
ghost use Rattle.script_lines.specs.Prelude.{Reads, SaysDelete, command_of_plain, deleting, remaining_words};

use crate::plain::Plain;
use crate::tokens::Tokens;
use crate::values::{aid, byte};
use crate::words::Words;
use card_types::Aid;
use tokens_receipts::{object_field, push_field};

/// An object to delete, and P2.
#[derive(Clone, Copy)]
pub struct Deletion {
    pub aid: Aid,
    pub p2: u8,
}

impl Deletion {
    /// DELETE.
    #[inline(never)]
    pub fn command(&self, tokens: &Tokens) -> Plain
        ensures { command_of_plain result ≡ deleting tokens.now self.now }
    {
        let mut body = object_field(&self.aid);
        if let Some(token) = tokens.token(0x00, self.p2, &body) {
            body.push(0x9e);
            push_field(&token, &mut body);
        }
        Plain {
            ins: 0xe4,
            p1: 0x00,
            p2: self.p2,
            body,
        }
    }
}

/// Reads `AID P2`, the words after `delete`.
#[inline(never)]
pub fn read(mut words: Words<'_>) -> Option<Deletion>
    ensures { Reads (SaysDelete (remaining_words words.entry)) result }
{
    let aid = aid(words.take()?)?;
    let p2 = byte(words.last()?)?;
    Some(Deletion { aid, p2 })
}
