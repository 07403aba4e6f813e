//! Applications to make selectable (GlobalPlatform Card Specification 2.3.1, 11.5).

ghost use Rattle.std.specs.Prelude.{◌≡◌};
ghost use Rattle.script_lines.specs.Prelude.{Reads, SaysSelectable, command_of_plain, making_selectable, remaining_words};

use crate::install::install;
use crate::plain::Plain;
use crate::tokens::Tokens;
use crate::values::aid;
use crate::words::Words;
use card_types::Aid;
use tokens_receipts::five_fields;

/// Reads `AID`, the word after `selectable`.
#[inline(never)]
pub fn read(words: Words<'_>) -> Option<Aid>
    ensures { Reads (SaysSelectable (remaining_words words.entry)) result }
{
    let aid = aid(words.last()?)?;
    Some(aid)
}

/// INSTALL for make selectable.
#[inline(never)]
pub fn command(aid: &Aid, tokens: &Tokens) -> Plain
    ensures { command_of_plain result ≡ making_selectable tokens.now aid.now }
{
    let fields = five_fields(&[], &[], aid.as_bytes(), &[], &[]);
    install(tokens, 0x08, fields)
}
