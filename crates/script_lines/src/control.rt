//! The lines that send nothing to the card (this profile's own).

ghost use Rattle.script_lines.specs.Prelude.{Reads, SaysControl, SaysWant, remaining_words};

use crate::channel::{self, Channel};
use crate::keys::{self, Keys};
use crate::tokens::{self, Tokens};
use crate::values::status;
use crate::words::Words;
use apdu_core::Status;

/// What a line asks for that sends nothing to the card.
#[derive(Clone, Copy)]
pub enum Control {
    /// Power off and on.
    Reset,

    /// The channel of the lines that follow.
    Channel(Channel),

    /// The static keys of sessions that are opened later.
    Keys(Keys),

    /// The tokens of later commands.
    Tokens(Tokens),

    /// The status that was to be printed last.
    Want(Status),
}

// `SSSS`
fn want(words: Words<'_>) -> Option<Status>
    ensures { Reads (SaysWant (remaining_words words.entry)) result }
{
    let status = status(words.last()?)?;
    Some(status)
}

/// Reads a line that sends nothing. Its first word, the verb, tells which form it may have.
pub fn read(mut words: Words<'_>) -> Option<Control>
    ensures { Reads (SaysControl (remaining_words words.entry)) result }
{
    match words.take()? {
        b"reset" => {
            words.end()?;
            Some(Control::Reset)
        }
        b"channel" => channel::read(words).map(Control::Channel),
        b"keys" => keys::read(words).map(Control::Keys),
        b"tokenkey" => tokens::read(words).map(Control::Tokens),
        b"badtoken" => tokens::read_damaged(words).map(Control::Tokens),
        b"want" => want(words).map(Control::Want),
        _ => None,
    }
}
