//! What a line prints (this profile's own).

ghost use Rattle.std.specs.Prelude.{◌≡◌, ◌+◌, ◌*◌, ◌++◌, ◌≤◌, codes, length};
ghost use Rattle.std.specs.Option.{option_map};
ghost use Rattle.script_tool.specs.Prelude.{encode_lower, kind_played, may_be_status, printed_of, printed_text, status_digits, status_printed, unless_quiet};

use crate::played::Played;
use crate::word::Word;
use apdu_core::Status;
use arrayvec::ArrayVec;
use line_text::{push_hex, push_word};

/// The status of a command that was carried out.
pub const DONE: Status = Status(0x9000);

/// The text of a line.
pub type Text = ArrayVec<u8, 600>;

/// What a line prints.
#[derive(Drop)]
pub enum Printout {
    /// Nothing.
    Nothing,

    /// The reply to a command in plain: its data field and its status.
    Reply(ArrayVec<u8, 256>, Status),

    /// The sequence counter, and the status of EXTERNAL AUTHENTICATE.
    Opened([u8; 3], Status),

    /// The sequence counter, where the card cryptogram is wrong.
    Cryptogram([u8; 3]),

    /// A word in place of a reply.
    Said(Word),

    /// The status that was wanted, and the one that was printed last.
    Differs(Status, Option<Status>),
}

// Adds a status in digits.
fn push_status(status: Status, out: &mut Text)
    requires { length out.old.items + 4 ≤ 600 }
    ensures added { out.new.items ≡ out.old.items ++ status_digits status.0 }
    ensures length { length out.new.items ≡ length out.old.items + 4 }
{
    push_hex(&status.to_bytes(), out);
}

// Adds a status in digits, or that there is none.
fn push_last(status: Option<Status>, out: &mut Text)
    requires { length out.old.items + 4 ≤ 600 }
    ensures added { out.new.items ≡ out.old.items ++ may_be_status (option_map (λ s. s.0) status) }
{
    match status {
        Some(status) => push_status(status, out),
        None => push_word(b"none", out),
    }
}

// Adds the digits of a data field, and a status.
fn push_reply(field: &[u8], status: Status, quiet: bool, out: &mut Text)
    requires short { length field.now ≤ 256 }
    requires room { length out.old.items + 2 * length field.now + 4 ≤ 600 }
    ensures { out.new.items ≡ out.old.items ++ unless_quiet quiet (encode_lower field.now) ++ status_digits status.0 }
{
    if !quiet {
        push_hex(field, out);
    }
    push_status(status, out);
}

// Adds a sequence counter, and a status.
fn push_opened(counter: &[u8; 3], status: Status, quiet: bool, out: &mut Text)
    requires { length out.old.items + 11 ≤ 600 }
    ensures { out.new.items ≡ out.old.items ++ unless_quiet quiet (encode_lower counter.now ++ codes " ") ++ status_digits status.0 }
{
    if !quiet {
        push_hex(counter, out);
        push_word(b" ", out);
    }
    push_status(status, out);
}

// Adds a status that is wanted, and the one that was printed last.
fn push_difference(want: Status, got: Option<Status>, out: &mut Text)
    requires { length out.old.items + 18 ≤ 600 }
    ensures { out.new.items ≡ out.old.items ++ codes "want " ++ status_digits want.0 ++ codes " got " ++ may_be_status (option_map (λ s. s.0) got) }
{
    push_word(b"want ", out);
    push_status(want, out);
    push_word(b" got ", out);
    push_last(got, out);
}

impl Printout {
    /// What kind of answer it is.
    pub fn kind(&self) -> Played
        ensures { result ≡ kind_played (printed_of self.now) }
    {
        match self {
            Printout::Nothing => Played::Quiet,
            Printout::Reply(_, status) | Printout::Opened(_, status) => Played::Answer(*status),
            Printout::Cryptogram(_) | Printout::Said(_) => Played::Note,
            Printout::Differs(_, _) => Played::WantDiffers,
        }
    }

    /// The status that is printed, if one is.
    pub fn status(&self) -> Option<Status>
        ensures { result ≡ status_printed (printed_of self.now) }
    {
        match self {
            Printout::Reply(_, status) | Printout::Opened(_, status) => Some(*status),
            _ => None,
        }
    }

    /// Replaces what `out` holds by the text of a line that prints this: where the line is quiet, of a reply the status alone.
    pub fn write(&self, quiet: bool, out: &mut Text)
        ensures { out.new.items ≡ printed_text quiet (printed_of self.now) }
    {
        out.clear();
        match self {
            Printout::Nothing => {}
            Printout::Reply(field, status) => push_reply(field, *status, quiet, out),
            Printout::Opened(counter, status) => push_opened(counter, *status, quiet, out),
            Printout::Cryptogram(counter) => {
                push_hex(counter, out);
                push_word(b" cryptogram", out);
            }
            Printout::Said(word) => push_word(word.text(), out),
            Printout::Differs(want, got) => push_difference(*want, *got, out),
        }
    }
}
