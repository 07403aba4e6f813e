//! Why a link fails.

ghost use Rattle.std.specs.Prelude.{◌≡◌};
ghost use Rattle.host_tool.specs.Fault.{fault_text};

use line_runs::Text;
use line_text::{push_decimal, push_word};

/// Why a command got no answer.
#[derive(Clone, Copy, Debug, PartialEq, Eq)]
pub enum LinkFault {
    /// A command or a reset was not written, or not handed on.
    WriteFault,
    /// The line of this number, counted from 1, is no reply, or too long.
    BadReply(u32),
    /// There are no more replies.
    Ended,
    /// A read was refused.
    ReadFault,
    /// The replies have too many bytes.
    TooMany,
}

impl LinkFault {
    /// Replaces what `text` holds by what is printed of it.
    pub fn write(self, text: &mut Text)
        ensures { text.new.items ≡ fault_text self }
    {
        text.clear();
        match self {
            LinkFault::WriteFault => {}
            LinkFault::BadReply(number) => {
                push_word(b"reply ", text);
                push_decimal(number as usize, text);
                push_word(b"\n", text);
            }
            LinkFault::Ended | LinkFault::ReadFault | LinkFault::TooMany => {
                push_word(b"no reply\n", text);
            }
        }
    }
}
