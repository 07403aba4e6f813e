//! What is said where there is no reply to print (this profile's own).

ghost use Rattle.std.specs.Prelude.{◌≡◌};
ghost use Rattle.script_tool.specs.Prelude.{refusal_word, word_text};

use scp03_host::ReplyRefusal;

/// Why nothing was sent, or why a reply could not be read.
#[derive(Clone, Copy, Debug, PartialEq, Eq)]
pub enum Word {
    /// The channel has no session.
    NoSession,

    /// The data field has more bytes than the session leaves room for.
    TooLong,

    /// The reply is too short.
    Short,

    /// The R-MAC of the reply is wrong.
    Mac,

    /// No card sends such a reply.
    Padding,
}

impl Word {
    /// As it is printed.
    pub fn text(self) -> &'static [u8]
        ensures { result.now ≡ word_text self }
    {
        match self {
            Word::NoSession => b"no session",
            Word::TooLong => b"too long",
            Word::Short => b"short",
            Word::Mac => b"mac",
            Word::Padding => b"padding",
        }
    }

    /// What is said of a reply that could not be unwrapped.
    pub fn of_refusal(refusal: ReplyRefusal) -> Word
        ensures { result ≡ refusal_word refusal }
    {
        match refusal {
            ReplyRefusal::Short => Word::Short,
            ReplyRefusal::Mac => Word::Mac,
            ReplyRefusal::Padding => Word::Padding,
        }
    }
}
