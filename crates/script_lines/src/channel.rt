//! Logical channels (GlobalPlatform Card Specification 2.3.1, 11.1.4).

ghost use Rattle.std.specs.Prelude.{◌≡◌, ◌+◌, ◌∷◌, [], ◌<◌};
ghost use Rattle.script_lines.specs.Prelude.{Reads, SaysChannel, channel_number, remaining_words};

use crate::words::Words;

/// A logical channel.
#[derive(Clone, Copy)]
pub enum Channel {
    Basic = 0,
    First = 1,
    Second = 2,
    Third = 3,
}

impl Channel {
    /// Its number.
    pub fn number(&self) -> u8
        ensures number { result ≡ channel_number self.now }
        ensures few { result < 4 }
    {
        *self as u8
    }
}

// The channel that a digit names.
fn named(word: &[u8]) -> Option<Channel>
    ensures { Reads (λ channel. word.now ≡ (48 + channel_number channel) ∷ []) result }
{
    match word {
        [b'0'] => Some(Channel::Basic),
        [b'1'] => Some(Channel::First),
        [b'2'] => Some(Channel::Second),
        [b'3'] => Some(Channel::Third),
        _ => None,
    }
}

/// Reads `N`, the word after `channel`.
pub fn read(words: Words<'_>) -> Option<Channel>
    ensures { Reads (SaysChannel (remaining_words words.entry)) result }
{
    let channel = named(words.last()?)?;
    Some(channel)
}
