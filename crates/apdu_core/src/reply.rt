//! Response APDUs (ISO/IEC 7816-3:2006, 12.1).
ghost use Rattle.std.specs.Prelude.{◌≡◌, ◌<◌, ◌⊎◌, length, IfOk, OnErr};
ghost use Rattle.apdu_core.specs.Reply.{ShortReply, status_bytes};

use crate::NotShort;

/// The status bytes SW1 and SW2, the first in the high half.
#[derive(Clone, Copy, Debug, PartialEq, Eq)]
pub struct Status(pub u16);

impl Status {
    /// SW1 and SW2.
    pub fn to_bytes(self) -> [u8; 2]
        ensures { result ≡ status_bytes self.0 }
    {
        self.0.to_be_bytes()
    }
}

/// A response APDU, whose body lies in the bytes that it was read from.
#[derive(Clone, Copy, Debug, PartialEq, Eq)]
pub struct Reply<'a> {
    pub body: &'a [u8],
    pub status: Status,
}

impl Reply<'_> {
    /// Reads a whole reply: a body of at most 256 bytes, and the status.
    pub fn read(bytes: &[u8]) -> Result<Reply<'_>, NotShort>
        ensures ok { IfOk result (λ r. ShortReply r.body.now r.status.0 bytes.now) }
        ensures refused { OnErr result ((length bytes.now < 2) ⊎ (258 < length bytes.now)) }
    {
        match bytes {
            [body @ .., sw1, sw2] if body.len() <= 256 => Ok(Reply {
                body,
                status: Status(u16::from_be_bytes([*sw1, *sw2])),
            }),
            _ => Err(NotShort),
        }
    }
}
