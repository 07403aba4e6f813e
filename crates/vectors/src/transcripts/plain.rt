//! The commands of each session, in plain.

use crate::told::Told;
use crate::transcripts::table::{Bytes, Table};
use apdu_core::Status;

/// The channel, the command, the data field of its reply, and the status word: GET DATA, without a data field; GET STATUS on
/// another channel, and a warning without a data field; DELETE with more than a block, and an error; STORE DATA with a whole
/// block, and a whole block in the reply.
pub const PLAIN: &[u8] = b"\
00\n\
80ca00c1\n\
c103000001\n\
9000\n\
02\n\
80f24002024f00\n\
\n\
6310\n\
00\n\
80e40000124f10a0a1a2a3a4a5a6a7a8a9aaabacadaeaf\n\
00\n\
6a88\n\
01\n\
80e2900010000102030405060708090a0b0c0d0e0f\n\
101112131415161718191a1b1c1d1e1f\n\
9000\n\
";

/// How many commands these are.
pub const COMMANDS: usize = 4;

/// A command in plain with its channel, and the reply in plain.
#[derive(Drop)]
pub struct Plain {
    pub channel: u8,
    pub command: Bytes,
    pub field: Bytes,
    pub status: Status,
}

impl Plain {
    pub(super) fn read(table: &mut Table<'_>) -> Told<Plain> {
        let channel = *table.next()?.first().ok_or("a channel")?;
        let command = table.next()?;
        let field = table.next()?;
        let status = table.next()?;
        let [high, low] = status.as_slice() else {
            return Err("a status word");
        };
        Ok(Plain {
            channel,
            command,
            field,
            status: Status(u16::from_be_bytes([*high, *low])),
        })
    }
}
