//! The host side of SCP03, with the keys of `known_keys` and the sequence counter 000000.

ghost use Rattle.std.specs.Prelude.{◌<◌};

mod agreement;
mod refusals;

use crate::known_keys::{HOST, static_keys};
use crate::told::Told;
use aes_block::{Aes128, BlockKey};
use apdu_core::Command;
use arrayvec::ArrayVec;
use card_types::Level;
use scp03_host::{HostSession, begin};
use std::test::Fail;

/// What the card answers to INITIALIZE UPDATE.
const UPDATE: [u8; 32] =
    *b"\0\0\0\0\0\0\0\0\0\0\x30\x03\x70\x4d\x26\x14\xd4\x8b\x5a\x55\x72\x51\x02\xce\x10\x1b\xd7\x23\x57\0\0\0";

/// GET DATA of the sequence counters, in plain.
const GET_DATA: Command<'static> = Command {
    class: 0x80,
    ins: 0xca,
    p1: 0x00,
    p2: 0xc1,
    body: &[],
    le: None,
};

/// A session that is begun, with the EXTERNAL AUTHENTICATE that is sent.
fn begin_session(
    level: Level,
    channel: u8,
    out: &mut ArrayVec<u8, 261>,
) -> Told<HostSession<Aes128>>
    requires { channel < 4 }
{
    begin(static_keys(), &HOST, &UPDATE, level, channel, out)
        .ok()
        .ok_or("a session")
}

// Key-DEK is handed out as it came.
#[test]
fn the_key_for_data(rt: HostRuntime) -> Result<(), Fail> {
    let mut out = ArrayVec::new();
    let session = begin_session(Level::Full, 0, &mut out)?;
    let mut block = [0; 16];
    session.dek().seal(&mut block);
    assert!(rt; u128::from_be_bytes(block) == 0x1899564a9da8de833d25c71739eaadce);
    Ok(())
}
