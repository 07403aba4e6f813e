//! Short commands and replies.

use apdu_core::{Command, Reply, Status};
use arrayvec::ArrayVec;
use std::test::Fail;

/// SELECT by the name 1PAY.SYS.DDF01, as EMV Book 1 (12.2.2) gives it, with Le 00.
const SELECT: [u8; 20] = *b"\x00\xa4\x04\x00\x0e1PAY.SYS.DDF01\x00";

/// GET CHALLENGE of eight bytes (ISO/IEC 7816-4:2013, chapter 11).
const GET_CHALLENGE: [u8; 5] = [0x00, 0x84, 0x00, 0x00, 0x08];

/// How many bytes the data field of a short command has, and its Le.
fn parts(bytes: &[u8]) -> Option<(usize, Option<u8>)> {
    let command = Command::read(bytes).ok()?;
    Some((command.body.len(), command.le))
}

#[test]
fn reads_what_is_short(rt: HostRuntime) {
    let cases: [(&[u8], Option<(usize, Option<u8>)>); 8] = [
        (&GET_CHALLENGE[..4], Some((0, None))),
        (&GET_CHALLENGE, Some((0, Some(8)))),
        (&SELECT[..19], Some((14, None))),
        (&SELECT, Some((14, Some(0)))),
        (&GET_CHALLENGE[..3], None),
        (&SELECT[..18], None),
        (b"\x00\xa4\x04\x00\x00\x00", None),
        (b"\x00\xa4\x04\x00\x00\x00\x01\x2f", None),
    ];
    for (bytes, wanted) in cases {
        assert!(rt; parts(bytes) == wanted, "{bytes:?}");
    }
}

/// A command that is read, and written again.
fn copied(bytes: &[u8]) -> Option<ArrayVec<u8, 261>> {
    let command = Command::read(bytes).ok()?;
    if command.body.len() > 255 {
        return None;
    }
    let mut out = ArrayVec::new();
    command.write(&mut out);
    Some(out)
}

#[test]
fn writes_what_it_reads(rt: HostRuntime) -> Result<(), Fail> {
    for bytes in [&SELECT[..], &GET_CHALLENGE[..]] {
        assert!(rt; copied(bytes).ok_or("a short command")?.as_slice() == bytes);
    }
    Ok(())
}

/// The data field of a reply, and its status.
fn reply(bytes: &[u8]) -> Option<(&[u8], Status)> {
    let reply = Reply::read(bytes).ok()?;
    Some((reply.body, reply.status))
}

#[test]
fn reads_replies(rt: HostRuntime) {
    let cases: [(&[u8], Option<(&[u8], Status)>); 3] = [
        (b"\x01\x02\x61\x10", Some((&[1, 2], Status(0x6110)))),
        (&[0x90], None),
        (&[0; 259], None),
    ];
    for (bytes, wanted) in cases {
        assert!(rt; reply(bytes) == wanted, "{bytes:?}");
    }
}
