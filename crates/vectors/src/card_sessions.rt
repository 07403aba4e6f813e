//! The card side of SCP03, with the keys of `known_keys`.

ghost use Rattle.std.specs.Prelude.{◌≡◌, ◌≤◌, length, OnOk};
ghost use Rattle.apdu_core.specs.Apdu.{apdu_of};
ghost use Rattle.arrayvec.specs.ArrayVec.{array_vec_len};
ghost use Rattle.scp03_card.specs.Kept.{RepresentsSession};
ghost use Rattle.scp03_card.specs.Opens.{accepting};
ghost use Rattle.scp03_card.specs.Protected.{session_reply};
ghost use Rattle.scp03_card.specs.Session as model;

use crate::digits::bytes;
use crate::known_keys::offered;
use crate::told::{Told, told};
use aes_block::{Aes128, Aes192, Aes256, BlockKey};
use apdu_core::{Command, Status};
use arrayvec::ArrayVec;
use card_types::Level;
use scp03_card::{OpenRefusal, Session};
use std::test::Fail;

/// Challenge and cryptogram of the card.
const CARD: (u64, u64) = (0x4d2614d48b5a5572, 0x5102ce101bd72357);

/// The body of EXTERNAL AUTHENTICATE at level 33.
const HOST_FULL: u128 = 0x76857f0738ab1422_cc3a9195e19f90a3;

/// The first command at level 33: GET DATA of the sequence counter.
const GET_DATA: &[u8] = b"84ca00c10839888bfe9333e491";

/// A session that the host has begun, and the values of the card before: `card` is the challenge and
/// the cryptogram, `host` the body of EXTERNAL AUTHENTICATE.
fn begin_session<K: BlockKey>(
    counter: u32,
    card: (u64, u64),
    level: Level,
    host: u128,
) -> Told<Session<K>>
    requires { counter ≤ 0xFFFFFF }
{
    let offer = offered::<K>(counter)?;
    told(u64::from_be_bytes(offer.challenge()) == card.0, "challenge")?;
    told(
        u64::from_be_bytes(offer.cryptogram()) == card.1,
        "cryptogram",
    )?;
    offer
        .authenticate(level, &host.to_be_bytes())
        .ok()
        .ok_or("authentic")
}

/// What comes of a command, in digits.
fn open<K: BlockKey>(
    session: &mut Session<K>,
    sent: &[u8],
    plain: &mut [u8; 255],
) -> Option<Result<usize, OpenRefusal>> {
    let sent = bytes::<258>(sent);
    let Ok(command) = Command::read(&sent) else {
        return None;
    };
    Some(session.open_command(&command, plain))
}

/// One command with its reply: both as they are sent, and plain.
fn exchange<K: BlockKey>(
    session: &mut Session<K>,
    sent: &[u8],
    answer: &[u8],
    plain: &[u8],
    data: &[u8],
    status: u16,
) -> Told<()> {
    let mut buffer = [0; 255];
    let opened = open(session, sent, &mut buffer).ok_or("a command")?;
    let count = opened.ok().ok_or("opens")?;
    told(
        buffer.get(..count) == Some(&bytes::<258>(plain)[..]),
        "plain",
    )?;
    let mut reply = bytes(data);
    if reply.len() > 239 {
        return Err("a data field");
    }
    session.close_reply(&mut reply, Status(status));
    told(reply == bytes(answer), "reply")
}

// The reply is that of the session which has accepted the command: the caller of the crate's documentation.
fn answered<K: BlockKey>(
    session: &mut Session<K>,
    command: &Command<'_>,
    plain: &mut [u8; 255],
    reply: &mut ArrayVec<u8, 258>,
    status: Status,
) -> Result<usize, OpenRefusal>
    requires body { length command.now.body.now ≤ 255 }
    requires field { array_vec_len reply.old ≤ 239 }
    ensures { (s : model.Session) → RepresentsSession session.old s
        → OnOk result (reply.new.items ≡ session_reply (accepting s (apdu_of command.now)) reply.old.items status.0) }
{
    let len = session.open_command(command, plain)?;
    session.close_reply(reply, status);
    Ok(len)
}

/// What comes of GET DATA with a reply of five bytes, and the reply.
fn get_data() -> Told<(Result<usize, OpenRefusal>, ArrayVec<u8, 258>)> {
    let mut session = begin_session::<Aes128>(0, CARD, Level::Full, HOST_FULL)?;
    let sent = bytes::<258>(GET_DATA);
    let command = Command::read(&sent).ok().ok_or("a command")?;
    let mut reply = bytes(b"c103000001");
    if reply.len() > 239 || command.body.len() > 255 {
        return Err("a data field");
    }
    let status = Status(0x9000);
    let len = answered(&mut session, &command, &mut [0; 255], &mut reply, status);
    Ok((len, reply))
}

#[test]
fn an_answered_command(rt: HostRuntime) {
    let reply = bytes::<258>(b"fd75588f5a63ef6905c90d099f369ee91e85fc9247a98b7c9000");
    assert!(rt; get_data() == Ok((Ok(0), reply)));
}

#[test]
fn longer_keys(rt: HostRuntime) {
    let told = [
        longer::<Aes192>(
            (0xa8a2d77b4abb8088, 0xd92bf3e48645bfd3),
            0x2a07cb91e5ccc97e1f144413bab96c93,
            b"84e2900018309ebb53bb7e5d65f006d3d42d5aa379d21c06fa1c8cb3e4",
            b"4d6f06395eda644c0f53932f947ed482396f772363e2e98b9000",
        ),
        longer::<Aes256>(
            (0x52fb20a4a161ef50, 0x42f70f62f52a4741),
            0xfdea76797ec68442cee8dec9c0a01fca,
            b"84e2900018a83107d0bec913d314acc2edfaf55ca3eae409a407a0c48f",
            b"e6b71ae6f23146a1cd47f618ecd59851bfaccd0ee56d5c299000",
        ),
    ];
    assert!(rt; told == [Ok(()), Ok(())]);
}

// The sequence counter is 01FFFE.
fn longer<K: BlockKey>(card: (u64, u64), host: u128, sent: &[u8], answer: &[u8]) -> Told<()> {
    let mut session = begin_session::<K>(0x01fffe, card, Level::Full, host)?;
    exchange(&mut session, sent, answer, b"010203", b"05", 0x9000)
}

/// GET DATA again; another bit in the C-MAC, twice; a byte less of it; seven bytes of it, one, and none.
const WITHOUT_MAC: [&[u8]; 7] = [
    GET_DATA,
    b"84e29000180867aa3310ed241f8fd5673ffbdb823f21b24e18cf970404",
    b"84e29000180867aa3310ed241f8fd5673ffbdb823f21b24e19cf970405",
    b"84e29000170867aa3310ed241f8fd5673ffbdb823f21b24e18cf9704",
    b"84e290000721b24e18cf9704",
    b"84e290000121",
    b"84e29000",
];

/// No byte 80; zeros alone; another byte after 80; fifteen bytes; seventeen.
const WITHOUT_PADDING: [&[u8]; 5] = [
    b"84e290001871c60dbcb03acff42004b9993d548fdbd3b0b3183a271d47",
    b"84e29000189d8af9e0ed0eea6cde39020be3f20fd07547cf39c8c20d08",
    b"84e29000186a51d73ed6c65f2c9d624809bf987ac631b77a98b46cf314",
    b"84e29000170000000000000000000000000000004d5bebe4da1ca1dd",
    b"84e2900019202618d60155e0824624e2b9972ad74f00b08282ff3a296446",
];

/// The second command at level 33: STORE DATA of 010203.
const STORE_DATA: &[u8] = b"84e29000180867aa3310ed241f8fd5673ffbdb823f21b24e18cf970405";

/// Whether each of these commands is refused for this reason.
fn are_refused<K: BlockKey>(session: &mut Session<K>, all: &[&[u8]], why: OpenRefusal) -> bool {
    for sent in all {
        if open(session, sent, &mut [0; 255]) != Some(Err(why)) {
            return false;
        }
    }
    true
}

/// The right command is taken after all that are refused.
#[test]
fn refused_commands(rt: HostRuntime) -> Result<(), Fail> {
    let mut session = begin_session::<Aes128>(0, CARD, Level::Full, HOST_FULL)?;
    let mut plain = [0; 255];
    assert!(rt; open(&mut session, GET_DATA, &mut plain) == Some(Ok(0)));
    assert!(rt; are_refused(&mut session, &WITHOUT_MAC, OpenRefusal::Mac));
    assert!(rt; are_refused(&mut session, &WITHOUT_PADDING, OpenRefusal::Padding));
    assert!(rt; open(&mut session, STORE_DATA, &mut plain) == Some(Ok(3)));
    assert!(rt; plain.starts_with(&[1, 2, 3]));
    Ok(())
}
