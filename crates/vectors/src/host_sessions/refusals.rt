//! What the host refuses, and that nothing changes then.

use super::{GET_DATA, UPDATE, begin_session};
use crate::digits::bytes;
use crate::known_keys::{HOST, LEVELS, static_keys};
use aes_block::Aes128;
use apdu_core::{Command, Status};
use arrayvec::ArrayVec;
use card_types::Level;
use scp03_host::{BeginRefusal, HostSession, ReplyRefusal, begin};
use std::test::Fail;

// Replies to GET DATA at level 33. The right ones are taken after all that are refused.

/// No R-MAC.
const SHORT: [&[u8]; 5] = [b"", b"90", b"9000", b"6310", b"fd75588f5a63ef9000"];

/// A reply in plain; one bit; another status; four bytes; under S-MAC.
const WITHOUT_MAC: [&[u8]; 5] = [
    b"c103000001c1030000019000",
    b"fd75588f5a63ef6905c90d099f369ee91e85fc9247a98b7d9000",
    b"fd75588f5a63ef6905c90d099f369ee91e85fc9247a98b7c6310",
    b"fd75588f5a63ef6905c90d099f369ee91e85fc92000000009000",
    b"fd75588f5a63ef6905c90d099f369ee9d8218fb6322263259000",
];

/// No byte 80; fifteen bytes; a data field of no bytes, enciphered; an error with bytes before it.
const WITHOUT_PADDING: [&[u8]; 4] = [
    b"45acb5d9f443ffde8029f893344b7de18675dac8738a47a79000",
    b"0000000000000000000000000000007240e9b054457f1e9000",
    b"6848e85278c71064b5807d9bb4cf4e37d488c3ef9b7e1ae49000",
    b"006a88",
];

/// A warning without data.
const WARNING: &[u8] = b"26c25bafabf879376310";

/// The sequence counters.
const COUNTERS: &[u8] = b"fd75588f5a63ef6905c90d099f369ee91e85fc9247a98b7c9000";

#[test]
fn offers(rt: HostRuntime) {
    let mut long = [0; 33];
    long[..32].copy_from_slice(&UPDATE);
    // The card challenge and the card cryptogram, a bit in each; the last one is the cryptogram under the keys 50 to 5F.
    let mut first = UPDATE;
    first[13] ^= 1;
    let mut last = UPDATE;
    last[28] ^= 0x80;
    let mut cryptogram = UPDATE;
    cryptogram[21..29].copy_from_slice(b"\x01\xeb\x1a\x21\x68\x5d\x99\x2c");
    let cases: [(&[u8], BeginRefusal); 7] = [
        (&[], BeginRefusal::Short),
        (&UPDATE[..29], BeginRefusal::Short),
        (&UPDATE[..31], BeginRefusal::Short),
        (&long, BeginRefusal::Short),
        (&first, BeginRefusal::CardCryptogram),
        (&last, BeginRefusal::CardCryptogram),
        (&cryptogram, BeginRefusal::CardCryptogram),
    ];
    for (reply, wanted) in cases {
        assert!(rt; refused(reply) == (Some(wanted), true), "{reply:?}");
    }
}

/// Why no session is begun, and whether the buffer stays as it was.
fn refused(reply: &[u8]) -> (Option<BeginRefusal>, bool) {
    let mut out = ArrayVec::new();
    let _fits = out.try_push(0x55);
    let refused = begin::<Aes128>(static_keys(), &HOST, reply, Level::Mac, 0, &mut out).err();
    (refused, out.as_slice() == [0x55].as_slice())
}

/// What comes of a reply, and the data field, in which a byte has stood.
fn unwrapped(
    session: &mut HostSession<Aes128>,
    reply: &[u8],
) -> Option<(Result<Status, ReplyRefusal>, ArrayVec<u8, 256>)> {
    if reply.len() > 258 {
        return None;
    }
    let mut field = ArrayVec::new();
    let _fits = field.try_push(0);
    let status = session.unwrap(reply, &mut field);
    Some((status, field))
}

/// Whether each of these replies is refused for this reason, and leaves no data field.
fn are_refused(session: &mut HostSession<Aes128>, replies: &[&[u8]], why: ReplyRefusal) -> bool {
    for digits in replies {
        let reply: ArrayVec<u8, 258> = bytes(digits);
        if unwrapped(session, &reply) != Some((Err(why), ArrayVec::new())) {
            return false;
        }
    }
    true
}

#[test]
fn replies_at_level_33(rt: HostRuntime) -> Result<(), Fail> {
    let mut out = ArrayVec::new();
    let mut session = begin_session(Level::Full, 0, &mut out)?;
    assert!(rt; session.wrap(&GET_DATA, 0, &mut out) == Ok(()));
    assert!(rt; are_refused(&mut session, &SHORT, ReplyRefusal::Short));
    assert!(rt; are_refused(&mut session, &WITHOUT_MAC, ReplyRefusal::Mac));
    assert!(rt; are_refused(&mut session, &WITHOUT_PADDING, ReplyRefusal::Padding));
    let warning = unwrapped(&mut session, &bytes::<258>(WARNING));
    assert!(rt; warning == Some((Ok(Status(0x6310)), ArrayVec::new())));
    let counters = unwrapped(&mut session, &bytes::<258>(COUNTERS));
    assert!(rt; counters == Some((Ok(Status(0x9000)), bytes(b"c103000001"))));
    Ok(())
}

/// Replies without R-MAC: what comes of each where one is wanted, and the data field and the status where none is.
const WITHOUT_R_MAC: [(&[u8], Result<u16, ReplyRefusal>, &[u8], u16); 7] = [
    (b"\x90\0", Err(ReplyRefusal::Short), b"", 0x9000),
    (b"\x01\x90\0", Err(ReplyRefusal::Short), b"\x01", 0x9000),
    (
        b"12345678\x90\0",
        Err(ReplyRefusal::Mac),
        b"12345678",
        0x9000,
    ),
    (
        b"12345678\x62\x83",
        Err(ReplyRefusal::Mac),
        b"12345678",
        0x6283,
    ),
    (b"\x6a\x88", Ok(0x6a88), b"", 0x6a88),
    (b"\x01\x6a\x88", Err(ReplyRefusal::Padding), b"\x01", 0x6a88),
    (
        b"12345678\x61\x10",
        Err(ReplyRefusal::Padding),
        b"12345678",
        0x6110,
    ),
];

// A reply without R-MAC, at each level.
#[test]
fn plain_replies(rt: HostRuntime) -> Result<(), Fail> {
    let mut out = ArrayVec::new();
    for level in LEVELS {
        let plain = matches!(level, Level::Mac | Level::EncMac);
        let mut session = begin_session(level, 0, &mut out)?;
        for (reply, with_r_mac, body, status) in WITHOUT_R_MAC {
            let (found, field) = unwrapped(&mut session, reply).ok_or("a reply")?;
            let wanted = if plain {
                (Ok(Status(status)), body)
            } else {
                (with_r_mac.map(Status), b"".as_slice())
            };
            assert!(rt; (found, field.as_slice()) == wanted, "{level:?} {reply:?}");
        }
    }
    Ok(())
}
