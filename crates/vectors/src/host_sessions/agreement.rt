//! A host and a card that stand for one session.

ghost use Rattle.std.specs.Prelude.{◌≡◌, ◌<◌, ◌≤◌, length, take, IsSomeAnd};
ghost use Rattle.apdu_core.specs.Apdu.{apdu_of};
ghost use Rattle.cmac_kdf.specs.Blocks.{IsBytes};
ghost use Rattle.scp03_card.specs.Kept.{RepresentsSession};
ghost use Rattle.scp03_card.specs.Session as model;
ghost use Rattle.scp03_host.specs.Agreement.{StandFor, told_field};
ghost use Rattle.scp03_host.specs.Wrapped.{having_sent};

use crate::known_keys::{HOST, LEVELS, begun, offered, static_keys};
use crate::told::Told;
use aes_block::{Aes128, Aes192, Aes256, BlockKey};
use apdu_core::{Command, Status};
use arrayvec::ArrayVec;
use card_types::Level;
use scp03_card::{Offer, Session};
use scp03_host::{HostSession, begin};

// The host sends a command, and the card opens it: the first caller of the crate's documentation.
fn deliver<K: BlockKey>(
    host: &mut HostSession<K>,
    card: &mut Session<K>,
    command: &Command<'_>,
    field: &mut [u8; 255],
) -> Option<usize>
    requires { length command.now.body.now ≤ 239 }
    ensures { (session : model.Session) → IsBytes command.now.body.now → RepresentsSession host.old session → RepresentsSession card.old session
        → IsSomeAnd result (λ n. (take n field.new ≡ command.now.body.now) × StandFor host.new card.new (having_sent session (apdu_of command.now))) }
{
    let mut sent = ArrayVec::new();
    let Ok(()) = host.wrap(command, 0, &mut sent) else {
        return None;
    };
    let Ok(received) = Command::read(&sent) else {
        return None;
    };
    let Ok(len) = card.open_command(&received, field) else {
        return None;
    };
    Some(len)
}

// The card answers, and the host is told what it answered: the second one.
fn answer<K: BlockKey>(
    host: &mut HostSession<K>,
    card: &mut Session<K>,
    field: &[u8],
    status: Status,
    told: &mut ArrayVec<u8, 256>,
) -> Option<Status>
    requires { length field.now ≤ 239 }
    ensures told { (session : model.Session) → RepresentsSession host.old session → RepresentsSession card.old session
        → (result ≡ Some status) × (told.new.items ≡ told_field session field.now status.0) }
    ensures unchanged { (host.new ≡ host.old) × (card.new ≡ card.old) }
{
    let mut reply = plain_reply(field);
    card.close_reply(&mut reply, status);
    host.unwrap(&reply, told).ok()
}

fn plain_reply(field: &[u8]) -> ArrayVec<u8, 258>
    requires { length field.now ≤ 239 }
    ensures { result.items ≡ field.now }
{
    let mut reply = ArrayVec::new();
    reply.try_extend_from_slice(field).unwrap();
    reply
}

// A command and its reply, at each level and for each length of keys.
#[test]
fn both_ends(rt: HostRuntime) {
    for level in LEVELS {
        let told = [
            talk::<Aes128>(level),
            talk::<Aes192>(level),
            talk::<Aes256>(level),
        ];
        assert!(rt; told == [Ok(()); 3], "{level:?}");
    }
}

/// The data field that the card answers to INITIALIZE UPDATE, as far as the host reads it.
fn update_reply<K: BlockKey>(offer: &Offer<K>) -> [u8; 32] {
    let mut reply = [0; 32];
    reply[13..21].copy_from_slice(&offer.challenge());
    reply[21..29].copy_from_slice(&offer.cryptogram());
    reply
}

/// The host side, with EXTERNAL AUTHENTICATE in `out`.
fn begun_host<K: BlockKey>(
    level: Level,
    update: &[u8; 32],
    out: &mut ArrayVec<u8, 261>,
) -> Told<HostSession<K>> {
    begin(static_keys(), &HOST, update, level, 0, out)
        .ok()
        .ok_or("the card's cryptogram")
}

/// A command with the first part of these bytes, and a reply with the rest.
fn exchange<K: BlockKey>(
    host: &mut HostSession<K>,
    card: &mut Session<K>,
    bytes: &[u8; 239],
    len: u8,
) -> Told<()>
    requires { len ≤ 239 }
{
    let sent = &bytes[..usize::from(len)];
    let reply = &bytes[usize::from(len)..];
    let command = Command {
        class: 0x80,
        ins: 0xe2,
        p1: 0x90,
        p2: len,
        body: sent,
        le: None,
    };
    let mut field = [0; 255];
    let count = deliver(host, card, &command, &mut field).ok_or("opened")?;
    if field.get(..count) != Some(sent) {
        return Err("the plain data field");
    }
    let mut told = ArrayVec::new();
    let status = answer(host, card, reply, Status(0x9000), &mut told);
    if (status, told.as_slice()) != (Some(Status(0x9000)), reply) {
        return Err("the plain reply");
    }
    Ok(())
}

/// A session of as many commands as there are lengths of a data field, with a reply of each length.
fn talk<K: BlockKey>(level: Level) -> Told<()> {
    let offer = offered::<K>(0x01fffe)?;
    let mut out = ArrayVec::new();
    let mut host = begun_host(level, &update_reply(&offer), &mut out)?;
    let mut card = begun(offer, level, &out)?;
    for len in 0..=239 {
        exchange(&mut host, &mut card, &[0x5a; 239], len)?;
    }
    Ok(())
}
