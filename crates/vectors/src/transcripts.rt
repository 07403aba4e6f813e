//! Sessions of SCP03 with every value in between: those that are derived, and what both ends send.
//!
//! The keys of each length have a table. Its lines are, in digits: a block of zeros enciphered by Key-DEK, the data field of the
//! reply to INITIALIZE UPDATE, the host cryptogram, S-ENC, S-MAC and S-RMAC; and then at each level EXTERNAL AUTHENTICATE, and each
//! command with its reply as they are sent, with C-MAC, R-MAC and status word. The sequence counter is 000000.

ghost use Rattle.std.specs.Prelude.{◌<◌, ◌≤◌};

mod keys_of_16;
mod keys_of_24;
mod keys_of_32;
mod plain;
mod table;
mod values;

use crate::known_keys::{HOST, LEVELS, begun, offered, static_keys};
use crate::told::{Told, told};
use aes_block::{Aes128, Aes192, Aes256, BlockKey};
use apdu_core::Command;
use arrayvec::ArrayVec;
use card_types::Level;
use keys_of_16::KEYS_OF_16;
use keys_of_24::KEYS_OF_24;
use keys_of_32::KEYS_OF_32;
use plain::{COMMANDS, PLAIN, Plain};
use scp03_card::Session;
use scp03_host::{HostSession, begin};
use table::Table;
use values::{Values, derivations};

/// Whether a block of zeros, enciphered by this key, is this.
fn enciphers_zeros_to<K: BlockKey>(key: &K, wanted: &[u8]) -> bool {
    let mut block = [0; 16];
    key.seal(&mut block);
    block.as_slice() == wanted
}

/// The host side, with EXTERNAL AUTHENTICATE in `out`.
fn begun_host<K: BlockKey>(
    values: &Values,
    level: Level,
    out: &mut ArrayVec<u8, 261>,
) -> Told<HostSession<K>> {
    let host = begin(static_keys(), &HOST, &values.update, level, 0, out)
        .ok()
        .ok_or("card cryptogram at the host")?;
    told(host.level() == level, "the level at the host")?;
    let is_dek = enciphers_zeros_to(host.dek(), &values.zeros);
    told(is_dek, "Key-DEK at the host")?;
    Ok(host)
}

/// The card side, after it.
fn begun_card<K: BlockKey>(values: &Values, level: Level, sent: &[u8]) -> Told<Session<K>> {
    let card = begun::<K>(offered(0)?, level, sent)?;
    told(card.level() == level, "the level at the card")?;
    let is_dek = enciphers_zeros_to(card.dek(), &values.zeros);
    told(is_dek, "Key-DEK at the card")?;
    Ok(card)
}

/// The host sends a command.
fn wrapped<K: BlockKey>(
    host: &mut HostSession<K>,
    plain: &Plain,
    wanted: &[u8],
) -> Told<ArrayVec<u8, 261>> {
    let command = Command::read(&plain.command).ok().ok_or("a command")?;
    if plain.channel > 3 {
        return Err("a channel");
    }
    let mut out = ArrayVec::new();
    host.wrap(&command, plain.channel, &mut out)
        .ok()
        .ok_or("room")?;
    told(out.as_slice() == wanted, "the command as it is sent")?;
    Ok(out)
}

/// The card opens a command, and finds the data field of the one in plain.
fn opened<K: BlockKey>(card: &mut Session<K>, sent: &[u8], plain: &Plain) -> Told<()> {
    let received = Command::read(sent).ok().ok_or("a command")?;
    let mut field = [0; 255];
    let len = card
        .open_command(&received, &mut field)
        .ok()
        .ok_or("the command at the card")?;
    let command = Command::read(&plain.command).ok().ok_or("a command")?;
    told(
        field.get(..len) == Some(command.body),
        "the data field at the card",
    )
}

/// The card sends a reply.
fn closed<K: BlockKey>(
    card: &mut Session<K>,
    plain: &Plain,
    wanted: &[u8],
) -> Told<ArrayVec<u8, 258>> {
    let mut reply = ArrayVec::new();
    reply
        .try_extend_from_slice(&plain.field)
        .ok()
        .ok_or("room")?;
    card.close_reply(&mut reply, plain.status);
    told(reply.as_slice() == wanted, "the reply as it is sent")?;
    Ok(reply)
}

/// The host unwraps a reply. It has no data field where no more than a status word was sent.
fn unwrapped<K: BlockKey>(
    host: &mut HostSession<K>,
    sent: &ArrayVec<u8, 258>,
    plain: &Plain,
) -> Told<()> {
    let mut field = ArrayVec::new();
    let status = host.unwrap(sent, &mut field).ok();
    told(status == Some(plain.status), "the status at the host")?;
    let wanted: &[u8] = if sent.len() == 2 { b"" } else { &plain.field };
    told(field.as_slice() == wanted, "the data field at the host")
}

/// The next of the commands with its reply, both as they are sent: two lines.
fn exchange<K: BlockKey>(
    host: &mut HostSession<K>,
    card: &mut Session<K>,
    commands: &mut Table<'_>,
    table: &mut Table<'_>,
) -> Told<()> {
    let plain = Plain::read(commands)?;
    let command = wrapped(host, &plain, &table.next()?)?;
    opened(card, &command, &plain)?;
    let reply = closed(card, &plain, &table.next()?)?;
    unwrapped(host, &reply, &plain)
}

/// The lines of a level: EXTERNAL AUTHENTICATE, and each command with its reply.
fn play<K: BlockKey>(values: &Values, level: Level, table: &mut Table<'_>) -> Told<()> {
    let mut out = ArrayVec::new();
    let mut host: HostSession<K> = begun_host(values, level, &mut out)?;
    let authenticate = table.next()?;
    told(out.as_slice() == authenticate.as_slice(), "authenticate")?;
    let mut card: Session<K> = begun_card(values, level, &out)?;
    let mut commands = Table::new(PLAIN);
    for _ in 0..COMMANDS {
        exchange(&mut host, &mut card, &mut commands, table)?;
    }
    Ok(())
}

/// The keys have `N` bytes.
fn play_all<K: BlockKey, const N: usize>(text: &[u8]) -> Result<(), (Option<Level>, &'static str)>
    requires some { 0 < N }
    requires most { N ≤ 32 }
{
    let mut table = Table::new(text);
    let values = Values::read(&mut table).map_err(|what| (None, what))?;
    derivations::<K, N>(&values).map_err(|what| (None, what))?;
    for level in LEVELS {
        play::<K>(&values, level, &mut table).map_err(|what| (Some(level), what))?;
    }
    Ok(())
}

#[test]
fn keys_of_each_length(rt: HostRuntime) {
    assert!(rt; play_all::<Aes128, 16>(KEYS_OF_16) == Ok(()));
    assert!(rt; play_all::<Aes192, 24>(KEYS_OF_24) == Ok(()));
    assert!(rt; play_all::<Aes256, 32>(KEYS_OF_32) == Ok(()));
}
