//! What the sessions of these tests have in common: the static keys, which begin with 40, the host challenge 00 to 07, and the
//! AID A000000151000000 of the Issuer Security Domain. All values were computed apart from this project, by a script over the
//! CMAC and the AES of OpenSSL.

ghost use Rattle.std.specs.Prelude.{◌≤◌};

use crate::told::Told;
use aes_block::BlockKey;
use apdu_core::Command;
use card_types::{Aid, Level};
use scp03_card::{Offer, Session, StaticKeys, offer};

/// The bytes 40 to 5F. A key has as many of them as it is long.
const STATIC_KEY: [u8; 32] = *b"@ABCDEFGHIJKLMNOPQRSTUVWXYZ[\\]^_";

pub const HOST: [u8; 8] = [0, 1, 2, 3, 4, 5, 6, 7];

pub const AID: [u8; 8] = *b"\xa0\0\0\x01\x51\0\0\0";

/// The levels, from C-MAC alone up to all.
pub const LEVELS: [Level; 5] = [
    Level::Mac,
    Level::EncMac,
    Level::MacR,
    Level::EncMacR,
    Level::Full,
];

/// Key-ENC, Key-MAC or Key-DEK: they are the same.
pub fn static_key<K: BlockKey>() -> K {
    key_of_first(&STATIC_KEY)
}

fn key_of_first<K: BlockKey>(bytes: &[u8; 32]) -> K {
    K::from_key(&bytes[..K::LEN])
}

pub fn static_keys<K: BlockKey>() -> StaticKeys<K> {
    StaticKeys {
        enc: static_key(),
        mac: static_key(),
        dek: static_key(),
    }
}

/// What the card offers at this sequence counter.
pub fn offered<K: BlockKey>(counter: u32) -> Told<Offer<K>>
    requires { counter ≤ 0xFFFFFF }
{
    let aid = Aid::new(&AID).ok_or("an AID")?;
    Ok(offer(static_keys(), counter, &aid, &HOST))
}

/// The session that the card has begun, after the EXTERNAL AUTHENTICATE that was sent.
pub fn begun<K: BlockKey>(offer: Offer<K>, level: Level, sent: &[u8]) -> Told<Session<K>> {
    let command = Command::read(sent).ok().ok_or("a command")?;
    let body = command.body.try_into().ok().ok_or("a body")?;
    offer
        .authenticate(level, body)
        .ok()
        .ok_or("host cryptogram and C-MAC at the card")
}
