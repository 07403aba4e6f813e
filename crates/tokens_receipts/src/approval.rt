//! Tokens.

ghost use Rattle.std.specs.Prelude.{◌≡◌, ◌↔◌, ◌≤◌, IsTrue, length};
ghost use Rattle.tokens_receipts.specs.Token as approved;

use aes_block::BlockKey;
use cmac_kdf::{CmacKey, Mac};

/// The token under a key of a command with this P1 and P2 and these bytes of its data field before the token.
pub fn token<K: BlockKey>(key: &K, p1: u8, p2: u8, before: &[u8]) -> [u8; 16]
    requires short { length before.now ≤ 255 }
    ensures { result ≡ approved.token (K.key_bytes key.now) p1 p2 before.now }
{
    let mut mac = Mac::new(key);
    mac.feed(&[p1, p2, before.len() as u8]);
    mac.feed(before);
    mac.finish()
}

/// The same token under a key that keeps its subkeys.
pub fn token_under<K: BlockKey>(key: &CmacKey<K>, p1: u8, p2: u8, before: &[u8]) -> [u8; 16]
    requires short { length before.now ≤ 255 }
    ensures { result ≡ approved.token key.now p1 p2 before.now }
{
    let mut state = key.start();
    key.feed(&mut state, &[p1, p2, before.len() as u8]);
    key.feed(&mut state, before);
    key.finish(&state)
}

/// Whether it is that token. A token of another length is none.
pub fn token_fits<K: BlockKey>(key: &K, p1: u8, p2: u8, before: &[u8], given: &[u8]) -> bool
    requires short { length before.now ≤ 255 }
    ensures { IsTrue result ↔ (given.now ≡ approved.token (K.key_bytes key.now) p1 p2 before.now) }
{
    given == token(key, p1, p2, before).as_slice()
}
