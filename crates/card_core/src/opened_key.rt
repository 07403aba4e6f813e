//! A key that was sent under a Key-DEK (GlobalPlatform Card Specification 2.3.1, 11.8; Amendment D, 7.2).

ghost use Rattle.std.specs.Prelude.{◌≡◌, ◌≤◌, ◌↔◌, IsTrue, length, take};
ghost use Rattle.card_core.specs.Prelude.{IsBytes, IsKeyLength, IsKeySent, check_value, sealed_size, sent_key};

use aes_block::{BlockKey, SealingAes128, SealingAes192, SealingAes256};
use arrayvec::ArrayVec;
use cmac_kdf::cbc_unseal_blocks;
use policy_rules::SealedKey;

/// A key that was sent, and whether its check value is that of the key.
#[derive(Drop)]
pub struct OpenedKey {
    pub bytes: ArrayVec<u8, 32>,
    pub fits: bool,
}

// The first three bytes of the cipher of sixteen bytes 01, under a key of one length.
fn check_value_with<K: BlockKey>(key: &[u8]) -> [u8; 3]
    requires length { length key.now ≡ K.LEN }
    ensures value { result ≡ check_value key.now }
{
    let mut block = [0x01; 16];
    K::from_key(key).seal(&mut block);
    let [first, second, third, ..] = block;
    [first, second, third]
}

// Whether it is the check value of a key.
fn is_check_value(key: &[u8], check: &[u8]) -> bool
    requires length { IsKeyLength (length key.now) }
    ensures tells { IsTrue result ↔ (check_value key.now ≡ check.now) }
{
    let value = match key.len() {
        16 => check_value_with::<SealingAes128>(key),
        24 => check_value_with::<SealingAes192>(key),
        _ => check_value_with::<SealingAes256>(key),
    };
    value.as_slice() == check
}

// The key at the front of the deciphered blocks. What fills the last block is dropped.
fn opened(blocks: &[u8], sent: &SealedKey<'_>) -> OpenedKey
    requires size { IsKeyLength sent.now.len }
    requires whole { sent.now.len ≤ length blocks.now }
    ensures key { result.bytes.items ≡ take sent.now.len blocks.now }
    ensures bytes { IsBytes blocks.now }
    ensures fits { IsTrue result.fits ↔ (check_value result.bytes.items ≡ sent.now.check.now) }
{
    let key = &blocks[..usize::from(sent.len)];
    let mut bytes = ArrayVec::new();
    bytes.try_extend_from_slice(key).unwrap();
    OpenedKey {
        bytes,
        fits: is_check_value(key, sent.check),
    }
}

/// The key that was sent under the Key-DEK.
pub fn open_key<K: BlockKey>(dek: &K, sent: &SealedKey<'_>) -> OpenedKey
    requires size { IsKeyLength sent.now.len }
    requires sealed { length sent.now.sealed.now ≡ sealed_size sent.now.len }
    ensures key { IsKeySent (K.key_bytes dek.now) (sent_key sent.now) result.bytes.items }
    ensures fits { IsTrue result.fits ↔ (check_value result.bytes.items ≡ sent.now.check.now) }
{
    let mut blocks = [0; 32];
    let blocks = &mut blocks[..sent.sealed.len()];
    blocks.copy_from_slice(sent.sealed);
    cbc_unseal_blocks(dek, &[0; 16], blocks);
    opened(blocks, sent)
}
