//! Keys of AES of whichever length, and what is made under them.

ghost use Rattle.std.specs.Prelude.{◌≡◌, ◌↔◌, ◌≤◌, IsTrue, MatchOption, length};
ghost use Rattle.std.specs.Option.{option_copied};
ghost use Rattle.card_types.specs.Well.{IsKeyLength};
ghost use Rattle.script_tool.specs.Tokens.{sized_key};
ghost use Rattle.tokens_receipts.specs.Receipt as confirmed;
ghost use Rattle.tokens_receipts.specs.Receipt.{aids_of};
ghost use Rattle.tokens_receipts.specs.Token as approved;

use aes_block::{BlockKey, SealingAes128, SealingAes192, SealingAes256};
use arrayvec::ArrayVec;
use card_types::Aid;
use cmac_kdf::CmacKey;
use script_tool::{Key, OfSize};
use tokens_receipts::receipt_under;

/// A key with its key schedule and the subkeys of CMAC made.
pub type MadeKey = OfSize<CmacKey<SealingAes128>, CmacKey<SealingAes192>, CmacKey<SealingAes256>>;

/// The key with these bytes.
pub fn key_from(bytes: &[u8]) -> Option<Key>
    ensures { MatchOption result (IsKeyLength (length bytes.now) → ⊥) (λ key. sized_key key ≡ bytes.now) }
{
    match bytes.len() {
        16 => Some(OfSize::Aes128(bytes.try_into().ok()?)),
        24 => Some(OfSize::Aes192(bytes.try_into().ok()?)),
        32 => Some(OfSize::Aes256(bytes.try_into().ok()?)),
        _ => None,
    }
}

/// Makes the key schedule and the subkeys.
pub fn made(key: &Key) -> MadeKey
    ensures { sized_key result ≡ sized_key key.now }
{
    match key {
        OfSize::Aes128(key) => OfSize::Aes128(CmacKey::new(SealingAes128::from_key(key))),
        OfSize::Aes192(key) => OfSize::Aes192(CmacKey::new(SealingAes192::from_key(key))),
        OfSize::Aes256(key) => OfSize::Aes256(CmacKey::new(SealingAes256::from_key(key))),
    }
}

/// The token under a key.
pub fn token_under(key: &MadeKey, p1: u8, p2: u8, before: &[u8]) -> [u8; 16]
    requires short { length before.now ≤ 255 }
    ensures { result ≡ approved.token (sized_key key.now) p1 p2 before.now }
{
    match key {
        OfSize::Aes128(key) => tokens_receipts::token_under(key, p1, p2, before),
        OfSize::Aes192(key) => tokens_receipts::token_under(key, p1, p2, before),
        OfSize::Aes256(key) => tokens_receipts::token_under(key, p1, p2, before),
    }
}

/// Whether a data field is the receipt under a key.
pub fn receipt_fits(
    key: &MadeKey,
    number: u16,
    unique: &[u8],
    first: &Aid,
    second: Option<&Aid>,
    third: Option<&Aid>,
    given: &[u8],
) -> bool
    requires short { length unique.now ≤ 20 }
    ensures { IsTrue result ↔ (given.now ≡ confirmed.receipt (sized_key key.now) number unique.now
        (aids_of first.now (option_copied second.entry) (option_copied third.entry))) }
{
    let mut wanted = ArrayVec::new();
    match key {
        OfSize::Aes128(key) => {
            receipt_under(key, number, unique, first, second, third, &mut wanted)
        }
        OfSize::Aes192(key) => {
            receipt_under(key, number, unique, first, second, third, &mut wanted)
        }
        OfSize::Aes256(key) => {
            receipt_under(key, number, unique, first, second, third, &mut wanted)
        }
    }
    given == wanted.as_slice()
}
