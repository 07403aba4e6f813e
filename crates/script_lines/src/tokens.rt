//! The tokens of later commands (GlobalPlatform Card Specification 2.3.1, 9.2 and C.4).

ghost use Rattle.std.specs.Prelude.{◌≡◌, ◌≤◌, codes, length};
ghost use Rattle.tokens_receipts.specs.Token as approved;
ghost use Rattle.script_lines.specs.Prelude.{Reads, SaysTokens, remaining_words, sized_key, token_made, token_verb};

use crate::keys::{Key, OfSize, key};
use crate::words::Words;
use aes_block::{BlockKey, SealingAes128, SealingAes192, SealingAes256};
use tokens_receipts::token;

/// The tokens that later commands carry: none, tokens under a key, or such tokens with the lowest bit of
/// their last byte turned.
#[derive(Clone, Copy)]
pub enum Tokens {
    Absent,
    Made(Key),
    Damaged(Key),
}

// The token under a key.
fn token_under(key: &Key, p1: u8, p2: u8, before: &[u8]) -> [u8; 16]
    requires { length before.now ≤ 255 }
    ensures { result ≡ approved.token (sized_key key.now) p1 p2 before.now }
{
    match key {
        OfSize::Aes128(key) => token(&SealingAes128::from_key(key), p1, p2, before),
        OfSize::Aes192(key) => token(&SealingAes192::from_key(key), p1, p2, before),
        OfSize::Aes256(key) => token(&SealingAes256::from_key(key), p1, p2, before),
    }
}

impl Tokens {
    /// The token of a command, if it carries one, by P1, P2 and what stands before the token in the data field.
    pub fn token(&self, p1: u8, p2: u8, before: &[u8]) -> Option<[u8; 16]>
        requires { length before.now ≤ 255 }
        ensures { result ≡ token_made self.now p1 p2 before.now }
    {
        match self {
            Tokens::Absent => None,
            Tokens::Made(key) => Some(token_under(key, p1, p2, before)),
            Tokens::Damaged(key) => {
                let mut token = token_under(key, p1, p2, before);
                token[15] ^= 1;
                Some(token)
            }
        }
    }
}

/// Reads `none` or `KEY`, the word after `tokenkey`.
pub fn read(words: Words<'_>) -> Option<Tokens>
    ensures { Reads (λ tokens. (token_verb tokens ≡ codes "tokenkey") × SaysTokens (remaining_words words.entry) tokens) result }
{
    let word = words.last()?;
    if word == b"none".as_slice() {
        return Some(Tokens::Absent);
    }
    let key = key(word)?;
    Some(Tokens::Made(key))
}

/// Reads `KEY`, the word after `badtoken`.
pub fn read_damaged(words: Words<'_>) -> Option<Tokens>
    ensures { Reads (λ tokens. (token_verb tokens ≡ codes "badtoken") × SaysTokens (remaining_words words.entry) tokens) result }
{
    let key = key(words.last()?)?;
    Some(Tokens::Damaged(key))
}
