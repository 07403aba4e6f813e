// One column of the state as a word, whose highest byte is the first row's, and a round's step on it.

ghost use Rattle.std.specs.Prelude.{◌≡◌, ◌<◌, [], ◌∷◌, bit_xor};
ghost use Rattle.std.specs.Int.{byte_at};
ghost use Rattle.aes_block.specs.Cipher.{xor_bytes};
ghost use Rattle.aes_block.specs.Field.{times};
ghost use Rattle.aes_block.specs.Inverse.{inv_sbox};
ghost use Rattle.aes_block.specs.Sbox.{sbox};
ghost use Rattle.aes_block.specs.Words.{word_bytes};

use crate::seal_table::{sealing_first, sealing_fourth, sealing_second, sealing_third};
use crate::tables::{substitute, substitute_back};
use crate::unseal_table::{unsealing_first, unsealing_fourth, unsealing_second, unsealing_third};

#[inline(always)]
pub fn first(word: u32) -> usize
    ensures value { result ≡ byte_at 3 word }
    ensures byte { result < 256 }
{
    (word >> 24) as usize
}

#[inline(always)]
pub fn second(word: u32) -> usize
    ensures value { result ≡ byte_at 2 word }
    ensures byte { result < 256 }
{
    (word >> 16 & 0xff) as usize
}

#[inline(always)]
pub fn third(word: u32) -> usize
    ensures value { result ≡ byte_at 1 word }
    ensures byte { result < 256 }
{
    (word >> 8 & 0xff) as usize
}

#[inline(always)]
pub fn fourth(word: u32) -> usize
    ensures value { result ≡ byte_at 0 word }
    ensures byte { result < 256 }
{
    (word & 0xff) as usize
}

/// What the bytes of one column add to the columns that they are turned to, by their rows.
#[derive(Clone, Copy)]
pub struct Shares {
    pub first: u32,
    pub second: u32,
    pub third: u32,
    pub fourth: u32,
}

/// What a column adds in a round of `seal`.
#[inline(always)]
pub fn sealing_shares(word: u32) -> Shares
    ensures first { word_bytes result.first ≡ times 2 (sbox (byte_at 3 word)) ∷ times 1 (sbox (byte_at 3 word)) ∷ times 1 (sbox (byte_at 3 word)) ∷ times 3 (sbox (byte_at 3 word)) ∷ [] }
    ensures second { word_bytes result.second ≡ times 3 (sbox (byte_at 2 word)) ∷ times 2 (sbox (byte_at 2 word)) ∷ times 1 (sbox (byte_at 2 word)) ∷ times 1 (sbox (byte_at 2 word)) ∷ [] }
    ensures third { word_bytes result.third ≡ times 1 (sbox (byte_at 1 word)) ∷ times 3 (sbox (byte_at 1 word)) ∷ times 2 (sbox (byte_at 1 word)) ∷ times 1 (sbox (byte_at 1 word)) ∷ [] }
    ensures fourth { word_bytes result.fourth ≡ times 1 (sbox (byte_at 0 word)) ∷ times 1 (sbox (byte_at 0 word)) ∷ times 3 (sbox (byte_at 0 word)) ∷ times 2 (sbox (byte_at 0 word)) ∷ [] }
{
    Shares {
        first: sealing_first(first(word)),
        second: sealing_second(second(word)),
        third: sealing_third(third(word)),
        fourth: sealing_fourth(fourth(word)),
    }
}

/// What a column adds in a round of `unseal`.
#[inline(always)]
pub fn unsealing_shares(word: u32) -> Shares
    ensures first { word_bytes result.first ≡ times 0x0e (inv_sbox (byte_at 3 word)) ∷ times 0x09 (inv_sbox (byte_at 3 word)) ∷ times 0x0d (inv_sbox (byte_at 3 word)) ∷ times 0x0b (inv_sbox (byte_at 3 word)) ∷ [] }
    ensures second { word_bytes result.second ≡ times 0x0b (inv_sbox (byte_at 2 word)) ∷ times 0x0e (inv_sbox (byte_at 2 word)) ∷ times 0x09 (inv_sbox (byte_at 2 word)) ∷ times 0x0d (inv_sbox (byte_at 2 word)) ∷ [] }
    ensures third { word_bytes result.third ≡ times 0x0d (inv_sbox (byte_at 1 word)) ∷ times 0x0b (inv_sbox (byte_at 1 word)) ∷ times 0x0e (inv_sbox (byte_at 1 word)) ∷ times 0x09 (inv_sbox (byte_at 1 word)) ∷ [] }
    ensures fourth { word_bytes result.fourth ≡ times 0x09 (inv_sbox (byte_at 0 word)) ∷ times 0x0d (inv_sbox (byte_at 0 word)) ∷ times 0x0b (inv_sbox (byte_at 0 word)) ∷ times 0x0e (inv_sbox (byte_at 0 word)) ∷ [] }
{
    Shares {
        first: unsealing_first(first(word)),
        second: unsealing_second(second(word)),
        third: unsealing_third(third(word)),
        fourth: unsealing_fourth(fourth(word)),
    }
}

/// A column of the next state, of its round key and of a share of each row.
#[inline(always)]
pub fn summed(key: u32, first: u32, second: u32, third: u32, fourth: u32) -> u32
    ensures { result ≡ bit_xor (bit_xor (bit_xor (bit_xor key first) second) third) fourth }
{
    key ^ first ^ second ^ third ^ fourth
}

/// A column of the last round of `seal`.
#[inline(always)]
pub fn last_sealed_column(a: u32, b: u32, c: u32, d: u32, key: u32) -> u32
    ensures { word_bytes result ≡ xor_bytes (sbox (byte_at 3 a) ∷ sbox (byte_at 2 b) ∷ sbox (byte_at 1 c) ∷ sbox (byte_at 0 d) ∷ []) (word_bytes key) }
{
    let bytes = [
        substitute(first(a)),
        substitute(second(b)),
        substitute(third(c)),
        substitute(fourth(d)),
    ];
    u32::from_be_bytes(bytes) ^ key
}

/// A column of the last round of `unseal`.
#[inline(always)]
pub fn last_unsealed_column(a: u32, b: u32, c: u32, d: u32, key: u32) -> u32
    ensures { word_bytes result ≡ xor_bytes (inv_sbox (byte_at 3 a) ∷ inv_sbox (byte_at 2 b) ∷ inv_sbox (byte_at 1 c) ∷ inv_sbox (byte_at 0 d) ∷ []) (word_bytes key) }
{
    let bytes = [
        substitute_back(first(a)),
        substitute_back(second(b)),
        substitute_back(third(c)),
        substitute_back(fourth(d)),
    ];
    u32::from_be_bytes(bytes) ^ key
}
