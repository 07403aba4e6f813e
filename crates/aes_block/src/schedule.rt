// The key schedule.

ghost use Rattle.std.specs.Prelude.{◌≡◌, ◌+◌, ◌-◌, ◌*◌, ◌/◌, ◌<◌, ◌≤◌, length};
ghost use Rattle.aes_block.specs.Cipher.{IsAesKeyLength};
ghost use Rattle.aes_block.specs.Words.{key_word, key_words, schedule_core, sub_word};

use crate::column::{first, fourth, second, third};
use crate::tables::{ROUND_CONSTANTS, substitute};

/// The words of the longest key schedule, of fourteen rounds. A shorter one stands in front of
/// unused words.
pub const MOST_WORDS: usize = 60;

fn word_at(key: &[u8], i: usize) -> u32
    requires { i + 4 ≤ length key.now }
    ensures { result ≡ key_word key.now i }
{
    u32::from_be_bytes([key[i], key[i + 1], key[i + 2], key[i + 3]])
}

fn substituted(word: u32) -> u32
    ensures { result ≡ sub_word word }
{
    u32::from_be_bytes([
        substitute(first(word)),
        substitute(second(word)),
        substitute(third(word)),
        substitute(fourth(word)),
    ])
}

// What the word `key_len` places before word `i` is xored with, where the key has `key_len` words.
fn carried(key_len: usize, i: usize, before: u32) -> u32
    requires any { 0 < key_len }
    requires low { key_len ≤ i }
    requires high { i < 11 * key_len }
    ensures { result ≡ schedule_core key_len i before }
{
    if i % key_len == 0 {
        substituted(before.rotate_left(8)) ^ (ROUND_CONSTANTS[i / key_len - 1] as u32) << 24
    } else if key_len == 8 && i % 8 == 4 {
        substituted(before)
    } else {
        before
    }
}

/// KEYEXPANSION (FIPS 197, 5.2), for a key of 16, 24 or 32 bytes.
pub fn expand(key: &[u8], words: &mut [u32])
    requires standard { IsAesKeyLength (length key.now) }
    requires whole { length words.old ≡ length key.now + 28 }
    ensures { words.new ≡ key_words key.now }
{
    let key_len = key.len() / 4;
    'first: for i in 0..key_len {
        words[i] = word_at(key, 4 * i);
    }
    'next: for i in 0..words.len() - key_len {
        words[key_len + i] = words[i] ^ carried(key_len, key_len + i, words[key_len + i - 1]);
    }
}
