//! Keys of AES (this profile's own).

ghost use Rattle.script_lines.specs.Prelude.{Reads, SpellKeys, SpellTrio, SpellsKey, remaining_words};

use crate::values::array;
use crate::words::Words;

/// A thing of AES-128, AES-192 or AES-256: of keys of 16, 24 or 32 bytes.
#[derive(Clone, Copy, Drop)]
pub enum OfSize<A, B, C> {
    Aes128(A),
    Aes192(B),
    Aes256(C),
}

/// A key.
pub type Key = OfSize<[u8; 16], [u8; 24], [u8; 32]>;

/// Key-ENC, Key-MAC and Key-DEK, of `N` bytes each.
#[derive(Clone, Copy)]
pub struct Trio<const N: usize> {
    pub enc: [u8; N],
    pub mac: [u8; N],
    pub dek: [u8; N],
}

/// The static keys of a host.
pub type Keys = OfSize<Trio<16>, Trio<24>, Trio<32>>;

/// A key of one of the three lengths.
#[tactic(auto, unfolding(crate::specs::Keys::SpellsKey))]
pub fn key(word: &[u8]) -> Option<Key>
    ensures { Reads (SpellsKey word.now) result }
{
    if let Some(key) = array(word) {
        return Some(OfSize::Aes128(key));
    }
    if let Some(key) = array(word) {
        return Some(OfSize::Aes192(key));
    }
    if let Some(key) = array(word) {
        return Some(OfSize::Aes256(key));
    }
    None
}

/// Three keys of `N` bytes.
pub fn three_keys<const N: usize>(mut words: Words<'_>) -> Option<Trio<N>>
    ensures { Reads (SpellTrio N (remaining_words words.entry)) result }
{
    let enc = array(words.take()?)?;
    let mac = array(words.take()?)?;
    let dek = array(words.last()?)?;
    Some(Trio { enc, mac, dek })
}

/// Reads `ENC MAC DEK`, the words after `keys`: three keys of one length.
pub fn read(words: Words<'_>) -> Option<Keys>
    ensures { Reads (SpellKeys (remaining_words words.entry)) result }
{
    if let Some(keys) = three_keys(words) {
        return Some(OfSize::Aes128(keys));
    }
    if let Some(keys) = three_keys(words) {
        return Some(OfSize::Aes192(keys));
    }
    if let Some(keys) = three_keys(words) {
        return Some(OfSize::Aes256(keys));
    }
    None
}
