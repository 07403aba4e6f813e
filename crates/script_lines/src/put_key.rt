//! Keys to put (GlobalPlatform Card Specification 2.3.1, 11.8; Amendment D, 7.2).

ghost use Rattle.std.specs.Prelude.{◌≡◌, ◌∷◌};
ghost use Rattle.std.specs.List.{flat_map};
ghost use Rattle.script_lines.specs.Prelude.{Reads, SaysPutKey, SpellNewKeys, SpellOne, SpellSized, command_of_plain, key_field, key_list, put_key_p2, putting_keys, remaining_words, sent_under};

use crate::key_field::push_key_field;
use crate::keys::{OfSize, Trio, three_keys};
use crate::plain::Plain;
use crate::values::{array, byte};
use crate::words::Words;
use aes_block::{BlockKey, SealingAes128, SealingAes192, SealingAes256};
use tokens_receipts::DataField;

/// One key or three, of `N` bytes each.
#[derive(Clone, Copy)]
pub enum NewKeys<const N: usize> {
    One([u8; N]),
    Three(Trio<N>),
}

/// Keys to put: the key version number that is replaced, the new one, and the keys.
#[derive(Clone, Copy)]
pub struct Putting {
    pub replaced: u8,
    pub version: u8,
    pub keys: OfSize<NewKeys<16>, NewKeys<24>, NewKeys<32>>,
}

// One key of `N` bytes.
fn one<const N: usize>(words: Words<'_>) -> Option<[u8; N]>
    ensures { Reads (SpellOne N (remaining_words words.entry)) result }
{
    let key = array(words.last()?)?;
    Some(key)
}

// One key of `N` bytes, or three.
fn new_keys<const N: usize>(words: Words<'_>) -> Option<NewKeys<N>>
    ensures { Reads (SpellNewKeys N (remaining_words words.entry)) result }
{
    if let Some(key) = one(words) {
        return Some(NewKeys::One(key));
    }
    if let Some(keys) = three_keys(words) {
        return Some(NewKeys::Three(keys));
    }
    None
}

fn sized(words: Words<'_>) -> Option<OfSize<NewKeys<16>, NewKeys<24>, NewKeys<32>>>
    ensures { Reads (SpellSized (remaining_words words.entry)) result }
{
    if let Some(keys) = new_keys(words) {
        return Some(OfSize::Aes128(keys));
    }
    if let Some(keys) = new_keys(words) {
        return Some(OfSize::Aes192(keys));
    }
    if let Some(keys) = new_keys(words) {
        return Some(OfSize::Aes256(keys));
    }
    None
}

/// Reads `OLD NEW KEY [KEY KEY]`, the words after `putkey`.
#[inline(never)]
pub fn read(mut words: Words<'_>) -> Option<Putting>
    ensures { Reads (SaysPutKey (remaining_words words.entry)) result }
{
    let replaced = byte(words.take()?)?;
    let version = byte(words.take()?)?;
    let keys = sized(words)?;
    Some(Putting {
        replaced,
        version,
        keys,
    })
}

impl<const N: usize> NewKeys<N> {
    // P2: the key identifier 01, and whether several keys come.
    fn p2(&self) -> u8
        ensures { result ≡ put_key_p2 (key_list self.now) }
    {
        match self {
            NewKeys::One(_) => 0x01,
            NewKeys::Three(_) => 0x81,
        }
    }

    // The new key version number and the key fields.
    fn body<K: BlockKey, D: BlockKey>(&self, version: u8, dek: &D) -> DataField
        requires { N ≡ K.LEN }
        ensures { result.items ≡ version ∷ flat_map (λ key. key_field (sent_under (D.key_bytes dek.now) key)) (key_list self.now) }
    {
        let mut body = DataField::new();
        body.push(version);
        match self {
            NewKeys::One(key) => push_key_field::<K, D>(dek, key, &mut body),
            NewKeys::Three(keys) => {
                push_key_field::<K, D>(dek, &keys.enc, &mut body);
                push_key_field::<K, D>(dek, &keys.mac, &mut body);
                push_key_field::<K, D>(dek, &keys.dek, &mut body);
            }
        }
        body
    }
}

impl Putting {
    /// PUT KEY, with keys that are enciphered under Key-DEK.
    pub fn command<D: BlockKey>(&self, dek: &D) -> Plain
        ensures { command_of_plain result ≡ putting_keys (D.key_bytes dek.now) self.now }
    {
        let version = self.version;
        let (p2, body) = match &self.keys {
            OfSize::Aes128(keys) => (keys.p2(), keys.body::<SealingAes128, D>(version, dek)),
            OfSize::Aes192(keys) => (keys.p2(), keys.body::<SealingAes192, D>(version, dek)),
            OfSize::Aes256(keys) => (keys.p2(), keys.body::<SealingAes256, D>(version, dek)),
        };
        Plain {
            ins: 0xd8,
            p1: self.replaced,
            p2,
            body,
        }
    }
}
