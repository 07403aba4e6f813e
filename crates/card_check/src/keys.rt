//! What is asked of a key.

ghost use Rattle.std.specs.Prelude.{◌≡◌, ◌↔◌, ℕ, ◌<◌, ◌≤◌, List, IsTrue, true, length};
ghost use Rattle.std.specs.List.{count_by};
ghost use Rattle.card_check.specs.CardSlots.{HasOtherLength, HaveLength, IsCardKey, is_key_of as is_key_by};
ghost use Rattle.card_types.specs.Represents.{HasSlots, keeps_counter, thing_in};
ghost use Rattle.card_types.specs.KeySets.{HasKey, HasKeys};
ghost use Rattle.card_types.specs.Well.{IsKeyLength, IsKeyName};
ghost use Rattle.card_types.specs.declared.limits.TheConstants.{COUNTER_LIMIT, KEYS};

use crate::domains::is_domain;
use crate::slots::Asks;
use card_types::{COUNTER_LIMIT, DOMAIN_KEYS, KEYS, KeyRec, Tables, in_slot, set_of};

/// The highest key version number of a key set.
const LAST_VERSION: u8 = 0x6F;

/// The key version number of a token key.
const TOKEN_KEY: u8 = 0x70;

/// The key version number of a receipt key.
const RECEIPT_KEY: u8 = 0x71;

impl Asks<KeyRec> for Tables {
    ghost ready = { HasSlots };

    ghost admits = { IsCardKey };

    fn admits(&self, slot: u8, key: &KeyRec) -> bool {
        is_domain(&self.entries, key.owner)
            && is_key_length(key.bytes.len())
            && has_length_of_set(&self.keys, key)
            && is_key_name(key.version, key.identifier)
            && is_only(&self.keys, slot, key)
            && is_in_set(&self.keys, key)
            && counts_well(key)
            && keys_of(&self.keys, key.owner) <= DOMAIN_KEYS
    }
}

fn is_key_length(length: usize) -> bool
    ensures { IsTrue result ↔ IsKeyLength length }
{
    matches!(length, 16 | 24 | 32)
}

// Whether the keys of its owner with its key version number are as long as this one.
fn has_length_of_set(keys: &[Option<KeyRec>], key: &KeyRec) -> bool
    requires { length keys.now ≡ KEYS }
    ensures { IsTrue result ↔ HaveLength keys.now key.now.owner key.now.version (length key.now.bytes.items) }
{
    for other in 0..KEYS as u8 {
        if has_other_length(keys, other, key) {
            return false;
        }
    }
    true
}

fn has_other_length(keys: &[Option<KeyRec>], slot: u8, key: &KeyRec) -> bool
    ensures { IsTrue result ↔ HasOtherLength key.now (thing_in keys.now slot) }
{
    match in_slot(keys, slot) {
        Some(held) => {
            held.owner == key.owner
                && held.version == key.version
                && held.bytes.len() != key.bytes.len()
        }
        None => false,
    }
}

fn is_key_name(version: u8, identifier: u8) -> bool
    ensures { IsTrue result ↔ IsKeyName version identifier }
{
    match version {
        1..=LAST_VERSION => 1 <= identifier && identifier <= 3,
        TOKEN_KEY | RECEIPT_KEY => identifier == 1,
        _ => false,
    }
}

// Whether no other slot has a key of this name.
fn is_only(keys: &[Option<KeyRec>], slot: u8, key: &KeyRec) -> bool
    requires { length keys.now ≡ KEYS }
    ensures { IsTrue result ↔ ((other : ℕ) → HasKey keys.now key.now.owner key.now.version key.now.identifier other → other ≡ slot) }
{
    for other in 0..KEYS as u8 {
        if other != slot && has_name_of(keys, other, key) {
            return false;
        }
    }
    true
}

fn has_name_of(keys: &[Option<KeyRec>], slot: u8, key: &KeyRec) -> bool
    ensures { IsTrue result ↔ HasKey keys.now key.now.owner key.now.version key.now.identifier slot }
{
    match in_slot(keys, slot) {
        Some(held) => {
            held.owner == key.owner
                && held.version == key.version
                && held.identifier == key.identifier
        }
        None => false,
    }
}

// Whether the key set of the key, if it is of one, is whole.
fn is_in_set(keys: &[Option<KeyRec>], key: &KeyRec) -> bool
    requires room { length keys.now ≡ KEYS }
    requires version { 1 ≤ key.now.version }
    ensures { IsTrue result ↔ (key.now.version < 0x70 → (slots : List ℕ) × HasKeys keys.now key.now.owner key.now.version slots) }
{
    key.version > LAST_VERSION || set_of(keys, key.owner, key.version).is_some()
}

// Whether the sequence counter, where the key keeps one, is one that a card counts to.
fn counts_well(key: &KeyRec) -> bool
    ensures { IsTrue result ↔ (keeps_counter key.now ≡ true → key.now.counter ≤ COUNTER_LIMIT) }
{
    key.identifier != 1 || key.version > LAST_VERSION || key.counter <= COUNTER_LIMIT
}

// How many keys the domain in the slot has.
fn keys_of(keys: &[Option<KeyRec>], owner: u8) -> usize
    ensures { result ≡ count_by (is_key_by owner) keys.now }
{
    keys.iter().filter(|held| is_key_of(held, owner)).count()
}

fn is_key_of(held: &Option<KeyRec>, owner: u8) -> bool
    ensures { result ≡ is_key_by owner held.now }
{
    match held {
        Some(key) => key.owner == owner,
        None => false,
    }
}
