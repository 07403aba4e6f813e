//! Whether keys may be put.

ghost use Rattle.std.specs.Prelude.{◌≡◌, ◌≢◌, ◌⊎◌, ◌<◌, ◌≤◌, ◌+◌, ◌↔◌, false, true, length, IfErr, IsTrue, OnOk};
ghost use Rattle.card_types.specs.declared.limits.TheConstants.{DOMAIN_KEYS, KEYS};
ghost use Rattle.key_rules.specs.InSlots.{holds_one_of as holds_one_of_by, holds_staying as holds_staying_by, holds_staying_of as holds_staying_of_by};
ghost use Rattle.key_rules.specs.PutFails.{HoldsFirst, NoneHolds, PutFails, has_version as has_version_in, keys_of_owner};
ghost use Rattle.key_rules.specs.Staying.{is_of as is_of_by, staying};

use crate::refusal::PutRefusal;
use card_types::{DOMAIN_KEYS, KEYS, KeyRec};

/// Whether the key is one of this domain with this key version number.
pub fn is_of(key: &KeyRec, owner: u8, version: u8) -> bool
    ensures { result ≡ is_of_by owner version key.now }
{
    version != 0 && key.owner == owner && key.version == version
}

fn holds_one_of(slot: &Option<KeyRec>, owner: u8, version: u8) -> bool
    ensures { result ≡ holds_one_of_by owner version slot.now }
{
    match slot {
        Some(key) => is_of(key, owner, version),
        None => false,
    }
}

/// Whether the domain has keys with this key version number.
pub fn has_version(keys: &[Option<KeyRec>], owner: u8, version: u8) -> bool
    ensures { result ≡ has_version_in owner version keys.now }
{
    keys.iter().any(|slot| holds_one_of(slot, owner, version))
}

fn holds_staying(slot: &Option<KeyRec>, owner: u8, version: u8) -> bool
    ensures { result ≡ holds_staying_by owner version slot.now }
{
    match slot {
        Some(key) => !is_of(key, owner, version),
        None => false,
    }
}

// How many keys stay on the card where those of the domain with a key version number go.
fn count_staying(keys: &[Option<KeyRec>], owner: u8, version: u8) -> usize
    ensures number { result ≡ length (staying owner version keys.now) }
    ensures most { result ≤ length keys.now }
{
    keys.iter()
        .filter(|slot| holds_staying(slot, owner, version))
        .count()
}

fn holds_staying_of(slot: &Option<KeyRec>, owner: u8, version: u8) -> bool
    ensures { result ≡ holds_staying_of_by owner version slot.now }
{
    match slot {
        Some(key) => !is_of(key, owner, version) && key.owner == owner,
        None => false,
    }
}

// How many of those are the domain's.
fn count_staying_of(keys: &[Option<KeyRec>], owner: u8, version: u8) -> usize
    ensures number { result ≡ length (keys_of_owner owner (staying owner version keys.now)) }
    ensures most { result ≤ length keys.now }
{
    keys.iter()
        .filter(|slot| holds_staying_of(slot, owner, version))
        .count()
}

// Whether the card and the domain have room for so many keys more.
fn have_room(keys: &[Option<KeyRec>], owner: u8, replaced: u8, added: usize) -> bool
    requires room { length keys.now ≡ KEYS }
    requires few { added ≤ 3 }
    ensures { IsTrue result ↔ ((length (staying owner replaced keys.now) + added ≤ KEYS) × (length (keys_of_owner owner (staying owner replaced keys.now)) + added ≤ DOMAIN_KEYS)) }
{
    count_staying(keys, owner, replaced) + added <= KEYS
        && count_staying_of(keys, owner, replaced) + added <= DOMAIN_KEYS
}

/// Whether keys are to be replaced that are not there.
pub fn lacks_replaced(keys: &[Option<KeyRec>], owner: u8, replaced: u8) -> bool
    ensures { IsTrue result ↔ ((replaced ≢ 0) × (has_version_in owner replaced keys.now ≡ false)) }
{
    replaced != 0 && !has_version(keys, owner, replaced)
}

/// Whether the new key version number is there already, and is not the one replaced.
pub fn is_taken(keys: &[Option<KeyRec>], owner: u8, replaced: u8, version: u8) -> bool
    ensures { IsTrue result ↔ ((version ≢ replaced) × (has_version_in owner version keys.now ≡ true)) }
{
    version != replaced && has_version(keys, owner, version)
}

/// Whether the card or the domain would have too many keys with so many more.
pub fn is_full(keys: &[Option<KeyRec>], owner: u8, replaced: u8, added: usize) -> bool
    requires room { length keys.now ≡ KEYS }
    requires few { added ≤ 3 }
    ensures { IsTrue result ↔ ((KEYS < length (staying owner replaced keys.now) + added) ⊎ (DOMAIN_KEYS < length (keys_of_owner owner (staying owner replaced keys.now)) + added)) }
{
    !have_room(keys, owner, replaced, added)
}

/// Judges whether so many keys may be put.
pub fn judge(
    keys: &[Option<KeyRec>],
    owner: u8,
    replaced: u8,
    version: u8,
    added: usize,
) -> Result<(), PutRefusal>
    requires room { length keys.now ≡ KEYS }
    requires few { added ≤ 3 }
    ensures ok { OnOk result (NoneHolds (PutFails owner replaced version added keys.now)) }
    ensures err { IfErr result (HoldsFirst (PutFails owner replaced version added keys.now)) }
{
    if lacks_replaced(keys, owner, replaced) {
        return Err(PutRefusal::Unknown);
    }
    if is_taken(keys, owner, replaced, version) {
        return Err(PutRefusal::Taken);
    }
    if is_full(keys, owner, replaced, added) {
        return Err(PutRefusal::Full);
    }
    Ok(())
}
