//! Key sets: in the list of keys, and by the domain and the key version number.

ghost use Rattle.std.specs.Prelude.{◌≡◌, ◌≤◌, ◌↔◌, ◌⊎◌, ℕ, List, true, Some, IsTrue, IfSome, IfNone, length};
ghost use Rattle.card_types.specs.Represents.{IsInOrder, Represents, domain_aid, keeps_counter, thing_in};
ghost use Rattle.card_types.specs.KeySets.{HasKey, HasKeys, HoldsKeyOf, IsKeyOf, IsSetOf, NoSetOf, is_key, AreKeysOf, HaveKeyLength};
ghost use Rattle.card_types.specs.Registry.{Registry};
ghost use Rattle.card_types.specs.declared.limits.TheConstants.{KEYS};

use crate::search::{InSlot, Wants, first_that};
use crate::tables::{KeyRec, Tables, in_slot};

/// The highest key version number of a key set. Keys of higher ones stand alone.
pub const LAST_VERSION: u8 = 0x6F;

// The key of the domain in the slot `owner` with this key version number and key identifier.
#[derive(Drop)]
struct OneKey {
    owner: u8,
    version: u8,
    identifier: u8,
}

impl Wants<KeyRec> for OneKey {
    ghost fits = { λ one key. is_key one.owner one.version one.identifier key };

    fn fits(&self, thing: &KeyRec) -> bool {
        thing.owner == self.owner
            && thing.version == self.version
            && thing.identifier == self.identifier
    }
}

/// The key of the domain in the slot `owner` with this key version number and key identifier.
pub fn find_key(
    keys: &[Option<KeyRec>],
    owner: u8,
    version: u8,
    identifier: u8,
) -> Option<InSlot<'_, KeyRec>>
    requires { length keys.now ≤ 256 }
    ensures slot { IfSome result (λ found. thing_in keys.now found.slot ≡ Some found.thing.now) }
    ensures key { IfSome result (λ found. IsKeyOf owner version identifier found.thing.now) }
    ensures none { IfNone result ((slot : ℕ) → HasKey keys.now owner version identifier slot → ⊥) }
{
    let one = OneKey {
        owner,
        version,
        identifier,
    };
    first_that(keys, &one)
}

fn slots_of(keys: &[Option<KeyRec>], owner: u8, version: u8) -> Option<[u8; 3]>
    requires { length keys.now ≡ KEYS }
    ensures some { IfSome result (HasKeys keys.now owner version) }
    ensures none { IfNone result ((slots : List ℕ) → HasKeys keys.now owner version slots → ⊥) }
{
    let first = find_key(keys, owner, version, 1)?;
    let second = find_key(keys, owner, version, 2)?;
    let third = find_key(keys, owner, version, 3)?;
    Some([first.slot, second.slot, third.slot])
}

fn is_asked(given: u8, version: u8) -> bool
    ensures { IsTrue result ↔ ((given ≡ 0) ⊎ (given ≡ version)) }
{
    given == 0 || given == version
}

/// The slots of the keys 01, 02 and 03 of a key set of the domain in the slot `owner`. Key
/// version number 00 asks for the lowest one that has a whole set.
pub fn set_of(keys: &[Option<KeyRec>], owner: u8, version: u8) -> Option<[u8; 3]>
    requires { length keys.now ≡ KEYS }
    ensures some { IfSome result (IsSetOf keys.now owner version) }
    ensures none { IfNone result (NoSetOf keys.now owner version) }
{
    for candidate in 1..=LAST_VERSION {
        if is_asked(version, candidate) {
            if let Some(slots) = slots_of(keys, owner, candidate) {
                return Some(slots);
            }
        }
    }
    None
}

/// The keys of a key set: those with key identifiers 01, 02 and 03 (GlobalPlatform Amendment D, chapter 6).
#[derive(Drop)]
pub struct KeySet<'a> {
    /// Key-ENC.
    pub enc: &'a KeyRec,

    /// Key-MAC.
    pub mac: &'a KeyRec,

    /// Key-DEK.
    pub dek: &'a KeyRec,
}

// A key that is there.
fn key_named(tables: &Tables, owner: u8, version: u8, identifier: u8) -> &KeyRec
    requires slots { length tables.now.keys.items ≡ KEYS }
    requires there { (slot : ℕ) × HasKey tables.now.keys.items owner version identifier slot }
    ensures { HoldsKeyOf tables.now.keys.items owner version identifier result.now }
{
    find_key(&tables.keys, owner, version, identifier)
        .unwrap()
        .thing
}

/// The keys of the key set whose sequence counter a key keeps: that key is Key-ENC.
pub fn set_with<'a>(tables: &'a Tables, enc: &'a KeyRec) -> KeySet<'a>
    requires in_order { IsInOrder tables.now }
    requires there { (slot : ℕ) × (thing_in tables.now.keys.items slot ≡ Some enc.now) }
    requires counts { keeps_counter enc.now ≡ true }
    ensures enc { result.enc.now ≡ enc.now }
    ensures lengths { HaveKeyLength result }
    ensures keys { (page : ℕ → List ℕ) (said : Registry) → Represents page tables.now said
        → AreKeysOf tables.now.entries.items said (domain_aid tables.now.entries.items enc.now.owner) enc.now.version result }
{
    KeySet {
        enc,
        mac: key_named(tables, enc.owner, enc.version, 2),
        dek: key_named(tables, enc.owner, enc.version, 3),
    }
}
