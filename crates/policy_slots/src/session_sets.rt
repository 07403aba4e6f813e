//! Which key sets a session uses.

ghost use Rattle.std.specs.Prelude.{◌≡◌, ℕ, List, Some, true, IfSome, IfNone};
ghost use Rattle.policy_slots.specs.Prelude.{ForEntry, IsInOrder, NoSetToUse, OwnsSets, UsesSetOfKey, domain_aid, has_set_in, holds_counter_of, thing_in};
ghost use Rattle.card_types.specs.Represents.{keeps_counter as keeps_counter_by};

use crate::key_order::{keeps_counter, lowest_set, numbered_set};
use card_types::{InSlot, KeyRec, Tables};
use domain_tree::{Wanted, first_above};

// The domains that have a key set.
#[derive(Drop)]
struct Owners<'a> {
    keys: &'a [Option<KeyRec>],
}

impl Wanted for Owners<'_> {
    ghost fits = { λ owners slot. has_set_in owners.keys.now slot };

    fn fits(&self, slot: u8) -> bool {
        has_set(self.keys, slot)
    }
}

// Whether the domain in a slot has a key set.
fn has_set(keys: &[Option<KeyRec>], domain: u8) -> bool
    ensures { result ≡ has_set_in keys.now domain }
{
    keys.iter().any(|held| holds_counter(domain, held))
}

fn holds_counter(owner: u8, held: &Option<KeyRec>) -> bool
    ensures { result ≡ holds_counter_of owner held.now }
{
    match held {
        Some(key) => keeps_counter(key, owner),
        None => false,
    }
}

/// The slot of the domain whose key sets a session of the domain in a slot uses: that domain itself, or where it has none,
/// the nearest domain above it that has one.
fn set_owner(tables: &Tables, domain: u8) -> Option<u8>
    requires in_order { IsInOrder tables.now }
    ensures some { ForEntry tables.now domain (λ said aid. IfSome result (λ owner. OwnsSets said aid (domain_aid tables.now.entries.items owner))) }
    ensures none { ForEntry tables.now domain (λ said aid. IfNone result ((owner : List ℕ) → OwnsSets said aid owner → ⊥)) }
    ensures has_set { IfSome result (λ owner. has_set_in tables.now.keys.items owner ≡ true) }
{
    if has_set(&tables.keys, domain) {
        return Some(domain);
    }
    let owners = Owners { keys: &tables.keys };
    first_above(&tables.entries, domain, &owners)
}

/// The key that keeps the counter of a key set that a session of the domain in a slot uses: of the one with this key
/// version number, or for 00 of the lowest.
pub fn session_set(tables: &Tables, domain: u8, version: u8) -> Option<InSlot<'_, KeyRec>>
    requires in_order { IsInOrder tables.now }
    ensures held { IfSome result (λ found. thing_in tables.now.keys.items found.slot ≡ Some found.thing.now) }
    ensures counts { IfSome result (λ found. keeps_counter_by found.thing.now ≡ true) }
    ensures some { ForEntry tables.now domain (λ said aid. IfSome result (λ found. UsesSetOfKey tables.now.entries.items said domain version found.thing.now)) }
    ensures none { ForEntry tables.now domain (λ said aid. IfNone result (NoSetToUse said aid version)) }
{
    let owner = set_owner(tables, domain)?;
    if version == 0 {
        lowest_set(&tables.keys, owner)
    } else {
        numbered_set(&tables.keys, owner, version)
    }
}
