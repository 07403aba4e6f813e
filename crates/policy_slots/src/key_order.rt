//! The keys of a domain, in ascending order of key version number and key identifier.

ghost use Rattle.std.specs.Prelude.{◌≡◌, ◌≤◌, ℕ, IfSome, IfNone, length};
ghost use Rattle.std.proofs.lemmas.Cmp.{nat_cmp_total, on_total, then_total};
ghost use Rattle.policy_slots.specs.Prelude.{IsLeast, NoneFits, follows, keeps_counter_of, keeps_counter_with, name_order, version_order};
ghost use Rattle.policy_slots.specs.KeyOrder.{is_past as is_past_name};

use card_types::{InSlot, KEYS, KeyRec, Search, least};

/// A key version number and a key identifier.
#[derive(Clone, Copy, Debug, PartialEq, Eq)]
pub struct KeyName {
    pub version: u8,
    pub identifier: u8,
}

impl KeyName {
    /// The name of a key.
    pub fn of(key: &KeyRec) -> KeyName
        ensures version { result.version ≡ key.now.version }
        ensures identifier { result.identifier ≡ key.now.identifier }
    {
        KeyName {
            version: key.version,
            identifier: key.identifier,
        }
    }
}

/// The lowest key version number of a key that belongs to no set.
const LONE_VERSION: u8 = 0x70;

// The keys of the domain in a slot, past a name.
#[derive(Drop)]
struct Following {
    owner: u8,
    after: Option<KeyName>,
}

fn is_past(after: Option<KeyName>, key: &KeyRec) -> bool
    ensures { result ≡ is_past_name after key.now }
{
    match after {
        Some(name) => {
            name.version < key.version
                || name.version == key.version && name.identifier < key.identifier
        }
        None => true,
    }
}

impl Search<KeyRec> for Following {
    ghost fits = { λ following key. follows following.owner following.after key };

    ghost order = { λ _ a b. name_order a b };

    fn fits(&self, thing: &KeyRec) -> bool {
        thing.owner == self.owner && is_past(self.after, thing)
    }

    fn is_below(&self, a: &KeyRec, b: &KeyRec) -> bool {
        a.version < b.version || a.version == b.version && a.identifier < b.identifier
    }

    ghost total = { λ _. then_total (on_total (λ key. key.version) nat_cmp_total) (on_total (λ key. key.identifier) nat_cmp_total) };
}

/// The key of the domain in the slot `owner` with the least name past `after`, or with the least of all.
pub fn next_key<'a>(
    keys: &'a [Option<KeyRec>],
    owner: u8,
    after: Option<KeyName>,
) -> Option<&'a KeyRec>
    requires { length keys.now ≤ KEYS }
    ensures some { IfSome result (λ key. (slot : ℕ) × IsLeast (follows owner after) name_order keys.now slot key.now) }
    ensures none { IfNone result (NoneFits (follows owner after) keys.now) }
{
    match least(keys, &Following { owner, after }) {
        Some(found) => Some(found.thing),
        None => None,
    }
}

/// Whether the key keeps the counter of a key set of the domain in a slot.
pub fn keeps_counter(key: &KeyRec, owner: u8) -> bool
    ensures { result ≡ keeps_counter_of owner key.now }
{
    key.identifier == 1 && key.version < LONE_VERSION && key.owner == owner
}

// The keys that keep the counters of the key sets of the domain in a slot.
#[derive(Drop)]
struct Counting {
    owner: u8,
}

impl Search<KeyRec> for Counting {
    ghost fits = { λ counting key. keeps_counter_of counting.owner key };

    ghost order = { λ _ a b. version_order a b };

    fn fits(&self, thing: &KeyRec) -> bool {
        keeps_counter(thing, self.owner)
    }

    fn is_below(&self, a: &KeyRec, b: &KeyRec) -> bool {
        a.version < b.version
    }

    ghost total = { λ _. on_total (λ key. key.version) nat_cmp_total };
}

/// The key that keeps the counter of the key set with the lowest key version number, of the domain in the slot `owner`.
pub fn lowest_set<'a>(keys: &'a [Option<KeyRec>], owner: u8) -> Option<InSlot<'a, KeyRec>>
    requires { length keys.now ≤ KEYS }
    ensures some { IfSome result (λ found. IsLeast (keeps_counter_of owner) version_order keys.now found.slot found.thing.now) }
    ensures none { IfNone result (NoneFits (keeps_counter_of owner) keys.now) }
{
    least(keys, &Counting { owner })
}

// The key that keeps the counter of the key set with this key version number, of the domain in a slot.
#[derive(Drop)]
struct Numbered {
    owner: u8,
    version: u8,
}

impl Search<KeyRec> for Numbered {
    ghost fits = { λ numbered key. keeps_counter_with numbered.owner numbered.version key };

    ghost order = { λ _ a b. version_order a b };

    fn fits(&self, thing: &KeyRec) -> bool {
        keeps_counter(thing, self.owner) && thing.version == self.version
    }

    fn is_below(&self, a: &KeyRec, b: &KeyRec) -> bool {
        a.version < b.version
    }

    ghost total = { λ _. on_total (λ key. key.version) nat_cmp_total };
}

/// The key that keeps the counter of the key set with this key version number, of the domain in the slot `owner`.
pub fn numbered_set<'a>(
    keys: &'a [Option<KeyRec>],
    owner: u8,
    version: u8,
) -> Option<InSlot<'a, KeyRec>>
    requires { length keys.now ≤ KEYS }
    ensures some { IfSome result (λ found. IsLeast (keeps_counter_with owner version) version_order keys.now found.slot found.thing.now) }
    ensures none { IfNone result (NoneFits (keeps_counter_with owner version) keys.now) }
{
    least(keys, &Numbered { owner, version })
}
