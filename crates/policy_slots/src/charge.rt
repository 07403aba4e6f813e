//! Things and security domains by their AIDs, and what is above what and in whose charge, by slots.

ghost use Rattle.std.specs.Prelude.{◌≡◌, ◌↔◌, ℕ, List, None, Some, IfNone, IfSome, IsSome, IsTrue};
ghost use Rattle.policy_slots.specs.Prelude.{ActsIn, Admitted, IsAboveIn, IsAtOrAbove, IsDomainNamed, IsFileInCharge, IsInCharge, IsInOrder, Registry, Represents, Well, acting, aid_of, domain_aid, domain_of_thing, entry_named, file_of, thing_in};
ghost use Rattle.card_types.specs.declared.found.Found.TheVariants.{Entry};
ghost use Rattle.card_types.specs.declared.tables.LoadFile.{LoadFile};

use crate::delegation::holds;
use card_types::{Aid, Found, Privileges, Tables, find, in_slot};
use domain_tree::{above, would_loop};

/// The slot of the entry with an AID.
pub fn find_entry(tables: &Tables, aid: &Aid) -> Option<u8>
    requires in_order { IsInOrder tables.now }
    ensures some { IfSome result (λ slot. aid_of tables.now (Entry slot) ≡ Some aid.now) }
    ensures none { (page : ℕ → List ℕ) (said : Registry) → Represents page tables.now said → Well said → IfNone result (entry_named said aid.now ≡ None) }
{
    match find(tables, aid) {
        Some(Found::Entry(slot)) => Some(slot),
        Some(Found::File(_)) => None,
        None => None,
    }
}

/// The slot of the security domain with an AID.
pub fn find_domain(tables: &Tables, aid: &Aid) -> Option<u8>
    requires in_order { IsInOrder tables.now }
    ensures some { IfSome result (λ slot. aid_of tables.now (Entry slot) ≡ Some aid.now) }
    ensures domain { (page : ℕ → List ℕ) (said : Registry) → Represents page tables.now said → Well said → IfSome result (λ slot. IsDomainNamed said aid.now) }
    ensures none { (page : ℕ → List ℕ) (said : Registry) → Represents page tables.now said → Well said → IfNone result (IsDomainNamed said aid.now → ⊥) }
{
    let Some(slot) = find_entry(tables, aid) else {
        return None;
    };
    if !holds(&tables.entries, slot, Privileges::SECURITY_DOMAIN) {
        return None;
    }
    Some(slot)
}

/// Whether the domain in the slot `a` is the one in the slot `b`, or above it.
pub fn is_at_or_above(tables: &Tables, a: u8, b: u8) -> bool
    requires in_order { IsInOrder tables.now }
    ensures { (page : ℕ → List ℕ) (said : Registry) (x y : List ℕ) → Represents page tables.now said → Well said
        → aid_of tables.now (Entry a) ≡ Some x → aid_of tables.now (Entry b) ≡ Some y → IsTrue result ↔ IsAtOrAbove said x y }
{
    a == b || above(&tables.entries, a, b)
}

/// Whether a thing is above the domain in a slot. An Executable Load File is above nothing.
pub fn is_over(tables: &Tables, thing: Found, domain: u8) -> bool
    requires in_order { IsInOrder tables.now }
    ensures { (page : ℕ → List ℕ) (said : Registry) (x y : List ℕ) → Represents page tables.now said → Well said
        → aid_of tables.now thing ≡ Some x → aid_of tables.now (Entry domain) ≡ Some y → IsTrue result ↔ IsAboveIn said x y }
{
    match thing {
        Found::Entry(slot) => would_loop(&tables.entries, slot, domain),
        Found::File(_) => false,
    }
}

/// Whether the Executable Load File in a slot is in the charge of the domain in another.
pub fn is_in_charge(tables: &Tables, domain: u8, slot: u8) -> bool
    requires in_order { IsInOrder tables.now }
    ensures { (page : ℕ → List ℕ) (admitted : Admitted) (file : LoadFile) → ActsIn page tables.now domain admitted
        → thing_in tables.now.files.items slot ≡ Some file
        → IsTrue result ↔ IsFileInCharge admitted.at.registry (acting admitted) (file_of page tables.now.entries.items file) }
{
    match in_slot(&tables.files, slot) {
        Some(file) => file.domain == domain || above(&tables.entries, domain, file.domain),
        None => false,
    }
}

/// Whether a thing is in the charge of the domain in a slot.
pub fn has_charge(tables: &Tables, domain: u8, thing: Found) -> bool
    requires in_order { IsInOrder tables.now }
    ensures { (page : ℕ → List ℕ) (admitted : Admitted) (aid : List ℕ) → ActsIn page tables.now domain admitted
        → aid_of tables.now thing ≡ Some aid → IsTrue result ↔ IsInCharge admitted.at.registry (acting admitted) aid }
{
    match thing {
        Found::Entry(slot) => above(&tables.entries, domain, slot),
        Found::File(slot) => is_in_charge(tables, domain, slot),
    }
}

/// The slot of the domain of a thing.
pub fn domain_of(tables: &Tables, thing: Found) -> u8
    requires in_order { IsInOrder tables.now }
    requires there { IsSome (aid_of tables.now thing) }
    ensures named { (page : ℕ → List ℕ) (said : Registry) (aid : List ℕ) → Represents page tables.now said → Well said → aid_of tables.now thing ≡ Some aid
        → domain_aid tables.now.entries.items result ≡ domain_of_thing said aid }
    ensures used { IsSome (thing_in tables.now.entries.items result) }
{
    match thing {
        Found::Entry(slot) => in_slot(&tables.entries, slot).unwrap().domain,
        Found::File(slot) => in_slot(&tables.files, slot).unwrap().domain,
    }
}
