//! DELETE of a key (GlobalPlatform Card Specification 2.3.1, 11.2).

ghost use Rattle.std.specs.Prelude.{◌≡◌, ◌↔◌, ℕ, List, None, Some, IfErr, IfNone, IfOk, IfSome, IsTrue, OnOk};
ghost use Rattle.std.specs.List.{list_any};
ghost use Rattle.policy_rules.specs.Prelude.{ActsIn, Admitted, AsksToDeleteKey, Chooses, DeleteParameters, FormRefuses, IsInOrder, IsLastSet, IsRequestOf, Judges, KeyChosen, NamesPart, command_form, domain_slot, managed_delete_key};
ghost use Rattle.policy_slots.specs.KeyOrder.{holds_counter_but as holds_counter_but_by};
ghost use Rattle.policy_rules.specs.declared.request.Request.TheVariants.{DeleteKey};

use card_types::{Entry, KeyRec, Tables, in_slot};
use key_rules::has_version;
use policy_machine::{Rule, RuleDK, RulePS};
use policy_slots::{judge_management, keeps_counter};

// The key version number (D2), and a key identifier (D0) or none, in either order.
fn read_choice(body: &[u8]) -> Option<(u8, Option<u8>)>
    ensures some { IfSome result (λ choice. Chooses body.now choice.0 choice.1) }
    ensures none { IfNone result ((chosen : KeyChosen) × AsksToDeleteKey body.now chosen → ⊥) }
{
    match *body {
        [0xD2, 1, version] => Some((version, None)),
        [0xD2, 1, version, 0xD0, 1, identifier] => Some((version, Some(identifier))),
        [0xD0, 1, identifier, 0xD2, 1, version] => Some((version, Some(identifier))),
        _ => None,
    }
}

/// Reads P1, P2 and the data field of a DELETE of a key: the key version number, and a key identifier or none.
pub(crate) fn parse_delete_key(p1: u8, p2: u8, body: &[u8]) -> Result<(u8, Option<u8>), Rule>
    ensures form { IfOk result (λ choice. DeleteParameters p1 p2) }
    ensures means { IfOk result (λ choice. Chooses body.now choice.0 choice.1) }
    ensures refused { IfErr result (FormRefuses (command_form managed_delete_key) p1 p2 body.now) }
{
    if p1 != 0x00 || (p2 != 0x00 && p2 != 0x80) {
        return Err(Rule::PS(RulePS::P));
    }
    match read_choice(body) {
        Some(choice) => Ok(choice),
        None => Err(Rule::PS(RulePS::S)),
    }
}

fn holds_counter_but(held: &Option<KeyRec>, owner: u8, version: u8) -> bool
    ensures { result ≡ holds_counter_but_by owner version held.now }
{
    match held {
        Some(key) => keeps_counter(key, owner) && key.version != version,
        None => false,
    }
}

// Whether the domain in a slot has a key set of another key version number.
fn has_set_but(keys: &[Option<KeyRec>], owner: u8, version: u8) -> bool
    ensures { result ≡ list_any (holds_counter_but_by owner version) keys.now }
{
    keys.iter()
        .any(|held| holds_counter_but(held, owner, version))
}

// Whether the domain in a slot is a root, which is its own domain.
fn is_root(entries: &[Option<Entry>], domain: u8) -> bool
    ensures { IsTrue result ↔ (domain_slot entries.now domain ≡ Some domain) }
{
    match in_slot(entries, domain) {
        Some(entry) => entry.domain == domain,
        None => false,
    }
}

// Whether the domain in a slot is a root, and no key set would be left to it.
fn is_last_set(tables: &Tables, domain: u8, version: u8) -> bool
    ensures { (page : ℕ → List ℕ) (admitted : Admitted) → ActsIn page tables.now domain admitted → IsTrue result ↔ IsLastSet admitted version }
{
    is_root(&tables.entries, domain) && !has_set_but(&tables.keys, domain, version)
}

// Whether the key identifier is none that names all keys of the key version number.
fn names_part(version: u8, identifier: Option<u8>) -> bool
    ensures { IsTrue result ↔ NamesPart version identifier }
{
    match identifier {
        Some(identifier) => version < 0x70 || identifier != 0x01,
        None => false,
    }
}

/// Judges a DELETE of a key for the domain in a slot.
pub fn judge_delete_key(
    tables: &Tables,
    domain: u8,
    version: u8,
    identifier: Option<u8>,
) -> Result<(), Rule>
    requires in_order { IsInOrder tables.now }
    ensures passed { (page : ℕ → List ℕ) (admitted : Admitted) → ActsIn page tables.now domain admitted
        → IsRequestOf (DeleteKey version identifier) admitted.command → OnOk result (Judges admitted None) }
    ensures refused { (page : ℕ → List ℕ) (admitted : Admitted) → ActsIn page tables.now domain admitted
        → IsRequestOf (DeleteKey version identifier) admitted.command
        → IfErr result (λ rule. Judges admitted (Some rule)) }
{
    judge_management(tables, domain)?;
    if !has_version(&tables.keys, domain, version) || names_part(version, identifier) {
        return Err(Rule::DK(RuleDK::DK1));
    }
    if is_last_set(tables, domain, version) {
        return Err(Rule::DK(RuleDK::DK2));
    }
    Ok(())
}
