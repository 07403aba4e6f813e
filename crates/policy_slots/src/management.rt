//! The rules that the commands of card content management and INITIALIZE UPDATE have in common.

ghost use Rattle.std.specs.Prelude.{◌≡◌, ◌↔◌, ◌⊎◌, ℕ, List, Some, IfErr, IsTrue, OnOk};
ghost use Rattle.policy_slots.specs.Prelude.{ActsIn, Admitted, ManagementFails, TellsCard, acting, same_aid, thing_in};
ghost use Rattle.card_types.specs.declared.factory.TheConstants.{ISSUER};
ghost use Rattle.card_types.specs.declared.tables.Entry.{Entry};
ghost use Rattle.policy_machine.specs.declared.management.RuleM.TheVariants.{M1, M2, M3};
ghost use Rattle.policy_machine.specs.declared.rule.Rule.TheVariants.{M};

use card_types::{Aid, CardLife, ISSUER, Tables, in_slot};
use policy_machine::{Rule, RuleM};

/// Whether the AID is that of the Issuer Security Domain.
pub fn is_issuer(aid: &Aid) -> bool
    ensures { result ≡ same_aid aid.now ISSUER }
{
    aid.as_bytes() == ISSUER.as_slice()
}

/// Whether the domain in a slot is locked.
pub fn is_locked(tables: &Tables, domain: u8) -> bool
    ensures { (entry : Entry) → thing_in tables.now.entries.items domain ≡ Some entry → result ≡ entry.life.locked }
{
    match in_slot(&tables.entries, domain) {
        Some(entry) => entry.life.locked,
        None => false,
    }
}

/// Judges that neither the card nor the domain in a slot is locked.
pub fn judge_management(tables: &Tables, domain: u8) -> Result<(), Rule>
    ensures passed { (page : ℕ → List ℕ) (admitted : Admitted) → ActsIn page tables.now domain admitted
        → OnOk result ((ManagementFails admitted M1 → ⊥) × (ManagementFails admitted M2 → ⊥)) }
    ensures refused { (page : ℕ → List ℕ) (admitted : Admitted) → ActsIn page tables.now domain admitted
        → IfErr result (λ rule. ((rule ≡ M M1) × ManagementFails admitted M1) ⊎ ((rule ≡ M M2) × (ManagementFails admitted M1 → ⊥) × ManagementFails admitted M2)) }
{
    if tables.life == CardLife::Locked {
        return Err(Rule::M(RuleM::M1));
    }
    if is_locked(tables, domain) {
        return Err(Rule::M(RuleM::M2));
    }
    Ok(())
}

/// Whether the domain in a slot is the Issuer Security Domain.
pub fn is_issuer_in(tables: &Tables, domain: u8) -> bool
    ensures { (page : ℕ → List ℕ) (admitted : Admitted) → ActsIn page tables.now domain admitted → IsTrue result ↔ (acting admitted ≡ ISSUER) }
{
    match in_slot(&tables.entries, domain) {
        Some(entry) => is_issuer(&entry.aid),
        None => false,
    }
}

// Whether the card is locked, and it is not the Issuer Security Domain in this slot that sets the card's own life cycle state.
fn is_closed(tables: &Tables, domain: u8, card: bool) -> bool
    ensures { (page : ℕ → List ℕ) (admitted : Admitted) → ActsIn page tables.now domain admitted → TellsCard card admitted
        → IsTrue result ↔ ManagementFails admitted M3 }
{
    if tables.life != CardLife::Locked {
        return false;
    }
    !card || !is_issuer_in(tables, domain)
}

/// Judges that the domain in a slot is not locked, and that on a locked card it is the Issuer Security Domain and sets the life
/// cycle state of the card. `card` says that it is the card's own state that is set.
pub fn judge_setting(tables: &Tables, domain: u8, card: bool) -> Result<(), Rule>
    ensures passed { (page : ℕ → List ℕ) (admitted : Admitted) → ActsIn page tables.now domain admitted → TellsCard card admitted
        → OnOk result ((ManagementFails admitted M2 → ⊥) × (ManagementFails admitted M3 → ⊥)) }
    ensures refused { (page : ℕ → List ℕ) (admitted : Admitted) → ActsIn page tables.now domain admitted → TellsCard card admitted
        → IfErr result (λ rule. ((rule ≡ M M2) × ManagementFails admitted M2) ⊎ ((rule ≡ M M3) × (ManagementFails admitted M2 → ⊥) × ManagementFails admitted M3)) }
{
    if is_locked(tables, domain) {
        return Err(Rule::M(RuleM::M2));
    }
    if is_closed(tables, domain, card) {
        return Err(Rule::M(RuleM::M3));
    }
    Ok(())
}
