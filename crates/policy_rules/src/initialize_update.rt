//! INITIALIZE UPDATE (GlobalPlatform Amendment D, 7.1.1).

ghost use Rattle.std.specs.Prelude.{◌≡◌, ◌≤◌, ◌&&◌, not, ℕ, List, None, Some, IfOk, IfErr, OnOk};
ghost use Rattle.policy_rules.specs.Prelude.{ActsIn, Admitted, AreKeysOf, HasNextCounter, HaveKeyLength, InitializeUpdateFails, IsFirst, IsInOrder, Parses, Registry, Represents, UsesSetOfKey, Well, domain_aid, is_card_locked, offer_rules, same_aid, thing_in};
ghost use Rattle.card_types.specs.declared.factory.TheConstants.{ISSUER};
ghost use Rattle.card_types.specs.declared.tables.Entry.{Entry};
ghost use Rattle.policy_machine.specs.declared.instruction.TheConstants.{INITIALIZE_UPDATE};

use crate::request::Request;
use card_types::{Aid, COUNTER_LIMIT, CardLife, KeySet, Tables, in_slot, set_with};
use policy_machine::{Rule, RuleIU, RuleM, RulePS};
use policy_slots::{is_issuer, session_set};

/// Reads P2 and the data field: P1 is the key version number, and the data field the host challenge.
pub(crate) fn parse_initialize_update(p1: u8, p2: u8, body: &[u8]) -> Result<Request<'_>, Rule>
    ensures { Parses INITIALIZE_UPDATE p1 p2 body.now result }
{
    if p2 != 0x00 {
        return Err(Rule::PS(RulePS::P));
    }
    if body.len() != 8 {
        return Err(Rule::PS(RulePS::S));
    }
    Ok(Request::Initialize {
        version: p1,
        challenge: body,
    })
}

// Whether the card is locked for a domain with this AID: all but the Issuer Security Domain are shut out then.
fn is_shut_out(card_life: CardLife, aid: &Aid) -> bool
    ensures { result ≡ (is_card_locked card_life && not (same_aid aid.now ISSUER)) }
{
    card_life == CardLife::Locked && !is_issuer(aid)
}

/// What INITIALIZE UPDATE offers a session with.
#[derive(Drop)]
pub struct OfferedSet<'a> {
    /// The AID of the selected domain.
    pub aid: &'a Aid,

    /// The key set. Key-ENC keeps its sequence counter.
    pub keys: KeySet<'a>,

    /// The slot of Key-ENC.
    pub slot: u8,
}

/// The key set that INITIALIZE UPDATE offers a session with, for the domain in a slot.
pub fn judge_initialize_update(
    tables: &Tables,
    domain: u8,
    version: u8,
) -> Result<OfferedSet<'_>, Rule>
    requires in_order { IsInOrder tables.now }
    ensures selected { IfOk result (λ found. found.aid.now ≡ domain_aid tables.now.entries.items domain) }
    ensures at { IfOk result (λ found. thing_in tables.now.keys.items found.slot ≡ Some found.keys.enc.now) }
    ensures next { IfOk result (λ found. HasNextCounter tables.now.keys.items found.slot) }
    ensures version { IfOk result (λ found. 1 ≤ found.keys.enc.now.version) }
    ensures lengths { IfOk result (λ found. HaveKeyLength found.keys) }
    ensures keys { (page : ℕ → List ℕ) (said : Registry) → Represents page tables.now said
        → IfOk result (λ found. AreKeysOf tables.now.entries.items said (domain_aid tables.now.entries.items found.keys.enc.now.owner) found.keys.enc.now.version found.keys) }
    ensures found { (page : ℕ → List ℕ) (said : Registry) (entry : Entry) → Represents page tables.now said → Well said
        → thing_in tables.now.entries.items domain ≡ Some entry
        → IfOk result (λ found. UsesSetOfKey tables.now.entries.items said domain version found.keys.enc.now) }
    ensures passed { (page : ℕ → List ℕ) (admitted : Admitted) → ActsIn page tables.now domain admitted → version ≡ admitted.command.p1
        → OnOk result (IsFirst (InitializeUpdateFails admitted) offer_rules None) }
    ensures refused { (page : ℕ → List ℕ) (admitted : Admitted) → ActsIn page tables.now domain admitted → version ≡ admitted.command.p1
        → IfErr result (λ rule. IsFirst (InitializeUpdateFails admitted) offer_rules (Some rule)) }
{
    let Some(entry) = in_slot(&tables.entries, domain) else {
        return Err(Rule::IU(RuleIU::IU2));
    };
    if entry.life.locked {
        return Err(Rule::M(RuleM::M2));
    }
    if is_shut_out(tables.life, &entry.aid) {
        return Err(Rule::IU(RuleIU::IU1));
    }
    let Some(found) = session_set(tables, domain, version) else {
        return Err(Rule::IU(RuleIU::IU2));
    };
    if found.thing.counter == COUNTER_LIMIT {
        return Err(Rule::IU(RuleIU::IU3));
    }
    Ok(OfferedSet {
        aid: &entry.aid,
        keys: set_with(tables, found.thing),
        slot: found.slot,
    })
}
