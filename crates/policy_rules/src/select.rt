//! SELECT by partial AID (ISO/IEC 7816-4:2013, 11.1.1; GlobalPlatform Card Specification 2.3.1, 11.9).

ghost use Rattle.std.specs.Prelude.{◌≡◌, ℕ, List, None, Some, IfOk, IfErr};
ghost use Rattle.std.proofs.lemmas.Cmp.{nat_list_cmp_total, on_total};
ghost use Rattle.policy_rules.specs.Prelude.{IsInOrder, Parses, Registry, Represents, aid_order, entry_of, fits_as, least_fitting, thing_in};
ghost use Rattle.card_types.specs.declared.factory.TheConstants.{ISSUER};
ghost use Rattle.policy_machine.specs.declared.instruction.TheConstants.{SELECT};

use crate::request::Request;
use card_types::{Aid, CardLife, Entry, ISSUER, InSlot, Life, Search, Tables, least};
use policy_machine::{Rule, RulePS, RuleSE};
use policy_slots::is_issuer;

/// Reads P1, P2 and the data field.
pub(crate) fn parse_select(p1: u8, p2: u8, body: &[u8]) -> Result<Request<'_>, Rule>
    ensures { Parses SELECT p1 p2 body.now result }
{
    if p1 != 0x04 || p2 != 0x00 {
        return Err(Rule::PS(RulePS::P));
    }
    if body.len() > 16 {
        return Err(Rule::PS(RulePS::S));
    }
    Ok(Request::Select { prefix: body })
}

// What SELECT looks for: entries that fit a partial AID.
#[derive(Drop)]
struct Fitting<'a> {
    card_life: CardLife,
    partial: &'a [u8],
}

impl Search<Entry> for Fitting<'_> {
    ghost fits = { λ fitting entry. fits_as fitting.card_life fitting.partial.now entry.aid entry.life };

    ghost order = { λ _ a b. aid_order a.aid b.aid };

    fn fits(&self, thing: &Entry) -> bool {
        if self.partial.is_empty() {
            return is_issuer(&thing.aid);
        }
        thing.aid.as_bytes().starts_with(self.partial)
            && !thing.life.locked
            && thing.life.life != Life::Installed
            && (self.card_life != CardLife::Locked || is_issuer(&thing.aid))
    }

    fn is_below(&self, a: &Entry, b: &Entry) -> bool {
        a.aid.is_below(&b.aid)
    }

    ghost total = { λ _. on_total (λ entry. entry.aid) nat_list_cmp_total };
}

/// The entry that SELECT takes: the least AID of those that fit.
pub fn judge_select<'a>(tables: &'a Tables, partial: &[u8]) -> Result<InSlot<'a, Entry>, RuleSE>
    requires in_order { IsInOrder tables.now }
    ensures at { IfOk result (λ found. thing_in tables.now.entries.items found.slot ≡ Some found.thing.now) }
    ensures found { (page : ℕ → List ℕ) (said : Registry) → Represents page tables.now said → IfOk result (λ found.
        least_fitting said partial.now ≡ Some (entry_of tables.now.entries.items tables.now.files.items found.thing.now)) }
    ensures none { (page : ℕ → List ℕ) (said : Registry) → Represents page tables.now said → IfErr result (λ rule. least_fitting said partial.now ≡ None) }
{
    let fitting = Fitting {
        card_life: tables.life,
        partial,
    };
    match least(&tables.entries, &fitting) {
        Some(found) => Ok(found),
        None => Err(RuleSE::SE1),
    }
}
