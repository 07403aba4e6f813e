//! GET DATA (GlobalPlatform Card Specification 2.3.1, 11.3).

ghost use Rattle.std.specs.Prelude.{◌≡◌, ℕ, ◌&&◌, ◌==◌, List, Some, IfSome, IfNone, IfOk, IfErr};
ghost use Rattle.std.specs.Ordering.{nat_cmp};
ghost use Rattle.std.proofs.lemmas.Cmp.{nat_cmp_total, on_total};
ghost use Rattle.policy_rules.specs.Prelude.{HasData, IsFor, IsInOrder, IsTag, Parses, Registry, Represents, Well, domain_aid, thing_in};
ghost use Rattle.card_types.specs.declared.tables.Entry.{Entry};
ghost use Rattle.policy_machine.specs.declared.instruction.TheConstants.{GET_DATA};

use crate::request::Request;
use card_types::{KeyRec, Object, Search, Tables, least};
use policy_machine::{Rule, RuleGD, RulePS};
use policy_slots::{next_key, session_set};

/// Reads the data field. P1 and P2 are the tag, of any value.
pub(crate) fn parse_get_data(p1: u8, p2: u8, body: &[u8]) -> Result<Request<'_>, Rule>
    ensures { Parses GET_DATA p1 p2 body.now result }
{
    if !body.is_empty() {
        return Err(Rule::PS(RulePS::S));
    }
    Ok(Request::Get {
        tag: u16::from_be_bytes([p1, p2]),
    })
}

/// What was found for a tag.
#[derive(Clone, Copy)]
pub enum Datum<'a> {
    /// The first key of the domain: there is a key information template.
    Keys { first: &'a KeyRec },

    /// The sequence counter of the key set that a session would use.
    Counter { number: u32 },

    /// The data object.
    Object { object: &'a Object },
}

/// The tag of the key information template.
const KEY_INFORMATION: u16 = 0x00E0;

/// The tag of the sequence counter.
const SEQUENCE_COUNTER: u16 = 0x00C1;

// The data object of a domain with a tag.
#[derive(Drop)]
struct Tagged {
    owner: u8,
    tag: u16,
}

impl Search<Object> for Tagged {
    ghost fits = { λ tagged object. object.owner == tagged.owner && object.tag == tagged.tag };

    ghost order = { λ _ a b. nat_cmp a.tag b.tag };

    fn fits(&self, thing: &Object) -> bool {
        thing.owner == self.owner && thing.tag == self.tag
    }

    fn is_below(&self, a: &Object, b: &Object) -> bool {
        a.tag < b.tag
    }

    ghost total = { λ _. on_total (λ object. object.tag) nat_cmp_total };
}

// The data of a tag, where there is such data.
fn find_datum<'a>(tables: &'a Tables, domain: u8, tag: u16) -> Option<Datum<'a>>
    requires in_order { IsInOrder tables.now }
    ensures tagged { IfSome result (λ found. IsTag tag) }
    ensures some { (page : ℕ → List ℕ) (said : Registry) (entry : Entry) → Represents page tables.now said → Well said
        → thing_in tables.now.entries.items domain ≡ Some entry → IfSome result (IsFor tables.now said domain tag) }
    ensures none { (page : ℕ → List ℕ) (said : Registry) (entry : Entry) → Represents page tables.now said → Well said
        → thing_in tables.now.entries.items domain ≡ Some entry
        → IfNone result ((value : List ℕ) → HasData said (domain_aid tables.now.entries.items domain) tag value → ⊥) }
{
    if tag == KEY_INFORMATION {
        return Some(Datum::Keys {
            first: next_key(&tables.keys, domain, None)?,
        });
    }
    if tag == SEQUENCE_COUNTER {
        return Some(Datum::Counter {
            number: session_set(tables, domain, 0)?.thing.counter,
        });
    }
    Some(Datum::Object {
        object: least(&tables.objects, &Tagged { owner: domain, tag })?.thing,
    })
}

/// What GET DATA finds for a tag, for the domain in a slot.
pub fn judge_get_data<'a>(tables: &'a Tables, domain: u8, tag: u16) -> Result<Datum<'a>, RuleGD>
    requires in_order { IsInOrder tables.now }
    ensures tagged { IfOk result (λ found. IsTag tag) }
    ensures found { (page : ℕ → List ℕ) (said : Registry) (entry : Entry) → Represents page tables.now said → Well said
        → thing_in tables.now.entries.items domain ≡ Some entry → IfOk result (IsFor tables.now said domain tag) }
    ensures none { (page : ℕ → List ℕ) (said : Registry) (entry : Entry) → Represents page tables.now said → Well said
        → thing_in tables.now.entries.items domain ≡ Some entry
        → IfErr result (λ rule. (value : List ℕ) → HasData said (domain_aid tables.now.entries.items domain) tag value → ⊥) }
{
    match find_datum(tables, domain, tag) {
        Some(datum) => Ok(datum),
        None => Err(RuleGD::GD1),
    }
}
