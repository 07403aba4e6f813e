//! GET STATUS (GlobalPlatform Card Specification 2.3.1, 11.4).

ghost use Rattle.std.specs.Prelude.{◌≡◌, ◌↔◌, ℕ, List, None, Some, IfErr, IfNone, IfOk, IfSome, IsSome, IsTrue, OnOk, option_copied};
ghost use Rattle.policy_rules.specs.Prelude.{ActsIn, Admitted, BeginsAbove, GetStatusFails, IsAbove, IsFirst, IsFirstShown, IsInOrder, IsInTree, IsListOf, IsListedAs, IsListedAt, IsNextListed, IsPlaceBefore, IsSearch, IsThingAt, ListingFails, NoneListed, Parses, Sees, StatusParameters, Thing, acting, aid_of, found_in, get_status_rules, lower_of};
ghost use Rattle.policy_machine.specs.declared.get_status.RuleGS.TheVariants.{GS1};
ghost use Rattle.policy_machine.specs.declared.instruction.TheConstants.{GET_STATUS};

use crate::request::Request;
use bertlv::read;
use card_types::{Aid, ENTRIES, Found, Privileges, Tables, in_slot};
use policy_machine::{Rule, RuleGS, RuleM, RulePS};
use policy_slots::{Place, holds, is_at_or_above, is_in_charge, is_issuer, is_locked};

/// What a GET STATUS asks for: its P1, whether a listing goes on, what the AIDs begin with, and the whole data field.
#[derive(Clone, Copy, Debug)]
pub struct ListRequest<'a> {
    pub kind: u8,
    pub next: bool,
    pub prefix: &'a [u8],
    pub body: &'a [u8],
}

// What is in a slot, of the slots where what P1 names is.
fn in_kind(p1: u8, slot: u8) -> Found
    ensures { result ≡ found_in p1 slot }
{
    if p1 == 0x20 || p1 == 0x10 {
        Found::File(slot)
    } else {
        Found::Entry(slot)
    }
}

// Whether what has this AID is of the kind that P1 names.
fn is_kind(p1: u8, thing: Found, aid: &Aid) -> bool
    ensures { IsTrue result ↔ IsListedAs p1 thing aid.now }
{
    match thing {
        Found::Entry(_) => (p1 == 0x80 && is_issuer(aid)) || (p1 == 0x40 && !is_issuer(aid)),
        Found::File(_) => p1 == 0x20 || p1 == 0x10,
    }
}

// The AID of the thing in a slot.
fn aid_at(tables: &Tables, thing: Found) -> Option<Aid>
    ensures { result ≡ aid_of tables.now thing }
{
    match thing {
        Found::Entry(slot) => match in_slot(&tables.entries, slot) {
            Some(entry) => Some(entry.aid),
            None => None,
        },
        Found::File(slot) => match in_slot(&tables.files, slot) {
            Some(file) => Some(file.aid),
            None => None,
        },
    }
}

// Whether an AID is above the given one, if one is given.
fn is_past(after: Option<&Aid>, aid: &Aid) -> bool
    ensures { IsTrue result ↔ IsAbove (option_copied after.entry) aid.now }
{
    match after {
        Some(after) => after.is_below(aid),
        None => true,
    }
}

// Whether a thing is in the tree of the domain in a slot.
fn is_in_tree(tables: &Tables, domain: u8, thing: Found) -> bool
    requires in_order { IsInOrder tables.now }
    ensures { (page : ℕ → List ℕ) (admitted : Admitted) (named : Thing) → ActsIn page tables.now domain admitted
        → IsThingAt page tables.now thing named → IsTrue result ↔ IsInTree admitted.at.registry (acting admitted) named }
{
    match thing {
        Found::Entry(slot) => is_at_or_above(tables, domain, slot),
        Found::File(slot) => is_in_charge(tables, domain, slot),
    }
}

// Whether the domain in a slot sees a thing.
fn sees(tables: &Tables, domain: u8, thing: Found) -> bool
    requires in_order { IsInOrder tables.now }
    ensures { (page : ℕ → List ℕ) (admitted : Admitted) (named : Thing) → ActsIn page tables.now domain admitted
        → IsThingAt page tables.now thing named → IsTrue result ↔ Sees admitted.at.registry (acting admitted) named }
{
    is_in_tree(tables, domain, thing) || holds(&tables.entries, domain, Privileges::GLOBAL_REGISTRY)
}

// The AID of a thing, where it is listed for the domain in a slot.
fn listed_aid(
    tables: &Tables,
    domain: u8,
    p1: u8,
    partial: &[u8],
    after: Option<&Aid>,
    thing: Found,
) -> Option<Aid>
    requires in_order { IsInOrder tables.now }
    ensures named { IfSome result (λ aid. aid_of tables.now thing ≡ Some aid) }
    ensures some { (page : ℕ → List ℕ) (admitted : Admitted) → ActsIn page tables.now domain admitted
        → IfSome result (IsListedAt page tables.now admitted p1 partial.now (option_copied after.entry) thing) }
    ensures none { (page : ℕ → List ℕ) (admitted : Admitted) (aid : List ℕ) → ActsIn page tables.now domain admitted
        → IfNone result (IsListedAt page tables.now admitted p1 partial.now (option_copied after.entry) thing aid → ⊥) }
{
    let Some(aid) = aid_at(tables, thing) else {
        return None;
    };
    if !is_kind(p1, thing, &aid) || !is_past(after, &aid) {
        return None;
    }
    if !aid.as_bytes().starts_with(partial) || !sees(tables, domain, thing) {
        return None;
    }
    Some(aid)
}

// The thing with this AID, or one before that has no higher AID.
fn lower(before: Option<(Found, Aid)>, thing: Found, aid: Aid) -> (Found, Aid)
    ensures { result ≡ lower_of before thing aid }
{
    match before {
        Some((first, least)) => {
            if aid.is_below(&least) {
                (thing, aid)
            } else {
                (first, least)
            }
        }
        None => (thing, aid),
    }
}

/// The next thing that a GET STATUS shows to the domain in a slot: of those that its P1 names, whose AID begins with the partial
/// AID and is above the given one, if one is given, the one with the least AID. None is left where there is none.
pub fn next_shown(
    tables: &Tables,
    domain: u8,
    kind: u8,
    partial: &[u8],
    after: Option<&Aid>,
) -> Option<Found>
    requires in_order { IsInOrder tables.now }
    ensures some { (page : ℕ → List ℕ) (admitted : Admitted) → ActsIn page tables.now domain admitted
        → IfSome result (IsNextListed page tables.now admitted kind partial.now (option_copied after.entry)) }
    ensures none { (page : ℕ → List ℕ) (admitted : Admitted) → ActsIn page tables.now domain admitted
        → IfNone result (NoneListed admitted kind partial.now (option_copied after.entry)) }
    ensures used { IfSome result (λ found. IsSome (aid_of tables.now found)) }
{
    let mut least: Option<(Found, Aid)> = None;
    for slot in 0..ENTRIES {
        let thing = in_kind(kind, slot as u8);
        if let Some(aid) = listed_aid(tables, domain, kind, partial, after, thing) {
            least = Some(lower(least, thing, aid));
        }
    }
    match least {
        Some((thing, _)) => Some(thing),
        None => None,
    }
}

// Whether the place is that of a listing with the same P1 and the same data field.
fn is_place_of(place: &Place, request: &ListRequest<'_>) -> bool
    ensures { IsTrue result ↔ ((place.now.kind ≡ request.now.kind) × (place.now.body.items ≡ request.now.body.now)) }
{
    place.kind == request.kind && place.body.as_slice() == request.body
}

// The AID above which the listing begins or goes on, where it does.
fn begins_above<'a>(
    place: Option<&'a Place>,
    request: &ListRequest<'_>,
) -> Result<Option<&'a Aid>, RuleGS>
    ensures begins { (admitted : Admitted) → IsPlaceBefore (option_copied place.entry) admitted → IsListOf request.now admitted.command
        → IfOk result (λ after. BeginsAbove admitted (option_copied after)) }
    ensures passed { (admitted : Admitted) → IsPlaceBefore (option_copied place.entry) admitted → IsListOf request.now admitted.command
        → OnOk result (ListingFails admitted GS1 → ⊥) }
    ensures refused { (admitted : Admitted) → IsPlaceBefore (option_copied place.entry) admitted → IsListOf request.now admitted.command
        → IfErr result (λ rule. (rule ≡ GS1) × ListingFails admitted GS1) }
{
    if !request.next {
        return Ok(None);
    }
    let Some(place) = place else {
        return Err(RuleGS::GS1);
    };
    if !is_place_of(place, request) {
        return Err(RuleGS::GS1);
    }
    Ok(Some(&place.last))
}

/// Judges a GET STATUS for the domain in a slot, by the place in a listing that the channel had before the command: the first thing to
/// be shown.
pub fn judge_status(
    tables: &Tables,
    place: Option<&Place>,
    domain: u8,
    request: &ListRequest<'_>,
) -> Result<Found, Rule>
    requires in_order { IsInOrder tables.now }
    ensures passed { (page : ℕ → List ℕ) (admitted : Admitted) → ActsIn page tables.now domain admitted → IsPlaceBefore (option_copied place.entry) admitted
        → IsListOf request.now admitted.command → OnOk result (IsFirst (GetStatusFails admitted) get_status_rules None) }
    ensures refused { (page : ℕ → List ℕ) (admitted : Admitted) → ActsIn page tables.now domain admitted → IsPlaceBefore (option_copied place.entry) admitted
        → IsListOf request.now admitted.command → IfErr result (λ rule. IsFirst (GetStatusFails admitted) get_status_rules (Some rule)) }
    ensures found { (page : ℕ → List ℕ) (admitted : Admitted) → ActsIn page tables.now domain admitted → IsPlaceBefore (option_copied place.entry) admitted
        → IsListOf request.now admitted.command → IfOk result (IsFirstShown page tables.now admitted request.now) }
    ensures used { IfOk result (λ found. IsSome (aid_of tables.now found)) }
{
    if is_locked(tables, domain) {
        return Err(Rule::M(RuleM::M2));
    }
    let after = match begins_above(place, request) {
        Ok(after) => after,
        Err(rule) => return Err(Rule::GS(rule)),
    };
    match next_shown(tables, domain, request.kind, request.prefix, after) {
        Some(found) => Ok(found),
        None => Err(Rule::GS(RuleGS::GS2)),
    }
}

// Whether GET STATUS takes a P1 and a P2.
fn takes_parameters(p1: u8, p2: u8) -> bool
    ensures { IsTrue result ↔ StatusParameters p1 p2 }
{
    matches!(p1, 0x80 | 0x40 | 0x20 | 0x10) && matches!(p2, 0x02 | 0x03)
}

// The partial AID that the data field has.
fn read_search(body: &[u8]) -> Option<&[u8]>
    ensures some { IfSome result (λ partial. IsSearch body.now partial.now) }
    ensures none { IfNone result ((partial : List ℕ) → IsSearch body.now partial → ⊥) }
{
    let Ok((partial, rest)) = read(body) else {
        return None;
    };
    if partial.tag != 0x4F || partial.value.len() > 16 {
        return None;
    }
    if rest.is_empty() {
        return Some(partial.value);
    }
    let Ok((tags, end)) = read(rest) else {
        return None;
    };
    if tags.tag != 0x5C || !end.is_empty() {
        return None;
    }
    Some(partial.value)
}

/// Reads P1, P2 and the data field of a GET STATUS.
pub(crate) fn parse_get_status(p1: u8, p2: u8, body: &[u8]) -> Result<Request<'_>, Rule>
    ensures { Parses GET_STATUS p1 p2 body.now result }
{
    if !takes_parameters(p1, p2) {
        return Err(Rule::PS(RulePS::P));
    }
    match read_search(body) {
        Some(partial) => Ok(Request::List(ListRequest {
            kind: p1,
            next: p2 == 0x03,
            prefix: partial,
            body,
        })),
        None => Err(Rule::PS(RulePS::S)),
    }
}
