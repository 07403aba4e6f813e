//! STORE DATA (GlobalPlatform Card Specification 2.3.1, 11.11).

ghost use Rattle.std.specs.Prelude.{◌≡◌, ◌↔◌, ◌+◌, ◌≤◌, ℕ, List, None, Some, IfErr, IsTrue, OnOk, length};
ghost use Rattle.policy_rules.specs.Prelude.{ActsIn, Admitted, AreElements, AreObjects, Element, IsInOrder, IsObject, IsRequestOf, Judges, Parses, StoreDataField, StoreDataParameters, has_object_in, is_tagged_in, new_tags, things_in};
ghost use Rattle.card_types.specs.declared.limits.TheConstants.{OBJECTS};
ghost use Rattle.policy_machine.specs.declared.instruction.TheConstants.{STORE_DATA};
ghost use Rattle.policy_rules.specs.declared.request.Request.TheVariants.{Store};

use crate::request::Request;
use bertlv::{Tlv, read};
use card_types::{OBJECTS, Object, Tables, is_object};
use policy_machine::{Rule, RulePS, RuleSD};
use policy_slots::{has_tag, judge_management};

// Whether a domain may have the data object.
fn may_be_stored(element: &Tlv<'_>) -> bool
    ensures { IsTrue result ↔ IsObject element.now.tag (length element.now.value.now) }
{
    is_object(element.tag, element.value.len())
}

// Whether the bytes are data objects that a domain may have, none or more.
fn are_objects(bytes: &[u8]) -> bool
    ensures { IsTrue result ↔ AreObjects bytes.now }
{
    let mut rest = bytes;
    while !rest.is_empty() {
        let Ok((element, after)) = read(rest) else {
            return false;
        };
        if !may_be_stored(&element) {
            return false;
        }
        rest = after;
    }
    true
}

// Whether STORE DATA takes a P1.
fn takes(p1: u8) -> bool
    ensures { IsTrue result ↔ StoreDataParameters p1 }
{
    matches!(p1, 0x00 | 0x80 | 0x10 | 0x90)
}

// Whether the bytes are one or more data objects that a domain may have.
fn takes_field(body: &[u8]) -> bool
    ensures { IsTrue result ↔ StoreDataField body.now }
{
    !body.is_empty() && are_objects(body)
}

/// Reads P1 and the data field: data objects. P2 is any block number.
pub(crate) fn parse_store_data(p1: u8, p2: u8, body: &[u8]) -> Result<Request<'_>, Rule>
    ensures { Parses STORE_DATA p1 p2 body.now result }
{
    if !takes(p1) {
        return Err(Rule::PS(RulePS::P));
    }
    if !takes_field(body) {
        return Err(Rule::PS(RulePS::S));
    }
    Ok(Request::Store { objects: body })
}

fn is_tagged(held: &Option<Object>, owner: u8, tag: u16) -> bool
    ensures { result ≡ is_tagged_in owner tag held.now }
{
    match held {
        Some(object) => object.owner == owner && object.tag == tag,
        None => false,
    }
}

// Whether the domain in a slot has a data object with a tag.
fn has_object(objects: &[Option<Object>], owner: u8, tag: u16) -> bool
    ensures { result ≡ has_object_in objects.now owner tag }
{
    objects.iter().any(|held| is_tagged(held, owner, tag))
}

// How many of the elements have a tag that the domain in a slot has no data object with. A tag counts once.
fn count_new(objects: &[Option<Object>], owner: u8, elements: &[u8]) -> usize
    ensures number { (are : List Element) → AreElements are elements.now → result ≡ new_tags (has_object_in objects.now owner) are }
    ensures most { result ≤ length elements.now }
{
    let mut rest = elements;
    let mut count = 0;
    while let Ok((element, after)) = read(rest) {
        if !has_object(objects, owner, element.tag) && !has_tag(after, element.tag) {
            count += 1;
        }
        rest = after;
    }
    count
}

// How many data objects there are.
fn count_used(objects: &[Option<Object>]) -> usize
    ensures number { result ≡ length (things_in objects.now) }
    ensures most { result ≤ length objects.now }
{
    objects.iter().filter(|held| held.is_some()).count()
}

/// Judges a STORE DATA of these data objects for the domain in a slot.
pub fn judge_store_data(tables: &Tables, domain: u8, objects: &[u8]) -> Result<(), Rule>
    requires in_order { IsInOrder tables.now }
    ensures passed { (page : ℕ → List ℕ) (admitted : Admitted) → ActsIn page tables.now domain admitted
        → IsRequestOf (Store objects.entry) admitted.command → OnOk result (Judges admitted None) }
    ensures refused { (page : ℕ → List ℕ) (admitted : Admitted) → ActsIn page tables.now domain admitted
        → IsRequestOf (Store objects.entry) admitted.command → IfErr result (λ rule. Judges admitted (Some rule)) }
    ensures roomy { (are : List Element) → AreElements are objects.now
        → OnOk result (length (things_in tables.now.objects.items) + new_tags (has_object_in tables.now.objects.items domain) are ≤ OBJECTS) }
{
    judge_management(tables, domain)?;
    let used = count_used(&tables.objects);
    if used + count_new(&tables.objects, domain, objects) > OBJECTS {
        return Err(Rule::SD(RuleSD::SD1));
    }
    Ok(())
}
