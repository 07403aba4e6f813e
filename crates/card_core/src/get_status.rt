//! GET STATUS: the registry is listed, in as many parts as it takes (GlobalPlatform Card Specification 2.3.1, 11.4).

ghost use Rattle.std.specs.Prelude.{◌≡◌, ◌+◌, ◌<◌, ◌≤◌, ◌++◌, ℕ, List, [], IfNone, IfSome, IsSome, OnErr, length, option_copied};
ghost use Rattle.card_core.specs.Prelude.{ActsIn, Admitted, ForActing, IsAsked, IsFirstShown, IsInOrder, IsListOf, IsPart, IsTemplate, IsThingAt, IsWellFormed, Lists, Registry, RepresentsState, Thing, aid_of};
ghost use Rattle.policy_rules.specs.declared.request.Request.TheVariants.{List as ListStatus};
ghost use Rattle.scp03_card.specs.declared.close.TheConstants.{DATA_LIMIT};

use crate::reply::{Answer, Reply};
use crate::status_template::{TEMPLATE_ROOM, write_template};
use apdu_core::Status;
use arrayvec::ArrayVec;
use card_types::{Aid, Found, Tables};
use policy_rules::{CHANNELS, ListRequest, Live, Place, judge_status, next_shown};
use scp03_card::DATA_LIMIT;

/// How many bytes a part of a listing has, at most.
const PART_LIMIT: usize = DATA_LIMIT;

// Appends the template of a thing, where the part has room for it; the thing's AID.
fn show(tables: &Tables, kind: u8, thing: Found, reply: &mut Reply) -> Option<Aid>
    requires used { IsSome (aid_of tables.now thing) }
    requires room { length reply.old.items ≤ PART_LIMIT }
    ensures named { IfSome result (λ aid. aid_of tables.now thing ≡ Some aid) }
    ensures shown { (page : ℕ → List ℕ) (said : Registry) (named : Thing) → tables.now.life ≡ said.life → IsThingAt page tables.now thing named
        → IfSome result (λ aid. (template : List ℕ) × IsTemplate said kind named template × (reply.new.items ≡ reply.old.items ++ template)) }
    ensures full { (page : ℕ → List ℕ) (said : Registry) (named : Thing) → tables.now.life ≡ said.life → IsThingAt page tables.now thing named
        → IfNone result ((template : List ℕ) × IsTemplate said kind named template × (PART_LIMIT < length reply.old.items + length template)) }
    ensures unchanged { IfNone result (reply.new ≡ reply.old) }
    ensures more { IfSome result (λ aid. length reply.old.items < length reply.new.items) }
    ensures fits { length reply.old.items + TEMPLATE_ROOM ≤ PART_LIMIT → IsSome result }
    ensures room { length reply.new.items ≤ PART_LIMIT }
{
    let mut template = ArrayVec::new();
    let aid = write_template(tables, kind, thing, &mut template);
    if reply.len() + template.len() > PART_LIMIT {
        return None;
    }
    reply.try_extend_from_slice(&template).unwrap();
    Some(aid)
}

// Shows one thing after the other, from the first one on, while the part has room. Where things are left it answers the last AID
// shown.
fn show_part(
    tables: &Tables,
    domain: u8,
    request: &ListRequest<'_>,
    first: Found,
    reply: &mut Reply,
) -> Option<Aid>
    requires in_order { IsInOrder tables.now }
    requires used { IsSome (aid_of tables.now first) }
    requires empty { reply.old.items ≡ [] }
    ensures part { (page : ℕ → List ℕ) (admitted : Admitted) → ActsIn page tables.now domain admitted → IsListOf request.now admitted.command
        → IsFirstShown page tables.now admitted request.now first → IsPart admitted reply.new.items result }
    ensures room { length reply.new.items ≤ PART_LIMIT }
{
    let mut last = show(tables, request.kind, first, reply).unwrap();
    while let Some(next) = next_shown(tables, domain, request.kind, request.prefix, Some(&last)) {
        match show(tables, request.kind, next, reply) {
            Some(aid) => last = aid,
            None => return Some(last),
        }
    }
    None
}

/// Lists for the domain in a slot what a GET STATUS asks for, as much as one part has room for. `place` is the place in a listing
/// that the channel had before the command; it gets another where things are left.
#[inline(never)]
pub fn get_status(
    tables: &Tables,
    live: &mut Live,
    place: Option<&Place>,
    channel: u8,
    domain: u8,
    request: &ListRequest<'_>,
    reply: &mut Reply,
) -> Answer
    requires in_order { IsInOrder tables.now }
    requires channel { channel < CHANNELS }
    requires formed { IsWellFormed (ListStatus request.now) }
    requires empty { reply.old.items ≡ [] }
    ensures done { ForActing tables.now domain (λ page told. RepresentsState page tables.now live.old told.at
        → IsAsked channel (ListStatus request.now) (option_copied place.entry) told
        → Lists told page tables.now live.old live.new reply.new.items result) }
    ensures refused { OnErr result (live.new ≡ live.old) }
    ensures room { length reply.new.items ≤ DATA_LIMIT }
{
    let first = match judge_status(tables, place, domain, request) {
        Ok(first) => first,
        Err(rule) => return Err(rule),
    };
    let Some(last) = show_part(tables, domain, request, first, reply) else {
        return Ok(Status(0x9000));
    };
    let mut body = ArrayVec::new();
    body.try_extend_from_slice(request.body).unwrap();
    live.set_place(
        channel,
        Place {
            kind: request.kind,
            body,
            last,
        },
    );
    Ok(Status(0x6310))
}
