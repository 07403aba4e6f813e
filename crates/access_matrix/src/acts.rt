//! The acts of a security domain, in the order of their deeds.

ghost use Rattle.std.specs.Prelude.{[], ◌∷◌, None, Some, IfSome, IfNone, option_copied, option_map};
ghost use Rattle.access_matrix.specs.Prelude.{HasLayout, HasPlace, HasPlaceFrom, HasSpot, IsNextByKey, NoneNext, alone, deed_kind, deed_place, kind_number, place_order, spot_of};

use crate::act::Act;
use crate::deed::Deed;
use crate::following::{next_domain, next_entry, next_file, next_thing};
use crate::kind::Kind;
use card_types::{Aid, Tables, find};

// DELETE of the thing that comes next.
fn next_delete(tables: &Tables, after: Option<&Aid>) -> Option<Act>
    requires layout { HasLayout tables.now }
    ensures some { IfSome result (IsNextByKey (HasSpot tables.now 0) place_order (option_map alone (option_copied after.entry))) }
    ensures none { IfNone result (NoneNext (HasSpot tables.now 0) place_order (option_map alone (option_copied after.entry))) }
{
    match next_thing(tables, after) {
        Some(thing) => Some(Act::Delete(thing)),
        None => None,
    }
}

// DELETE of the Executable Load File that comes next, with what comes from it.
fn next_related(tables: &Tables, after: Option<&Aid>) -> Option<Act>
    requires layout { HasLayout tables.now }
    ensures some { IfSome result (IsNextByKey (HasSpot tables.now 1) place_order (option_map alone (option_copied after.entry))) }
    ensures none { IfNone result (NoneNext (HasSpot tables.now 1) place_order (option_map alone (option_copied after.entry))) }
{
    match next_file(tables, after) {
        Some(file) => Some(Act::Related(file)),
        None => None,
    }
}

// SET STATUS of the entry that comes next.
fn next_lock(tables: &Tables, after: Option<&Aid>) -> Option<Act>
    requires layout { HasLayout tables.now }
    ensures some { IfSome result (IsNextByKey (HasSpot tables.now 2) place_order (option_map alone (option_copied after.entry))) }
    ensures none { IfNone result (NoneNext (HasSpot tables.now 2) place_order (option_map alone (option_copied after.entry))) }
{
    match next_entry(tables, after) {
        Some(entry) => Some(Act::Lock(entry)),
        None => None,
    }
}

// INSTALL [for install and make selectable] from the Executable Load File that comes next.
fn next_install(tables: &Tables, after: Option<&Aid>) -> Option<Act>
    requires layout { HasLayout tables.now }
    ensures some { IfSome result (IsNextByKey (HasSpot tables.now 4) place_order (option_map alone (option_copied after.entry))) }
    ensures none { IfNone result (NoneNext (HasSpot tables.now 4) place_order (option_map alone (option_copied after.entry))) }
{
    match next_file(tables, after) {
        Some(file) => Some(Act::Install(file)),
        None => None,
    }
}

// INSTALL [for extradition] of the first thing to the first security domain.
fn first_move(tables: &Tables) -> Option<Act>
    requires layout { HasLayout tables.now }
    ensures some { IfSome result (IsNextByKey (HasSpot tables.now 3) place_order None) }
    ensures none { IfNone result (NoneNext (HasSpot tables.now 3) place_order None) }
{
    let Some(thing) = next_thing(tables, None) else {
        return None;
    };
    match next_domain(tables, None) {
        Some(domain) => Some(Act::Move(thing, domain)),
        None => None,
    }
}

// INSTALL [for extradition] of the same thing to the next security domain, or of the next thing to the first one.
fn next_move(tables: &Tables, thing: &Aid, goal: &Aid) -> Option<Act>
    requires layout { HasLayout tables.now }
    ensures some { IfSome result (IsNextByKey (HasSpot tables.now 3) place_order (Some (thing.now ∷ goal.now ∷ []))) }
    ensures none { IfNone result (NoneNext (HasSpot tables.now 3) place_order (Some (thing.now ∷ goal.now ∷ []))) }
{
    if let Some(found) = find(tables, thing) {
        if let Some(domain) = next_domain(tables, Some(goal)) {
            return Some(Act::Move(found, domain));
        }
    }
    let Some(next) = next_thing(tables, Some(thing)) else {
        return None;
    };
    match next_domain(tables, None) {
        Some(domain) => Some(Act::Move(next, domain)),
        None => None,
    }
}

// The first act of a kind.
fn first_of(tables: &Tables, kind: Kind) -> Option<Act>
    requires layout { HasLayout tables.now }
    ensures some { IfSome result (IsNextByKey (HasSpot tables.now (kind_number kind)) place_order None) }
    ensures none { IfNone result (NoneNext (HasSpot tables.now (kind_number kind)) place_order None) }
{
    match kind {
        Kind::Delete => next_delete(tables, None),
        Kind::Related => next_related(tables, None),
        Kind::Lock => next_lock(tables, None),
        Kind::Move => first_move(tables),
        Kind::Install => next_install(tables, None),
        Kind::Load => Some(Act::Load),
    }
}

// The next act of the same kind.
fn next_like(tables: &Tables, last: &Deed) -> Option<Act>
    requires layout { HasLayout tables.now }
    ensures some { IfSome result (IsNextByKey (HasSpot tables.now (deed_kind last.now)) place_order (Some (spot_of last.now))) }
    ensures none { IfNone result (NoneNext (HasSpot tables.now (deed_kind last.now)) place_order (Some (spot_of last.now))) }
{
    match last {
        Deed::Delete(aid) => next_delete(tables, Some(aid)),
        Deed::Related(file) => next_related(tables, Some(file)),
        Deed::Lock(aid) => next_lock(tables, Some(aid)),
        Deed::Move(thing, goal) => next_move(tables, thing, goal),
        Deed::Install(file) => next_install(tables, Some(file)),
        Deed::Load => None,
    }
}

// The first act of this kind or a later one.
fn first_from(tables: &Tables, kind: Kind) -> Option<Act>
    requires layout { HasLayout tables.now }
    ensures some { IfSome result (IsNextByKey (HasPlaceFrom tables.now (kind_number kind)) place_order None) }
    ensures none { IfNone result (NoneNext (HasPlaceFrom tables.now (kind_number kind)) place_order None) }
{
    match first_of(tables, kind) {
        Some(act) => Some(act),
        None => match kind.next() {
            Some(later) => first_from(tables, later),
            None => None,
        },
    }
}

/// The first act of all, whether or not it may be done.
pub fn first_act(tables: &Tables) -> Option<Act>
    requires layout { HasLayout tables.now }
    ensures some { IfSome result (IsNextByKey (HasPlace tables.now) place_order None) }
    ensures none { IfNone result (NoneNext (HasPlace tables.now) place_order None) }
{
    first_from(tables, Kind::Delete)
}

/// The first act whose deed comes after the last one, whether or not it may be done.
pub fn next_act(tables: &Tables, last: &Deed) -> Option<Act>
    requires layout { HasLayout tables.now }
    ensures some { IfSome result (IsNextByKey (HasPlace tables.now) place_order (Some (deed_place last.now))) }
    ensures none { IfNone result (NoneNext (HasPlace tables.now) place_order (Some (deed_place last.now))) }
{
    match next_like(tables, last) {
        Some(act) => Some(act),
        None => match Kind::of(last).next() {
            Some(later) => first_from(tables, later),
            None => None,
        },
    }
}
