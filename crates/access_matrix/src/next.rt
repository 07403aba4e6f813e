//! The next candidate, and the next right.

ghost use Rattle.std.specs.Prelude.{ℕ, List, None, Some, IfSome, IfNone, option_copied, option_map};
ghost use Rattle.access_matrix.specs.Prelude.{HasAllowed, HasCandidate, HasLayout, IsInOrder, IsNextByKey, NoneNext, Registry, Represents, place_order, right_key};

use crate::acts::{first_act, next_act};
use crate::candidate::Candidate;
use crate::deed::Right;
use crate::following::{find_domain, next_domain};
use crate::names::right_of;
use crate::permission::may;
use card_types::Tables;

// The first candidate of all.
fn first_candidate(tables: &Tables) -> Option<Candidate>
    requires layout { HasLayout tables.now }
    ensures some { IfSome result (IsNextByKey (HasCandidate tables.now) place_order None) }
    ensures none { IfNone result (NoneNext (HasCandidate tables.now) place_order None) }
{
    let Some(domain) = next_domain(tables, None) else {
        return None;
    };
    match first_act(tables) {
        Some(act) => Some(Candidate { domain, act }),
        None => None,
    }
}

// The first candidate that comes after the last right: the next act of its domain, or the first act of the next domain.
fn candidate_after(tables: &Tables, last: &Right) -> Option<Candidate>
    requires layout { HasLayout tables.now }
    ensures some { IfSome result (IsNextByKey (HasCandidate tables.now) place_order (Some (right_key last.now))) }
    ensures none { IfNone result (NoneNext (HasCandidate tables.now) place_order (Some (right_key last.now))) }
{
    if let Some(domain) = find_domain(tables, &last.domain) {
        if let Some(act) = next_act(tables, &last.deed) {
            return Some(Candidate { domain, act });
        }
    }
    let Some(domain) = next_domain(tables, Some(&last.domain)) else {
        return None;
    };
    match first_act(tables) {
        Some(act) => Some(Candidate { domain, act }),
        None => None,
    }
}

// The first candidate that comes after the last right, or the first of all.
fn next_candidate(tables: &Tables, last: Option<&Right>) -> Option<Candidate>
    requires layout { HasLayout tables.now }
    ensures some { IfSome result (IsNextByKey (HasCandidate tables.now) place_order (option_map right_key (option_copied last.entry))) }
    ensures none { IfNone result (NoneNext (HasCandidate tables.now) place_order (option_map right_key (option_copied last.entry))) }
{
    match last {
        Some(last) => candidate_after(tables, last),
        None => first_candidate(tables),
    }
}

/// The candidate of the next right after the last one, or of the first.
pub fn next_right(tables: &Tables, last: Option<&Right>) -> Option<Candidate>
    requires in_order { IsInOrder tables.now }
    ensures some { (page : ℕ → List ℕ) (said : Registry) → Represents page tables.now said
        → IfSome result (IsNextByKey (HasAllowed said tables.now) place_order (option_map right_key (option_copied last.entry))) }
    ensures none { (page : ℕ → List ℕ) (said : Registry) → Represents page tables.now said
        → IfNone result (NoneNext (HasAllowed said tables.now) place_order (option_map right_key (option_copied last.entry))) }
{
    let mut next = next_candidate(tables, last);
    while let Some(candidate) = next {
        if may(tables, candidate.domain, &candidate.act) {
            return Some(candidate);
        }
        next = candidate_after(tables, &right_of(tables, &candidate));
    }
    None
}
