//! Acts and candidates by AIDs.

ghost use Rattle.std.specs.Prelude.{◌≡◌};
ghost use Rattle.access_matrix.specs.Prelude.{AreUsed, IsCandidate, IsInOrder};
ghost use Rattle.access_matrix.specs.Deeds.{deed_of as named_deed};
ghost use Rattle.access_matrix.specs.Next.{right_of as named_right};

use crate::act::Act;
use crate::candidate::Candidate;
use crate::deed::{Deed, Right};
use crate::slots::{entry_aid, load_file_aid, thing_aid};
use card_types::Tables;

/// An act by AIDs.
pub fn deed_of(tables: &Tables, act: &Act) -> Deed
    requires in_order { IsInOrder tables.now }
    requires used { AreUsed tables.now act.now }
    ensures { result ≡ named_deed tables.now act.now }
{
    match *act {
        Act::Delete(thing) => Deed::Delete(thing_aid(tables, thing)),
        Act::Related(file) => Deed::Related(load_file_aid(tables, file)),
        Act::Lock(entry) => Deed::Lock(entry_aid(tables, entry)),
        Act::Move(thing, domain) => {
            Deed::Move(thing_aid(tables, thing), entry_aid(tables, domain))
        }
        Act::Install(file) => Deed::Install(load_file_aid(tables, file)),
        Act::Load => Deed::Load,
    }
}

/// A candidate by AIDs. Whether it is a right is not asked.
pub fn right_of(tables: &Tables, candidate: &Candidate) -> Right
    requires in_order { IsInOrder tables.now }
    requires used { IsCandidate tables.now candidate.now }
    ensures { result ≡ named_right tables.now candidate.now }
{
    Right {
        domain: entry_aid(tables, candidate.domain),
        deed: deed_of(tables, &candidate.act),
    }
}
