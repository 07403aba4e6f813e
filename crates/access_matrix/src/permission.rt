//! Whether a security domain may do a deed.

ghost use Rattle.std.specs.Prelude.{◌↔◌, ℕ, List, IsTrue};
ghost use Rattle.access_matrix.specs.Prelude.{AreUsed, ForSaid, HoldsDomain, IsDeedAccepted, IsInOrder, IsUsed, May, Registry, Represents, deed_of, domain_aid};

use crate::acceptance::{is_selectable, offers_session};
use crate::act::Act;
use crate::command::{deletes, installs, loads, locks, moves};
use crate::slots::{entry_aid, load_file_aid, thing_aid};
use card_types::{CardLife, Tables};

// Whether the command of a deed is accepted in a session of the domain in a slot.
fn accepts(tables: &Tables, domain: u8, act: &Act) -> bool
    requires in_order { IsInOrder tables.now }
    requires domain { IsUsed tables.now domain }
    requires used { AreUsed tables.now act.now }
    ensures { ForSaid tables.now (λ said. IsTrue result ↔ IsDeedAccepted said (domain_aid tables.now.entries.items domain) (deed_of tables.now act.now)) }
{
    match *act {
        Act::Delete(thing) => deletes(tables, domain, thing_aid(tables, thing), false),
        Act::Related(file) => deletes(tables, domain, load_file_aid(tables, file), true),
        Act::Lock(entry) => locks(tables, domain, entry),
        Act::Move(thing, to) => {
            moves(
                tables,
                domain,
                thing_aid(tables, thing),
                entry_aid(tables, to),
            )
        }
        Act::Install(file) => installs(tables, domain, load_file_aid(tables, file)),
        Act::Load => loads(tables, domain),
    }
}

/// Whether the security domain in a slot may do a deed. The card is taken as it is once it was powered on: no other
/// channel is open, and no load session stands. What the deed would leave is not told, nor that the host has the keys
/// for a session.
pub fn may(tables: &Tables, domain: u8, act: &Act) -> bool
    requires in_order { IsInOrder tables.now }
    requires domain { HoldsDomain tables.now domain }
    requires used { AreUsed tables.now act.now }
    ensures { (page : ℕ → List ℕ) (said : Registry) → Represents page tables.now said
        → IsTrue result ↔ May said (domain_aid tables.now.entries.items domain) (deed_of tables.now act.now) }
{
    if tables.life == CardLife::Terminated {
        return false;
    }
    if !is_selectable(tables, domain) || !offers_session(tables, domain) {
        return false;
    }
    accepts(tables, domain, act)
}
