//! Whether a card accepts a command of a security domain that was just selected.

ghost use Rattle.std.specs.Prelude.{◌≡◌, ◌↔◌, ℕ, List, None, Some, IsTrue};
ghost use Rattle.access_matrix.specs.Prelude.{FailsFirst, ForSaid, IsInOrder, IsSelectable, IsUsed, Registry, Represents, domain_aid, first_live, initialize, initialize_update, judged_there, live_with_channel};

use crate::slots::entry_aid;
use card_types::Tables;
use policy_rules::{Live, judge_initialize_update, judge_select};

/// What a card that was just powered on keeps of its channels, with the domain in a slot selected on the basic one.
pub(crate) fn live_with(domain: u8) -> Live
    ensures { result ≡ live_with_channel first_live 0 (Some domain) }
{
    let mut live = Live::powered_on();
    live.set_channel(0, Some(domain));
    live
}

/// Whether SELECT of the AID of the domain in a slot selects it: where it is locked or only installed, an entry with a longer AID or
/// none is.
pub(crate) fn is_selectable(tables: &Tables, domain: u8) -> bool
    requires in_order { IsInOrder tables.now }
    requires domain { IsUsed tables.now domain }
    ensures { (page : ℕ → List ℕ) (said : Registry) → Represents page tables.now said
        → IsTrue result ↔ IsSelectable said (domain_aid tables.now.entries.items domain) }
{
    let aid = entry_aid(tables, domain);
    match judge_select(tables, aid.as_bytes()) {
        Ok(found) => found.thing.aid == aid,
        Err(_) => false,
    }
}

/// Whether the domain in a slot offers a session once it is selected. That the host has the keys of the offer is not asked.
pub(crate) fn offers_session(tables: &Tables, domain: u8) -> bool
    requires in_order { IsInOrder tables.now }
    requires domain { IsUsed tables.now domain }
    ensures { ForSaid tables.now (λ said.
        IsTrue result ↔ FailsFirst initialize_update (judged_there said (domain_aid tables.now.entries.items domain) initialize) None) }
{
    judge_initialize_update(tables, domain, 0).is_ok()
}
