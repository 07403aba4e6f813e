//! Security domains, and the steps up to a root.

ghost use Rattle.std.specs.Prelude.{◌≡◌, ◌↔◌, IsTrue, length};
ghost use Rattle.card_check.specs.CardSlots.{IsDomainSlot, SlotLeadsToRoot};
ghost use Rattle.card_types.specs.declared.limits.TheConstants.{ENTRIES};

use bitflags::Flags;
use card_types::{ENTRIES, Entry, Privileges, in_slot};

/// Whether the slot holds a security domain.
pub fn is_domain(entries: &[Option<Entry>], slot: u8) -> bool
    ensures { IsTrue result ↔ IsDomainSlot entries.now slot }
{
    match in_slot(entries, slot) {
        Some(entry) => entry.privileges.contains(Privileges::SECURITY_DOMAIN),
        None => false,
    }
}

/// Whether steps to the domain lead from the slot to a root, a domain that is its own. They are counted, since nothing is
/// known of loops.
pub fn leads_to_root(entries: &[Option<Entry>], slot: u8) -> bool
    requires { length entries.now ≡ ENTRIES }
    ensures { IsTrue result ↔ SlotLeadsToRoot entries.now slot }
{
    let mut at = slot;
    for _ in 0..ENTRIES {
        let Some(entry) = in_slot(entries, at) else {
            return false;
        };
        let domain = entry.domain;
        if domain == at {
            return true;
        }
        at = domain;
    }
    false
}
