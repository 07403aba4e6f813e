//! What is asked of an application or a security domain.

ghost use Rattle.std.specs.Prelude.{◌≡◌, ◌↔◌, IsTrue};
ghost use Rattle.card_check.specs.CardSlots.{HasKind, HasRights, IsCardEntry, has_domain_right as has_domain_right_of};
ghost use Rattle.card_types.specs.Represents.{HasSlots};
ghost use Rattle.card_types.specs.Privileges.{IsNamed};

use crate::domains::{is_domain, leads_to_root};
use crate::names::is_alone;
use crate::room::FACTORY_SLOT;
use crate::slots::Asks;
use bitflags::Flags;
use card_types::{Entry, FACTORY_MODULE, Found, Life, Privileges, RECEIPT_LIMIT, Tables, in_slot};

impl Asks<Entry> for Tables {
    ghost ready = { HasSlots };

    ghost admits = { IsCardEntry };

    fn admits(&self, slot: u8, entry: &Entry) -> bool {
        is_alone(self, Found::Entry(slot), entry.aid.as_bytes())
            && is_domain(&self.entries, entry.domain)
            && leads_to_root(&self.entries, slot)
            && in_slot(&self.files, entry.file).is_some()
            && has_kind(entry)
            && has_rights(entry.privileges)
            && entry.receipts <= RECEIPT_LIMIT
    }
}

// Whether it is a security domain or an application, as its Executable Load File has it, with a Module and a life cycle
// state to go with that.
fn has_kind(entry: &Entry) -> bool
    ensures { IsTrue result ↔ HasKind entry.now }
{
    let module = entry.module.as_bytes();
    let from_factory = entry.file == FACTORY_SLOT;
    entry.privileges.contains(Privileges::SECURITY_DOMAIN) == from_factory
        && (!from_factory || module == &FACTORY_MODULE[..])
        && (from_factory || entry.life.life != Life::Personalized)
}

// Whether the privileges have names and go together, with Security Domain or without it.
fn has_rights(privileges: Privileges) -> bool
    ensures { IsTrue result ↔ HasRights privileges }
{
    is_named(privileges)
        && (privileges.contains(Privileges::SECURITY_DOMAIN) || !has_domain_right(privileges))
        && !(privileges.contains(Privileges::AUTHORIZED_MANAGEMENT)
            && privileges.contains(Privileges::DELEGATED_MANAGEMENT))
}

fn is_named(privileges: Privileges) -> bool
    ensures { IsTrue result ↔ IsNamed privileges }
{
    Privileges::from_bits(privileges.bits()).is_some()
}

fn has_domain_right(privileges: Privileges) -> bool
    ensures { result ≡ has_domain_right_of privileges }
{
    privileges.contains(Privileges::AUTHORIZED_MANAGEMENT)
        || privileges.contains(Privileges::DELEGATED_MANAGEMENT)
        || privileges.contains(Privileges::TOKEN_VERIFICATION)
        || privileges.contains(Privileges::RECEIPT_GENERATION)
}
