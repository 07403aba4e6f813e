//! Extradition: a thing goes to another security domain (GlobalPlatform Card Specification 2.3.1, 9.4.1).

ghost use Rattle.std.specs.Prelude.{◌≡◌, ℕ, List, true, Some, IsSome};
ghost use Rattle.registry.specs.Prelude.{HasFramesFor, KeepsRoom, Moves, Registry, Represents, Well, aid_of, domain_aid, thing_in, thing_page, thing_pages, with_staged, with_thing_in_domain};

use crate::entries::put_entry;
use card_types::{Found, in_slot};
use flash_core::Flash;
use rec_store::Records;

/// Moves an entry or an Executable Load File to the domain in the slot `domain`. It commits nothing.
pub fn move_to<F: Flash>(records: &mut Records<F>, thing: Found, domain: u8)
    requires live { records.old.live ≡ true }
    requires slot { IsSome (aid_of records.old.tables thing) }
    requires domain { IsSome (thing_in records.old.tables.entries.items domain) }
    requires room { HasFramesFor (thing_pages thing) records.old.staged }
    ensures said { (page : ℕ → List ℕ) (said : Registry) (aid : List ℕ) → aid_of records.old.tables thing ≡ Some aid
        → Represents page records.old.tables said → Well said → Represents page records.new.tables (with_thing_in_domain said aid (domain_aid records.old.tables.entries.items domain)) }
    ensures slots { Moves records.old.tables records.new.tables thing domain }
    ensures same { (records.new.flash ≡ records.old.flash) × (records.new.live ≡ true) }
    ensures staged { records.new.staged ≡ with_staged records.old.staged (thing_page thing) }
    ensures room { KeepsRoom (thing_pages thing) records.old.staged records.new.staged }
{
    match thing {
        Found::Entry(slot) => {
            let mut entry = *in_slot(&records.tables().entries, slot).unwrap();
            entry.domain = domain;
            put_entry(records, slot, Some(entry));
        }
        Found::File(slot) => {
            let mut file = *in_slot(&records.tables().files, slot).unwrap();
            file.domain = domain;
            records.set_file(slot, Some(file));
        }
    }
}
