//! The AIDs of things, by their slots.

ghost use Rattle.std.specs.Prelude.{◌≡◌, IsSome};
ghost use Rattle.access_matrix.specs.Prelude.{IsAid, IsInOrder, IsUsed, aid_of, domain_aid, file_aid, found_aid, thing_in};

use card_types::{Aid, Found, Tables, in_slot};

/// The AID of the entry in a slot that is used.
pub(crate) fn entry_aid(tables: &Tables, slot: u8) -> Aid
    requires in_order { IsInOrder tables.now }
    requires used { IsUsed tables.now slot }
    ensures aid { IsAid result }
    ensures named { result ≡ domain_aid tables.now.entries.items slot }
{
    in_slot(&tables.entries, slot).unwrap().aid
}

/// The AID of the Executable Load File in a slot that is used.
pub(crate) fn load_file_aid(tables: &Tables, slot: u8) -> Aid
    requires in_order { IsInOrder tables.now }
    requires used { IsSome (thing_in tables.now.files.items slot) }
    ensures aid { IsAid result }
    ensures named { result ≡ file_aid tables.now.files.items slot }
{
    in_slot(&tables.files, slot).unwrap().aid
}

/// The AID of a thing whose slot is used.
pub(crate) fn thing_aid(tables: &Tables, thing: Found) -> Aid
    requires in_order { IsInOrder tables.now }
    requires used { IsSome (aid_of tables.now thing) }
    ensures aid { IsAid result }
    ensures named { result ≡ found_aid tables.now thing }
{
    match thing {
        Found::Entry(slot) => entry_aid(tables, slot),
        Found::File(slot) => load_file_aid(tables, slot),
    }
}
