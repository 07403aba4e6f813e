//! AIDs, of which no two are the same.

ghost use Rattle.std.specs.Prelude.{◌≡◌, ◌≢◌, ◌↔◌, IsTrue, Some};
ghost use Rattle.card_check.specs.CardSlots.{IsOnlyWithAid};
ghost use Rattle.card_types.specs.Represents.{HasSlots};
ghost use Rattle.card_types.specs.Found.{aid_of};

use card_types::{ENTRIES, FILES, Found, Tables, in_slot};

/// Whether nothing in another slot than this one has the AID with these bytes.
pub fn is_alone(tables: &Tables, this: Found, aid: &[u8]) -> bool
    requires { HasSlots tables.now }
    ensures { IsTrue result ↔ IsOnlyWithAid tables.now this aid.now }
{
    for slot in 0..ENTRIES as u8 {
        if is_another(tables, this, aid, Found::Entry(slot)) {
            return false;
        }
    }
    for slot in 0..FILES as u8 {
        if is_another(tables, this, aid, Found::File(slot)) {
            return false;
        }
    }
    true
}

fn is_another(tables: &Tables, this: Found, aid: &[u8], other: Found) -> bool
    ensures { IsTrue result ↔ ((other ≢ this) × (aid_of tables.now other ≡ Some aid.now)) }
{
    other != this && has_aid(tables, other, aid)
}

fn has_aid(tables: &Tables, found: Found, aid: &[u8]) -> bool
    ensures { IsTrue result ↔ (aid_of tables.now found ≡ Some aid.now) }
{
    match found {
        Found::Entry(slot) => match in_slot(&tables.entries, slot) {
            Some(entry) => entry.aid.as_bytes() == aid,
            None => false,
        },
        Found::File(slot) => match in_slot(&tables.files, slot) {
            Some(file) => file.aid.as_bytes() == aid,
            None => false,
        },
    }
}
