//! All that is asked of tables.

ghost use Rattle.std.specs.Prelude.{◌↔◌, ℕ, List, IsTrue, All};
ghost use Rattle.card_check.specs.CardSlots.{HasCardSlots};
ghost use Rattle.card_check.specs.IsCard.{HasPages, IsCard};
ghost use Rattle.card_check.specs.LoadPages.{HasPageNumbers};
ghost use Rattle.card_types.specs.Represents.{things_in};

use crate::load_pages::have_load_pages;
use crate::room::{has_factory_file, has_issuer, has_room};
use crate::slots::all_admitted;
use card_types::Tables;

/// Whether the tables are a card's. Of the load pages it matters only that each has 256 bytes.
pub fn is_card(tables: &Tables) -> bool
    ensures { (page : ℕ → List ℕ) → HasPages page → (IsTrue result ↔ IsCard page tables.now) }
{
    has_card_slots(tables)
}

// By the numbers of the slots.
fn has_card_slots(tables: &Tables) -> bool
    ensures is { IsTrue result ↔ HasCardSlots tables.now }
    ensures arrays { IsTrue result → All HasPageNumbers (things_in tables.now.files.items) }
{
    has_room(tables)
        && has_issuer(tables)
        && has_factory_file(tables)
        && all_admitted(&tables.entries, tables)
        && all_admitted(&tables.files, tables)
        && have_load_pages(&tables.files)
        && all_admitted(&tables.keys, tables)
        && all_admitted(&tables.objects, tables)
}
