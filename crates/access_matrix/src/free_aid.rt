//! AIDs for new things.

ghost use Rattle.std.specs.Prelude.{◌≡◌, ℕ, List};
ghost use Rattle.access_matrix.specs.Commands as commands;
ghost use Rattle.access_matrix.specs.Prelude.{IsFirstFreeAid, IsInOrder, Registry, Represents};

use card_types::{Aid, ENTRIES, FILES, Tables, find};

/// The most things that a card has, entries and Executable Load Files.
const THINGS: u32 = (ENTRIES + FILES) as u32;

// The AID with this number.
fn numbered_aid(number: u32) -> Aid
    ensures { result ≡ commands.numbered_aid number }
{
    let [first, second, third, fourth] = number.to_be_bytes();
    Aid::new(&[0xF0, first, second, third, fourth]).unwrap()
}

/// The first of the AIDs F000000000, F000000001 and so on that names nothing: neither an entry nor an Executable Load File. That of
/// a load session is none of these.
pub(crate) fn free_aid(tables: &Tables) -> Aid
    requires in_order { IsInOrder tables.now }
    ensures { (page : ℕ → List ℕ) (said : Registry) → Represents page tables.now said → IsFirstFreeAid said result }
{
    for number in 0..THINGS {
        let aid = numbered_aid(number);
        if find(tables, &aid).is_none() {
            return aid;
        }
    }
    numbered_aid(THINGS)
}
