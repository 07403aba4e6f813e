//! The nearest domain above an entry that holds a right.

ghost use Rattle.std.specs.Prelude.{◌≡◌, IfSome, IfNone, length};
ghost use Rattle.domain_tree.specs.Holders.{IsNearest, NoHolderAbove, is_holder};
ghost use Rattle.domain_tree.specs.Slots.{IsFreeOfLoops};

use crate::walk::{Wanted, first_above};
use bitflags::Flags;
use card_types::{ENTRIES, Entry, Privileges, in_slot};

#[derive(Drop)]
struct Holders<'a> {
    entries: &'a [Option<Entry>],
    right: Privileges,
    holders: u32,
}

impl Wanted for Holders<'_> {
    ghost fits = { λ search. is_holder search.entries.now search.right search.holders };

    fn fits(&self, slot: u8) -> bool {
        match in_slot(self.entries, slot) {
            Some(entry) => entry.privileges.contains(self.right) && (self.holders >> slot) & 1 == 1,
            None => false,
        }
    }
}

/// The slot of the nearest domain above the entry in the slot `from` that has the privileges of
/// `right` and is among the holders, one bit for each slot.
pub fn nearest(entries: &[Option<Entry>], from: u8, right: Privileges, holders: u32) -> Option<u8>
    requires whole { length entries.now ≡ ENTRIES }
    requires no_loops { IsFreeOfLoops entries.now }
    ensures some { IfSome result (IsNearest entries.now right holders from) }
    ensures none { IfNone result (NoHolderAbove entries.now right holders from) }
{
    let search = Holders {
        entries,
        right,
        holders,
    };
    first_above(entries, from, &search)
}
