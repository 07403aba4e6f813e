//! The rights of a card, line by line.

ghost use Rattle.std.specs.Prelude.{◌≡◌, ◌<◌, ◌≤◌, ℕ, List, false, None, IsTrue, MatchOption};
ghost use Rattle.access_matrix.specs.Prelude.{IsInOrder, IsNextRight, NoRightAfter, Registry, Represents, array_vec_len, line_of, rights_left};

use crate::deed::Right;
use crate::line::{LINE_ROOM, is_locked, push_right};
use crate::names::right_of;
use crate::next::next_right;
use arrayvec::ArrayVec;
use card_types::Tables;

/// A walk through the rights of a card, in order, line by line.
#[derive(Drop)]
pub struct Walk {
    /// The right whose line was given last.
    pub last: Option<Right>,
}

impl Walk {
    /// A walk that comes to the first right next.
    pub fn new() -> Walk
        ensures { result.last ≡ None }
    {
        Walk { last: None }
    }

    /// Writes the line of the next right, if there is one. A card that changed between two lines is walked on as it is now.
    pub fn next_line(&mut self, tables: &Tables, out: &mut ArrayVec<u8, LINE_ROOM>) -> bool
        requires in_order { IsInOrder tables.now }
        ensures next { (page : ℕ → List ℕ) (said : Registry) → Represents page tables.now said
            → IsTrue result → MatchOption self.new.last ⊥ (IsNextRight said self.old.last) }
        ensures line { (page : ℕ → List ℕ) (said : Registry) → Represents page tables.now said
            → IsTrue result → MatchOption self.new.last ⊥ (λ right. out.new.items ≡ line_of said right) }
        ensures end { (page : ℕ → List ℕ) (said : Registry) → Represents page tables.now said
            → result ≡ false → NoRightAfter said self.old.last }
        ensures fewer { IsTrue result → rights_left tables.now self.new.last < rights_left tables.now self.old.last }
        ensures size { array_vec_len out.new ≤ 105 }
    {
        out.clear();
        match next_right(tables, self.last.as_ref()) {
            Some(candidate) => {
                let right = right_of(tables, &candidate);
                push_right(&right, is_locked(tables, &candidate.act), out);
                self.last = Some(right);
                true
            }
            None => false,
        }
    }
}
