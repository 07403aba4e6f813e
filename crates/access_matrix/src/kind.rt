//! The kinds of deeds.

ghost use Rattle.std.specs.Prelude.{◌≡◌, ◌+◌, MatchOption};
ghost use Rattle.access_matrix.specs.Kinds.{kind_number};
ghost use Rattle.access_matrix.specs.Rights.{deed_kind};

use crate::deed::Deed;

/// What kind of deed it is. The kinds are in their order.
#[derive(Clone, Copy, Debug, PartialEq, Eq)]
pub enum Kind {
    Delete,
    Related,
    Lock,
    Move,
    Install,
    Load,
}

impl Kind {
    /// The kind of a deed.
    pub fn of(deed: &Deed) -> Kind
        ensures { kind_number result ≡ deed_kind deed.now }
    {
        match deed {
            Deed::Delete(_) => Kind::Delete,
            Deed::Related(_) => Kind::Related,
            Deed::Lock(_) => Kind::Lock,
            Deed::Move(_, _) => Kind::Move,
            Deed::Install(_) => Kind::Install,
            Deed::Load => Kind::Load,
        }
    }

    /// The kind that comes next, if it is not the last.
    pub fn next(self) -> Option<Kind>
        ensures { MatchOption result (kind_number self ≡ 5) (λ later. kind_number later ≡ kind_number self + 1) }
    {
        match self {
            Kind::Delete => Some(Kind::Related),
            Kind::Related => Some(Kind::Lock),
            Kind::Lock => Some(Kind::Move),
            Kind::Move => Some(Kind::Install),
            Kind::Install => Some(Kind::Load),
            Kind::Load => None,
        }
    }
}
