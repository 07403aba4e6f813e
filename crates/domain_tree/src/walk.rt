//! A walk from a slot up to its root.

ghost use Rattle.std.specs.Prelude.{◌≡◌, ◌↔◌, ℕ, ◌<◌, ◌==◌, Bool, IsTrue, IfSome, IfNone, length};
ghost use Rattle.card_types.specs.Represents.{domain_slot};
ghost use Rattle.domain_tree.specs.Above.{Above, IsFirstAbove, NoneAbove};
ghost use Rattle.domain_tree.specs.Slots.{IsFreeOfLoops};

use card_types::{ENTRIES, Entry, in_slot};

/// What is looked for on the way up.
pub trait Wanted {
    ghost fits: { Self → ℕ → Bool };

    fn fits(&self, slot: u8) -> bool
        requires { slot < ENTRIES }
        ensures { result ≡ fits self.now slot };
}

/// The first slot above this one that is looked for.
pub fn first_above<S: Wanted>(entries: &[Option<Entry>], slot: u8, wanted: &S) -> Option<u8>
    requires whole { length entries.now ≡ ENTRIES }
    requires no_loops { IsFreeOfLoops entries.now }
    ensures some { IfSome result (IsFirstAbove (domain_slot entries.now) (S.fits wanted.now) slot) }
    ensures none { IfNone result (NoneAbove (domain_slot entries.now) (S.fits wanted.now) slot) }
{
    let mut at = slot;
    for _ in 0..ENTRIES {
        let Some(entry) = in_slot(entries, at) else {
            return None;
        };
        let domain = entry.domain;
        if domain == at {
            return None;
        }
        if wanted.fits(domain) {
            return Some(domain);
        }
        at = domain;
    }
    None
}

#[derive(Drop)]
struct IsSlot(u8);

impl Wanted for IsSlot {
    ghost fits = { λ this slot. slot == this.0 };

    fn fits(&self, slot: u8) -> bool {
        slot == self.0
    }
}

/// Whether the domain in the slot `a` is above the entry in the slot `b`.
pub fn above(entries: &[Option<Entry>], a: u8, b: u8) -> bool
    requires whole { length entries.now ≡ ENTRIES }
    requires no_loops { IsFreeOfLoops entries.now }
    ensures { IsTrue result ↔ Above (domain_slot entries.now) a b }
{
    first_above(entries, b, &IsSlot(a)).is_some()
}

/// Whether the entry in the slot `thing` would be above itself with the domain in the slot `new`, a domain that is then
/// below it. With itself as its domain it is a root.
pub fn would_loop(entries: &[Option<Entry>], thing: u8, new: u8) -> bool
    requires whole { length entries.now ≡ ENTRIES }
    requires no_loops { IsFreeOfLoops entries.now }
    ensures { IsTrue result ↔ Above (domain_slot entries.now) thing new }
{
    above(entries, thing, new)
}
