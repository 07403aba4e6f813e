//! Things in slots, a line each, in ascending order.

ghost use Rattle.std.specs.Prelude.{◌≡◌, ◌≤◌, ℕ, List, [], Bool, true, IfSome, IfNone, length, option_copied};
ghost use Rattle.std.specs.Cmp.{IsTotalOrder};
ghost use Rattle.std.specs.Ordering.{is_lt};
ghost use Rattle.std.specs.declared.cmp.Ordering.{Ordering};
ghost use Rattle.std.proofs.lemmas.Cmp.{on_total};
ghost use Rattle.gp_tool.specs.Prelude.{ForText, HasCause, IsLeastFound, NoneFits, Writes, comes_past, thing_in};

use crate::show::line::LINE_ROOM;
use arrayvec::ArrayVec;
use card_types::{InSlot, Search, least};
use io_edge::{Sink, WriteFailed};

/// Which of the things in slots are listed, and in which order.
pub trait Listing<T> {
    // A thing by names.
    ghost Named: { Type 0 };

    // What the registry has of a thing in a slot.
    ghost named: { Self → T → Named };

    // Whether a thing is listed.
    ghost listed: { Self → T → Bool };

    // The order in which things are listed.
    ghost order: { Named → Named → Ordering };

    /// Whether the thing is listed.
    fn is_listed(&self, thing: &T) -> bool
        ensures { result ≡ listed self.now thing.now };

    /// Whether `a` is listed before `b`.
    fn is_below(&self, a: &T, b: &T) -> bool
        ensures { result ≡ is_lt (order (named self.now a.now) (named self.now b.now)) };

    ghost total: { IsTotalOrder order };
}

/// A listing that writes a line of each thing.
pub trait TextListing<T>: Listing<T> {
    // The line of a thing.
    ghost text: { Self → T → List ℕ };

    // What is so of a thing whose line may be asked for.
    ghost can_spell: { Self → T → Type 0 };

    /// Writes the line of a thing to an empty line.
    fn spell(&self, thing: &T, line: &mut ArrayVec<u8, LINE_ROOM>)
        requires fits { can_spell self.now thing.now }
        requires empty { line.old.items ≡ [] }
        ensures { line.new.items ≡ text self.now thing.now };
}

// The things of a listing past the last one, if there is one.
#[derive(Drop)]
struct Past<'a, T, L> {
    listing: &'a L,
    last: Option<&'a T>,
}

impl<T, L: Listing<T>> Search<T> for Past<'_, T, L> {
    ghost fits = { λ past thing. comes_past (L.named past.listing.now) (L.listed past.listing.now) L.order (option_copied past.last) thing };

    ghost order = { λ past a b. L.order (L.named past.listing.now a) (L.named past.listing.now b) };

    fn fits(&self, thing: &T) -> bool {
        self.listing.is_listed(thing)
            && match self.last {
                Some(last) => self.listing.is_below(last, thing),
                None => true,
            }
    }

    fn is_below(&self, a: &T, b: &T) -> bool {
        self.listing.is_below(a, b)
    }

    ghost total = { λ past. on_total (L.named past.listing.now) L.total };
}

/// The first thing of a listing past the last one.
pub fn next<'a, T, L: Listing<T>>(
    listing: &L,
    slots: &'a [Option<T>],
    last: Option<&T>,
) -> Option<InSlot<'a, T>>
    requires { length slots.now ≤ 256 }
    ensures some { IfSome result (IsLeastFound (comes_past (L.named listing.now) (L.listed listing.now) L.order (option_copied last.entry))
        (λ a b. L.order (L.named listing.now a) (L.named listing.now b)) slots.now) }
    ensures none { IfNone result (NoneFits (comes_past (L.named listing.now) (L.listed listing.now) L.order (option_copied last.entry)) slots.now) }
{
    least(slots, &Past { listing, last })
}

/// Writes the lines of a listing.
pub fn write_lines<T, L: TextListing<T>, K: Sink>(
    listing: &L,
    slots: &[Option<T>],
    sink: &mut K,
) -> Result<(), WriteFailed>
    requires few { length slots.now ≤ 256 }
    requires fits { (slot : ℕ) (thing : T) → thing_in slots.now slot ≡ Some thing → L.listed listing.now thing ≡ true → L.can_spell listing.now thing }
    ensures written { ForText (L.named listing.now) (L.text listing.now) (L.listed listing.now) L.order slots.now
        (λ text. Writes K.tells (K.state sink.old).written (K.state sink.new).written text result) }
    ensures flushes { (K.state sink.new).flushes ≡ (K.state sink.old).flushes }
    ensures cause { HasCause (K.state sink.old).faults (K.state sink.new).faults result }
{
    let mut last = None;
    let mut line = ArrayVec::new();
    for _ in 0..slots.len() {
        match next(listing, slots, last) {
            Some(found) => {
                line.clear();
                listing.spell(found.thing, &mut line);
                sink.write_all(&line)?;
                last = Some(found.thing);
            }
            None => return Ok(()),
        }
    }
    Ok(())
}
