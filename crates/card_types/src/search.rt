//! Searches of slots: the first free one, the first thing that fits, and the least one.

ghost use Rattle.std.specs.Prelude.{◌≡◌, ◌≤◌, Bool, true, Some, IfSome, IfNone, if◌then◌else◌, length};
ghost use Rattle.std.specs.Cmp.{IsTotalOrder};
ghost use Rattle.std.specs.Ordering.{is_lt};
ghost use Rattle.std.specs.declared.cmp.Ordering.{Ordering};
ghost use Rattle.card_types.specs.Search.{IsFirstFitting, IsFirstFree, NoneFree, NoneFits, IsLeastFound, is_nearer};

/// What is looked for among things of one type.
pub trait Wants<T> {
    ghost fits: { Self → T → Bool };

    /// Whether the thing is one of those looked for.
    fn fits(&self, thing: &T) -> bool
        ensures { result ≡ fits self.now thing.now };
}

/// What is looked for among things of one type, and in which order.
pub trait Search<T> {
    ghost fits: { Self → T → Bool };

    ghost order: { Self → T → T → Ordering };

    /// Whether the thing is one of those looked for.
    fn fits(&self, thing: &T) -> bool
        ensures { result ≡ fits self.now thing.now };

    /// Whether `a` comes before `b`, of two that are looked for.
    fn is_below(&self, a: &T, b: &T) -> bool
        requires first { fits self.now a.now ≡ true }
        requires second { fits self.now b.now ≡ true }
        ensures { result ≡ is_lt (order self.now a.now b.now) };

    ghost total: { (search : Self) → IsTotalOrder (order search) };
}

/// A thing, and the slot that it is in.
#[derive(Drop)]
pub struct InSlot<'a, T> {
    pub slot: u8,
    pub thing: &'a T,
}

/// The first slot that holds nothing.
pub fn first_free<T>(slots: &[Option<T>]) -> Option<u8>
    requires { length slots.now ≤ 256 }
    ensures some { IfSome result (IsFirstFree slots.now) }
    ensures none { IfNone result (NoneFree slots.now) }
{
    for (slot, thing) in slots.iter().enumerate() {
        if thing.is_none() {
            return Some(slot as u8);
        }
    }
    None
}

/// The first of the things that are looked for.
pub fn first_that<'a, T, W: Wants<T>>(slots: &'a [Option<T>], wanted: &W) -> Option<InSlot<'a, T>>
    requires { length slots.now ≤ 256 }
    ensures some { IfSome result (IsFirstFitting (W.fits wanted.now) slots.now) }
    ensures none { IfNone result (NoneFits (W.fits wanted.now) slots.now) }
{
    for (slot, thing) in slots.iter().enumerate() {
        if let Some(thing) = thing {
            if wanted.fits(thing) {
                return Some(InSlot {
                    slot: slot as u8,
                    thing,
                });
            }
        }
    }
    None
}

/// The least of the things that are looked for.
pub fn least<'a, T, S: Search<T>>(slots: &'a [Option<T>], search: &S) -> Option<InSlot<'a, T>>
    requires { length slots.now ≤ 256 }
    ensures some { IfSome result (IsLeastFound (S.fits search.now) (S.order search.now) slots.now) }
    ensures none { IfNone result (NoneFits (S.fits search.now) slots.now) }
{
    let mut least: Option<InSlot<'a, T>> = None;
    for (slot, thing) in slots.iter().enumerate() {
        if let Some(thing) = thing {
            take_nearer(search, &mut least, slot as u8, thing);
        }
    }
    least
}

// Takes the thing for the least, where it is looked for and comes before the least so far. It is out of line, so that the
// loop has little to do for a free slot, as most are.
#[inline(never)]
fn take_nearer<'a, T, S: Search<T>>(
    search: &S,
    least: &mut Option<InSlot<'a, T>>,
    slot: u8,
    thing: &'a T,
)
    requires { IfSome least.old (λ found. S.fits search.now found.thing.now ≡ true) }
    ensures { least.new ≡ if is_nearer (S.fits search.now) (S.order search.now) least.old thing.now
        then Some (record { slot = slot; thing = thing.entry }) else least.old }
{
    if !search.fits(thing) {
        return;
    }
    if let Some(found) = least {
        if !search.is_below(thing, found.thing) {
            return;
        }
    }
    *least = Some(InSlot { slot, thing });
}
