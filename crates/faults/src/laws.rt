//! The laws of counts, as a function that does nothing when it runs.
ghost use Rattle.faults.specs.Laws.{NextIsAbove, RoseAtRest};

/// Up to the last value of a `u64` a count that stands still has risen at that value alone, and the next of any lower
/// count is above it.
pub fn counts()
    ensures rose_at_rest { RoseAtRest }
    ensures next_above { NextIsAbove }
{}
