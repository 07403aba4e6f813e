//! The device of a case: in memory, counted, and made to fail where the case says.

ghost use Rattle.std.specs.Prelude.{◌≡◌};

use crate::counted::{Calls, CountedFlash};
use flash_core::{FuseFlash, MemFlash, OnceFlash};
use std::cell::Cell;

pub type Device<'a> = CountedFlash<'a, OnceFlash<FuseFlash<MemFlash>>>;

/// Which calls fail, of those that a device takes from then on: the one with the number `once`, and all after
/// the first `fuse`.
#[derive(Clone, Copy)]
pub struct Faults {
    pub once: u64,
    pub fuse: u64,
}

impl Faults {
    /// No call fails.
    pub const NONE: Faults = Faults {
        once: u64::MAX,
        fuse: u64::MAX,
    };
}

/// A device whose calls fail so.
pub fn failing<'a>(flash: MemFlash, faults: Faults, calls: &'a Cell<Calls>) -> Device<'a>
    ensures { result.inner.inner.inner ≡ flash }
{
    let fused = FuseFlash::new(flash, faults.fuse);
    CountedFlash::new(OnceFlash::new(fused, faults.once), calls)
}

/// The memory of a device.
pub fn memory(device: Device<'_>) -> MemFlash
    ensures { result ≡ device.entry.inner.inner.inner }
{
    device.into_inner().into_inner().into_inner()
}
