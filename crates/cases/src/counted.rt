//! A device that counts its calls.

ghost use Rattle.std.specs.Prelude.{◌≡◌};

use flash_core::{Flash, FlashFailed, Page};
use std::cell::Cell;

/// How many calls a device took.
#[derive(Clone, Copy)]
pub struct Calls {
    pub reads: u64,
    pub writes: u64,
    pub syncs: u64,
}

impl Calls {
    pub const NONE: Calls = Calls {
        reads: 0,
        writes: 0,
        syncs: 0,
    };
}

/// A device that passes all calls on, and counts them where others can look while a card has the device.
#[derive(Drop)]
pub struct CountedFlash<'a, F: Flash> {
    inner: F,
    calls: &'a Cell<Calls>,
}

impl<'a, F: Flash> CountedFlash<'a, F> {
    /// Counts the calls on this device from now on.
    pub fn new(inner: F, calls: &'a Cell<Calls>) -> CountedFlash<'a, F>
        ensures { result.inner ≡ inner }
    {
        CountedFlash { inner, calls }
    }

    /// The device that it passes calls on to.
    pub fn into_inner(self) -> F
        ensures { result ≡ self.entry.inner }
    {
        self.inner
    }
}

impl<'a, F: Flash> Flash for CountedFlash<'a, F> {
    ghost tells = { F.tells };

    ghost pages = { λ f. F.pages f.inner };

    ghost moment = { λ f. F.moment f.inner };

    ghost may_leave = { λ f. F.may_leave f.inner };

    ghost left_since = { λ f. F.left_since f.inner };

    ghost faults = { λ f. F.faults f.inner };

    ghost as_read = { λ f. F.as_read f.inner };

    ghost counts_now = { λ f. F.counts_now f.inner };

    ghost only_now = { λ f. F.only_now f.inner };

    fn read(&mut self, page: u16, into: &mut Page) -> Result<(), FlashFailed> {
        let mut calls = self.calls.get();
        calls.reads = calls.reads.saturating_add(1);
        self.calls.set(calls);
        self.inner.read(page, into)
    }

    fn write(&mut self, page: u16, from: &Page) -> Result<(), FlashFailed> {
        let mut calls = self.calls.get();
        calls.writes = calls.writes.saturating_add(1);
        self.calls.set(calls);
        self.inner.write(page, from)
    }

    fn sync(&mut self) -> Result<(), FlashFailed> {
        let mut calls = self.calls.get();
        calls.syncs = calls.syncs.saturating_add(1);
        self.calls.set(calls);
        self.inner.sync()
    }
}
