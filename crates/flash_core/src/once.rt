//! A device that fails once.

ghost use Rattle.std.specs.Prelude.{◌≡◌, Some};
ghost use Rattle.flash_core.specs.Wrapped.{passes_once, waits_after};

use crate::faulty::FaultyFlash;
use crate::flash::Flash;
use crate::plan::{CallKind, FaultPlan};

/// One call fails, after `wait` others that pass. It has come where that is `None`.
#[derive(Clone, Copy)]
pub struct FailsOnce {
    pub wait: Option<u64>,
}

impl FaultPlan for FailsOnce {
    ghost lets_pass = { λ plan call. passes_once plan.wait };

    ghost after = { λ plan call. record { wait = waits_after plan.wait } };

    fn passes(&mut self, _call: CallKind) -> bool {
        match self.wait {
            None => true,
            Some(0) => {
                self.wait = None;
                false
            }
            Some(n) => {
                self.wait = Some(n - 1);
                true
            }
        }
    }
}

/// A device of which one call fails without reaching the device inside. All others pass.
pub type OnceFlash<F> = FaultyFlash<F, FailsOnce>;

impl<F: Flash> FaultyFlash<F, FailsOnce> {
    /// The call with this number, from 0, fails.
    pub fn new(inner: F, call: u64) -> OnceFlash<F>
        ensures { result ≡ record { inner = inner; plan = record { wait = Some call }; refused = 0 } }
    {
        FaultyFlash::with_plan(inner, FailsOnce { wait: Some(call) })
    }
}
