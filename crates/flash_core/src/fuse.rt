//! A device that fails from some call on.

ghost use Rattle.std.specs.Prelude.{◌≡◌, ◌-◌, ◌==◌, not};

use crate::faulty::FaultyFlash;
use crate::flash::Flash;
use crate::plan::{CallKind, FaultPlan};

/// So many calls pass, and none after them.
#[derive(Clone, Copy)]
pub struct FailsAfter {
    pub left: u64,
}

impl FaultPlan for FailsAfter {
    ghost lets_pass = { λ plan call. not (plan.left == 0) };

    ghost after = { λ plan call. record { left = plan.left - 1 } };

    fn passes(&mut self, _call: CallKind) -> bool {
        if self.left == 0 {
            return false;
        }
        self.left -= 1;
        true
    }
}

/// A device that passes so many calls on. Then each call fails without reaching the device inside.
pub type FuseFlash<F> = FaultyFlash<F, FailsAfter>;

impl<F: Flash> FaultyFlash<F, FailsAfter> {
    /// Passes so many calls.
    pub fn new(inner: F, calls: u64) -> FuseFlash<F>
        ensures { result ≡ record { inner = inner; plan = record { left = calls }; refused = 0 } }
    {
        FaultyFlash::with_plan(inner, FailsAfter { left: calls })
    }
}
