//! A plan by which writes and syncs fail from some on.

ghost use Rattle.std.specs.Prelude.{◌-◌, ◌==◌, not, true};
ghost use Rattle.flash_core.specs.declared.plan.CallKind.TheVariants.{Read, Write, Sync};

use flash_core::{CallKind, FaultPlan};

/// All reads pass, and so many writes and syncs.
#[derive(Clone, Copy)]
pub struct FailsAfterChanges {
    pub left: u64,
}

impl FaultPlan for FailsAfterChanges {
    ghost lets_pass = { λ plan. elim [ Read ↦ true | Write ↦ not (plan.left == 0) | Sync ↦ not (plan.left == 0) ] };

    ghost after = { λ plan. elim [ Read ↦ plan | Write ↦ record { left = plan.left - 1 } | Sync ↦ record { left = plan.left - 1 } ] };

    fn passes(&mut self, call: CallKind) -> bool {
        match call {
            CallKind::Read => true,
            CallKind::Write | CallKind::Sync => {
                if self.left == 0 {
                    return false;
                }
                self.left -= 1;
                true
            }
        }
    }
}
