//! A device of which some calls fail.

ghost use Rattle.std.specs.Prelude.{◌≡◌, ◌+◌, ◌<◌, Some, true, false, slice_get, OnOk, OnErr};
ghost use Rattle.faults.specs.Faults.{HasCause, next_count};
ghost use Rattle.flash_core.specs.Device.{SameBut, NoneNew, AnyBytesIn, Only, Elapses};
ghost use Rattle.flash_core.specs.Wrapped.{Faulty, IsCallRefused};
ghost use Rattle.flash_core.specs.declared.plan.CallKind.TheVariants.{Read, Write, Sync};

use crate::flash::{Flash, FlashFailed};
use crate::page::{PAGES, Page};
use crate::plan::{CallKind, FaultPlan};
use std::marker::Model;

/// A device that passes on each call that its plan lets pass. All others fail without reaching the device inside.
#[derive(Drop)]
pub struct FaultyFlash<F: Flash, P: FaultPlan> {
    inner: F,
    plan: P,
    refused: u64,
}

// Contracts see the device inside, the plan, and how many calls were refused.
impl<F: Flash, P: FaultPlan> Model for FaultyFlash<F, P> {
    ghost Value = { Faulty F P };

    ghost view = { λ f. record { inner = f.inner; plan = f.plan; refused = f.refused } };
}

impl<F: Flash, P: FaultPlan> FaultyFlash<F, P> {
    /// Fails by this plan.
    pub fn with_plan(inner: F, plan: P) -> FaultyFlash<F, P>
        ensures { result ≡ record { inner = inner; plan = plan; refused = 0 } }
    {
        FaultyFlash {
            inner,
            plan,
            refused: 0,
        }
    }

    /// The device inside.
    pub fn into_inner(self) -> F
        ensures { result ≡ self.inner }
    {
        self.inner
    }

    // Whether a call is passed on. The plan takes it as one that has come.
    fn passes(&mut self, call: CallKind) -> Result<(), FlashFailed>
        ensures inner { self.new.inner ≡ self.old.inner }
        ensures counted { self.new.plan ≡ P.after self.old.plan call }
        ensures cause { HasCause (F.faults self.old.inner + self.old.refused) (F.faults self.new.inner + self.new.refused) result }
        ensures ok { OnOk result ((P.lets_pass self.old.plan call ≡ true) × (self.new.refused ≡ self.old.refused)) }
        ensures err { OnErr result ((P.lets_pass self.old.plan call ≡ false) × (self.new.refused ≡ next_count self.old.refused)) }
    {
        if self.plan.passes(call) {
            return Ok(());
        }
        self.refused = self.refused.saturating_add(1);
        Err(FlashFailed)
    }
}

impl<F: Flash, P: FaultPlan> Flash for FaultyFlash<F, P> {
    ghost tells = { F.tells };

    ghost pages = { λ f. F.pages f.inner };

    ghost moment = { λ f. F.moment f.inner };

    ghost may_leave = { λ f. F.may_leave f.inner };

    ghost left_since = { λ f. F.left_since f.inner };

    ghost faults = { λ f. F.faults f.inner + f.refused };

    ghost as_read = { λ f. F.as_read f.inner };

    ghost counts_now = { λ f. F.counts_now f.inner };

    ghost only_now = { λ f. F.only_now f.inner };

    fn read(&mut self, page: u16, into: &mut Page) -> Result<(), FlashFailed>
        requires range { page < PAGES }
        ensures written { F.tells → OnOk result (slice_get (F.pages self.old.inner) page ≡ Some into.new) }
        ensures torn { F.tells → F.pages self.new.inner ≡ F.pages self.old.inner }
        ensures loss { F.tells → NoneNew (F.may_leave self.old.inner) (F.may_leave self.new.inner) }
        ensures time { F.tells → Elapses (F.moment self.old.inner) (F.moment self.new.inner) (F.left_since self.old.inner) (F.left_since self.new.inner) (F.may_leave self.new.inner) }
        ensures cause { HasCause (F.faults self.old.inner + self.old.refused) (F.faults self.new.inner + self.new.refused) result }
        ensures refused { P.lets_pass self.old.plan Read ≡ false → IsCallRefused self.old self.new result }
        ensures passed { P.lets_pass self.old.plan Read ≡ true → self.new.refused ≡ self.old.refused }
        ensures counted { self.new.plan ≡ P.after self.old.plan Read }
    {
        self.passes(CallKind::Read)?;
        self.inner.read(page, into)
    }

    fn write(&mut self, page: u16, from: &Page) -> Result<(), FlashFailed>
        requires range { page < PAGES }
        ensures written { F.tells → OnOk result (slice_get (F.pages self.new.inner) page ≡ Some from.now) }
        ensures torn { F.tells → SameBut page (F.pages self.old.inner) (F.pages self.new.inner) }
        ensures loss { F.tells → AnyBytesIn page (F.may_leave self.old.inner) (F.may_leave self.new.inner) }
        ensures time { F.tells → Elapses (F.moment self.old.inner) (F.moment self.new.inner) (F.left_since self.old.inner) (F.left_since self.new.inner) (F.may_leave self.new.inner) }
        ensures cause { HasCause (F.faults self.old.inner + self.old.refused) (F.faults self.new.inner + self.new.refused) result }
        ensures refused { P.lets_pass self.old.plan Write ≡ false → IsCallRefused self.old self.new result }
        ensures passed { P.lets_pass self.old.plan Write ≡ true → self.new.refused ≡ self.old.refused }
        ensures counted { self.new.plan ≡ P.after self.old.plan Write }
    {
        self.passes(CallKind::Write)?;
        self.inner.write(page, from)
    }

    fn sync(&mut self) -> Result<(), FlashFailed>
        ensures written { F.tells → OnOk result (Only (F.pages self.old.inner) (F.may_leave self.new.inner)) }
        ensures torn { F.tells → F.pages self.new.inner ≡ F.pages self.old.inner }
        ensures loss { F.tells → NoneNew (F.may_leave self.old.inner) (F.may_leave self.new.inner) }
        ensures time { F.tells → Elapses (F.moment self.old.inner) (F.moment self.new.inner) (F.left_since self.old.inner) (F.left_since self.new.inner) (F.may_leave self.new.inner) }
        ensures cause { HasCause (F.faults self.old.inner + self.old.refused) (F.faults self.new.inner + self.new.refused) result }
        ensures refused { P.lets_pass self.old.plan Sync ≡ false → IsCallRefused self.old self.new result }
        ensures passed { P.lets_pass self.old.plan Sync ≡ true → self.new.refused ≡ self.old.refused }
        ensures counted { self.new.plan ≡ P.after self.old.plan Sync }
    {
        self.passes(CallKind::Sync)?;
        self.inner.sync()
    }
}
