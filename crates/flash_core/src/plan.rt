//! Which calls on a device fail.

ghost use Rattle.std.specs.Prelude.{◌≡◌, Bool};
ghost use Rattle.flash_core.specs.declared.plan.CallKind.{CallKind as CallKindOf};

/// What a call on a device asks for.
#[derive(Clone, Copy)]
pub enum CallKind {
    Read,
    Write,
    Sync,
}

/// Says of each call on a device, before it comes, whether it passes.
pub trait FaultPlan: Drop {
    // Whether such a call passes.
    ghost lets_pass: { Self → CallKindOf → Bool };

    // The plan once such a call has come.
    ghost after: { Self → CallKindOf → Self };

    /// Whether this call passes. The plan takes it as one that has come.
    fn passes(&mut self, call: CallKind) -> bool
        ensures answer { result ≡ lets_pass self.old call }
        ensures counted { self.new ≡ after self.old call };
}
