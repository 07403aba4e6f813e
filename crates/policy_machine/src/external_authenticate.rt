//! The rules of EXTERNAL AUTHENTICATE (GlobalPlatform Amendment D, 7.1.2).

ghost use Rattle.std.specs.Prelude.{◌≡◌};
ghost use Rattle.policy_machine.specs.ExternalAuthenticate.{external_authenticate_refusal};

use crate::refusal::Refusal;

/// The rules of EXTERNAL AUTHENTICATE.
#[derive(Clone, Copy, Debug, PartialEq, Eq)]
pub enum RuleEA {
    /// The channel has no offer.
    EA1,
    /// The host cryptogram is another.
    EA2,
    /// The C-MAC is another.
    EA3,
}

impl RuleEA {
    /// The rule's name, and the status word of a command that it refuses.
    pub fn refusal(&self) -> Refusal
        ensures { result ≡ external_authenticate_refusal self.now }
    {
        match self {
            RuleEA::EA1 => Refusal::new("EA1", 0x6985),
            RuleEA::EA2 => Refusal::new("EA2", 0x6300),
            RuleEA::EA3 => Refusal::new("EA3", 0x6982),
        }
    }
}
