//! The rules of INITIALIZE UPDATE (GlobalPlatform Amendment D, 7.1.1).

ghost use Rattle.std.specs.Prelude.{◌≡◌};
ghost use Rattle.policy_machine.specs.InitializeUpdate.{initialize_update_refusal};

use crate::refusal::Refusal;

/// The rules of INITIALIZE UPDATE.
#[derive(Clone, Copy, Debug, PartialEq, Eq)]
pub enum RuleIU {
    /// The card is locked, and another domain than the Issuer Security Domain is selected.
    IU1,
    /// There is no such key set.
    IU2,
    /// Its sequence counter has come to its end.
    IU3,
}

impl RuleIU {
    /// The rule's name, and the status word of a command that it refuses.
    pub fn refusal(&self) -> Refusal
        ensures { result ≡ initialize_update_refusal self.now }
    {
        match self {
            RuleIU::IU1 => Refusal::new("IU1", 0x6985),
            RuleIU::IU2 => Refusal::new("IU2", 0x6A88),
            RuleIU::IU3 => Refusal::new("IU3", 0x6985),
        }
    }
}
