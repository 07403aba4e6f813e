//! The rules of SET STATUS of an application or a security domain (GlobalPlatform Card Specification 2.3.1, 5.3 and 11.10).

ghost use Rattle.std.specs.Prelude.{◌≡◌};
ghost use Rattle.policy_machine.specs.EntryStatus.{entry_status_refusal};

use crate::refusal::Refusal;

/// The rules of SET STATUS of an entry.
#[derive(Clone, Copy, Debug, PartialEq, Eq)]
pub enum RuleSS {
    /// No entry has the AID, or no security domain where one is to be set with all below it.
    SS1,
    /// It is the Issuer Security Domain.
    SS2,
    /// It is not the domain's to set.
    SS3,
    /// The entry's life cycle has no such step.
    SS4,
}

impl RuleSS {
    /// The rule's name, and the status word of a command that it refuses.
    pub fn refusal(&self) -> Refusal
        ensures { result ≡ entry_status_refusal self.now }
    {
        match self {
            RuleSS::SS1 => Refusal::new("SS1", 0x6A88),
            RuleSS::SS2 => Refusal::new("SS2", 0x6985),
            RuleSS::SS3 => Refusal::new("SS3", 0x6982),
            RuleSS::SS4 => Refusal::new("SS4", 0x6985),
        }
    }
}
