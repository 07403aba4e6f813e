//! The rules that the commands of card content management and INITIALIZE UPDATE have in common.

ghost use Rattle.std.specs.Prelude.{◌≡◌};
ghost use Rattle.policy_machine.specs.Management.{management_refusal};

use crate::refusal::Refusal;

/// The rules of card content management.
#[derive(Clone, Copy, Debug, PartialEq, Eq)]
pub enum RuleM {
    /// The card is locked.
    M1,
    /// The selected domain is locked.
    M2,
    /// The card is locked, and it is not the Issuer Security Domain that sets the card's own life cycle state.
    M3,
}

impl RuleM {
    /// The rule's name, and the status word of a command that it refuses.
    pub fn refusal(&self) -> Refusal
        ensures { result ≡ management_refusal self.now }
    {
        match self {
            RuleM::M1 => Refusal::new("M1", 0x6985),
            RuleM::M2 => Refusal::new("M2", 0x6985),
            RuleM::M3 => Refusal::new("M3", 0x6985),
        }
    }
}
