//! The rules of GET STATUS (GlobalPlatform Card Specification 2.3.1, 11.4).

ghost use Rattle.std.specs.Prelude.{◌≡◌};
ghost use Rattle.policy_machine.specs.GetStatus.{get_status_refusal};

use crate::refusal::Refusal;

/// The rules of GET STATUS.
#[derive(Clone, Copy, Debug, PartialEq, Eq)]
pub enum RuleGS {
    /// The channel has no place in such a listing.
    GS1,
    /// Nothing is to be shown.
    GS2,
}

impl RuleGS {
    /// The rule's name, and the status word of a command that it refuses.
    pub fn refusal(&self) -> Refusal
        ensures { result ≡ get_status_refusal self.now }
    {
        match self {
            RuleGS::GS1 => Refusal::new("GS1", 0x6985),
            RuleGS::GS2 => Refusal::new("GS2", 0x6A88),
        }
    }
}
