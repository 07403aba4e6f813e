//! The rules of GET DATA (GlobalPlatform Card Specification 2.3.1, 11.3).

ghost use Rattle.std.specs.Prelude.{◌≡◌};
ghost use Rattle.policy_machine.specs.GetData.{get_data_refusal};

use crate::refusal::Refusal;

/// The rules of GET DATA.
#[derive(Clone, Copy, Debug, PartialEq, Eq)]
pub enum RuleGD {
    /// There is no such data.
    GD1,
}

impl RuleGD {
    /// The rule's name, and the status word of a command that it refuses.
    pub fn refusal(&self) -> Refusal
        ensures { result ≡ get_data_refusal self.now }
    {
        match self {
            RuleGD::GD1 => Refusal::new("GD1", 0x6A88),
        }
    }
}
