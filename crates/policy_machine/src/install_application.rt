//! The rules of INSTALL [for install] (GlobalPlatform Card Specification 2.3.1, 9.3.2 and 11.5).

ghost use Rattle.std.specs.Prelude.{◌≡◌};
ghost use Rattle.policy_machine.specs.InstallApplication.{install_refusal};

use crate::refusal::Refusal;

/// The rules of INSTALL [for install].
#[derive(Clone, Copy, Debug, PartialEq, Eq)]
pub enum RuleII {
    /// The domain does not manage content.
    II1,
    /// There is no such Executable Load File, or the factory's has no such Module.
    II2,
    /// The Executable Load File is not the domain's to install from.
    II3,
    /// Something has the AID.
    II4,
    /// The privileges do not go together.
    II5,
    /// The domain does not hold a privilege that it grants.
    II6,
    /// The card has no room for another entry.
    II7,
}

impl RuleII {
    /// The rule's name, and the status word of a command that it refuses.
    pub fn refusal(&self) -> Refusal
        ensures { result ≡ install_refusal self.now }
    {
        match self {
            RuleII::II1 => Refusal::new("II1", 0x6982),
            RuleII::II2 => Refusal::new("II2", 0x6A88),
            RuleII::II3 => Refusal::new("II3", 0x6982),
            RuleII::II4 => Refusal::new("II4", 0x6A80),
            RuleII::II5 => Refusal::new("II5", 0x6A80),
            RuleII::II6 => Refusal::new("II6", 0x6982),
            RuleII::II7 => Refusal::new("II7", 0x6A84),
        }
    }
}
