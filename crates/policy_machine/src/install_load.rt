//! The rules of INSTALL [for load] (GlobalPlatform Card Specification 2.3.1, 9.3.1 and 11.5).

ghost use Rattle.std.specs.Prelude.{◌≡◌};
ghost use Rattle.policy_machine.specs.InstallLoad.{install_load_refusal};

use crate::refusal::Refusal;

/// The rules of INSTALL [for load].
#[derive(Clone, Copy, Debug, PartialEq, Eq)]
pub enum RuleIL {
    /// The domain does not manage content.
    IL1,
    /// Another channel has a load session.
    IL2,
    /// Something has the AID of the Executable Load File.
    IL3,
    /// What is named as its security domain is none.
    IL4,
    /// The domain may not load into that one.
    IL5,
    /// The hash has another length than SHA-1 and SHA-256, or there is none, and the command is delegated.
    IL6,
    /// The card has no room for another Executable Load File.
    IL7,
}

impl RuleIL {
    /// The rule's name, and the status word of a command that it refuses.
    pub fn refusal(&self) -> Refusal
        ensures { result ≡ install_load_refusal self.now }
    {
        match self {
            RuleIL::IL1 => Refusal::new("IL1", 0x6982),
            RuleIL::IL2 => Refusal::new("IL2", 0x6985),
            RuleIL::IL3 => Refusal::new("IL3", 0x6A80),
            RuleIL::IL4 => Refusal::new("IL4", 0x6A88),
            RuleIL::IL5 => Refusal::new("IL5", 0x6982),
            RuleIL::IL6 => Refusal::new("IL6", 0x6A80),
            RuleIL::IL7 => Refusal::new("IL7", 0x6A84),
        }
    }
}
