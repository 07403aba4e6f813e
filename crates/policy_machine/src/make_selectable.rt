//! The rules of INSTALL [for make selectable] (GlobalPlatform Card Specification 2.3.1, 9.3.3 and 11.5).

ghost use Rattle.std.specs.Prelude.{◌≡◌};
ghost use Rattle.policy_machine.specs.MakeSelectable.{selectable_refusal};

use crate::refusal::Refusal;

/// The rules of INSTALL [for make selectable].
#[derive(Clone, Copy, Debug, PartialEq, Eq)]
pub enum RuleMS {
    /// The domain does not manage content.
    MS1,
    /// No entry has the AID.
    MS2,
    /// The entry is not below the domain.
    MS3,
    /// The entry is not just installed.
    MS4,
    /// Other privileges are given than the entry has.
    MS5,
}

impl RuleMS {
    /// The rule's name, and the status word of a command that it refuses.
    pub fn refusal(&self) -> Refusal
        ensures { result ≡ selectable_refusal self.now }
    {
        match self {
            RuleMS::MS1 => Refusal::new("MS1", 0x6982),
            RuleMS::MS2 => Refusal::new("MS2", 0x6A88),
            RuleMS::MS3 => Refusal::new("MS3", 0x6982),
            RuleMS::MS4 => Refusal::new("MS4", 0x6985),
            RuleMS::MS5 => Refusal::new("MS5", 0x6A80),
        }
    }
}
