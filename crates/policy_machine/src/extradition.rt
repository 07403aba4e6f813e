//! The rules of INSTALL [for extradition] (GlobalPlatform Card Specification 2.3.1, 9.4.1 and 11.5).

ghost use Rattle.std.specs.Prelude.{◌≡◌};
ghost use Rattle.policy_machine.specs.Extradition.{extradition_refusal};

use crate::refusal::Refusal;

/// The rules of INSTALL [for extradition].
#[derive(Clone, Copy, Debug, PartialEq, Eq)]
pub enum RuleEX {
    /// The domain does not manage content.
    EX1,
    /// Nothing has the AID, or the new domain is none.
    EX2,
    /// It is the Issuer Security Domain or the factory's Executable Load File.
    EX3,
    /// It is not the domain's to move.
    EX4,
    /// The new domain is not personalized, or locked.
    EX5,
    /// The new domain is below the thing.
    EX6,
    /// It may not be moved there.
    EX7,
}

impl RuleEX {
    /// The rule's name, and the status word of a command that it refuses.
    pub fn refusal(&self) -> Refusal
        ensures { result ≡ extradition_refusal self.now }
    {
        match self {
            RuleEX::EX1 => Refusal::new("EX1", 0x6982),
            RuleEX::EX2 => Refusal::new("EX2", 0x6A88),
            RuleEX::EX3 => Refusal::new("EX3", 0x6985),
            RuleEX::EX4 => Refusal::new("EX4", 0x6982),
            RuleEX::EX5 => Refusal::new("EX5", 0x6985),
            RuleEX::EX6 => Refusal::new("EX6", 0x6985),
            RuleEX::EX7 => Refusal::new("EX7", 0x6982),
        }
    }
}
