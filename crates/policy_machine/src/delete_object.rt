//! The rules of DELETE of an application, a security domain or an Executable Load File (GlobalPlatform Card Specification 2.3.1, 9.5 and 11.2).

ghost use Rattle.std.specs.Prelude.{◌≡◌};
ghost use Rattle.policy_machine.specs.DeleteObject.{delete_object_refusal};

use crate::refusal::Refusal;

/// The rules of DELETE of an object.
#[derive(Clone, Copy, Debug, PartialEq, Eq)]
pub enum RuleDO {
    /// Nothing has the AID.
    DO1,
    /// It is the Issuer Security Domain or the factory's Executable Load File.
    DO2,
    /// It is not the domain's to delete.
    DO3,
    /// It is in use.
    DO4,
}

impl RuleDO {
    /// The rule's name, and the status word of a command that it refuses.
    pub fn refusal(&self) -> Refusal
        ensures { result ≡ delete_object_refusal self.now }
    {
        match self {
            RuleDO::DO1 => Refusal::new("DO1", 0x6A88),
            RuleDO::DO2 => Refusal::new("DO2", 0x6985),
            RuleDO::DO3 => Refusal::new("DO3", 0x6982),
            RuleDO::DO4 => Refusal::new("DO4", 0x6985),
        }
    }
}
