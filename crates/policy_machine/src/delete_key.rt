//! The rules of DELETE of a key (GlobalPlatform Card Specification 2.3.1, 11.2).

ghost use Rattle.std.specs.Prelude.{◌≡◌};
ghost use Rattle.policy_machine.specs.DeleteKey.{delete_key_refusal};

use crate::refusal::Refusal;

/// The rules of DELETE of a key.
#[derive(Clone, Copy, Debug, PartialEq, Eq)]
pub enum RuleDK {
    /// The domain has no such key.
    DK1,
    /// The domain is a root, and no key set would be left to it.
    DK2,
}

impl RuleDK {
    /// The rule's name, and the status word of a command that it refuses.
    pub fn refusal(&self) -> Refusal
        ensures { result ≡ delete_key_refusal self.now }
    {
        match self {
            RuleDK::DK1 => Refusal::new("DK1", 0x6A88),
            RuleDK::DK2 => Refusal::new("DK2", 0x6985),
        }
    }
}
