//! The rules of PUT KEY (GlobalPlatform Card Specification 2.3.1, 11.8; Amendment D, 7.2).

ghost use Rattle.std.specs.Prelude.{◌≡◌};
ghost use Rattle.policy_machine.specs.PutKey.{put_key_refusal};

use crate::refusal::Refusal;

/// The rules of PUT KEY.
#[derive(Clone, Copy, Debug, PartialEq, Eq)]
pub enum RulePK {
    /// The key version number that is to be replaced is not there.
    PK1,
    /// The new key version number is there already, and is not the one replaced.
    PK2,
    /// A check value is another.
    PK3,
    /// The card or the domain would have too many keys.
    PK4,
}

impl RulePK {
    /// The rule's name, and the status word of a command that it refuses.
    pub fn refusal(&self) -> Refusal
        ensures { result ≡ put_key_refusal self.now }
    {
        match self {
            RulePK::PK1 => Refusal::new("PK1", 0x6A88),
            RulePK::PK2 => Refusal::new("PK2", 0x6A80),
            RulePK::PK3 => Refusal::new("PK3", 0x6A80),
            RulePK::PK4 => Refusal::new("PK4", 0x6A84),
        }
    }
}
