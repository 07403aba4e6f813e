//! The rules of STORE DATA (GlobalPlatform Card Specification 2.3.1, 11.11).

ghost use Rattle.std.specs.Prelude.{◌≡◌};
ghost use Rattle.policy_machine.specs.StoreData.{store_data_refusal};

use crate::refusal::Refusal;

/// The rules of STORE DATA.
#[derive(Clone, Copy, Debug, PartialEq, Eq)]
pub enum RuleSD {
    /// The card would have too many data objects.
    SD1,
}

impl RuleSD {
    /// The rule's name, and the status word of a command that it refuses.
    pub fn refusal(&self) -> Refusal
        ensures { result ≡ store_data_refusal self.now }
    {
        match self {
            RuleSD::SD1 => Refusal::new("SD1", 0x6A84),
        }
    }
}
