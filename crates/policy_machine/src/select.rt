//! The rules of SELECT by partial AID (ISO/IEC 7816-4:2013, 11.1.1; GlobalPlatform Card Specification 2.3.1, 11.9).

ghost use Rattle.std.specs.Prelude.{◌≡◌};
ghost use Rattle.policy_machine.specs.Select.{select_refusal};

use crate::refusal::Refusal;

/// The rules of SELECT.
#[derive(Clone, Copy, Debug, PartialEq, Eq)]
pub enum RuleSE {
    /// No entry fits.
    SE1,
}

impl RuleSE {
    /// The rule's name, and the status word of a command that it refuses.
    pub fn refusal(&self) -> Refusal
        ensures { result ≡ select_refusal self.now }
    {
        match self {
            RuleSE::SE1 => Refusal::new("SE1", 0x6A82),
        }
    }
}
