//! The rules of delegated management (GlobalPlatform Card Specification 2.3.1, 9.2 to 9.4).

ghost use Rattle.std.specs.Prelude.{◌≡◌};
ghost use Rattle.policy_machine.specs.Delegation.{receipt_refusal, token_refusal};

use crate::refusal::Refusal;

/// The rules on the token of a delegated command.
#[derive(Clone, Copy, Debug, PartialEq, Eq)]
pub enum RuleTK {
    /// The token has not the length of one.
    TK1,
    /// No domain above verifies tokens.
    TK2,
    /// The token is another than that of the command under the verifier's token key.
    TK3,
}

/// The rule on the receipt of a delegated command.
#[derive(Clone, Copy, Debug, PartialEq, Eq)]
pub enum RuleRC {
    /// The domain above that makes receipts has made the last one.
    RC1,
}

impl RuleTK {
    /// The rule's name, and the status word of a command that it refuses.
    pub fn refusal(&self) -> Refusal
        ensures { result ≡ token_refusal self.now }
    {
        match self {
            RuleTK::TK1 => Refusal::new("TK1", 0x6A80),
            RuleTK::TK2 => Refusal::new("TK2", 0x6982),
            RuleTK::TK3 => Refusal::new("TK3", 0x6982),
        }
    }
}

impl RuleRC {
    /// The rule's name, and the status word of a command that it refuses.
    pub fn refusal(&self) -> Refusal
        ensures { result ≡ receipt_refusal self.now }
    {
        match self {
            RuleRC::RC1 => Refusal::new("RC1", 0x6985),
        }
    }
}
