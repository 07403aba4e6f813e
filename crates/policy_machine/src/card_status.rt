//! The rules of SET STATUS of the card (GlobalPlatform Card Specification 2.3.1, 5.1 and 11.10).

ghost use Rattle.std.specs.Prelude.{◌≡◌};
ghost use Rattle.policy_machine.specs.CardStatus.{card_status_refusal};

use crate::refusal::Refusal;

/// The rules of SET STATUS of the card.
#[derive(Clone, Copy, Debug, PartialEq, Eq)]
pub enum RuleSC {
    /// The card's life cycle has no such step.
    SC1,
    /// The step is not the domain's to take.
    SC2,
}

impl RuleSC {
    /// The rule's name, and the status word of a command that it refuses.
    pub fn refusal(&self) -> Refusal
        ensures { result ≡ card_status_refusal self.now }
    {
        match self {
            RuleSC::SC1 => Refusal::new("SC1", 0x6985),
            RuleSC::SC2 => Refusal::new("SC2", 0x6982),
        }
    }
}
