//! The rules of MANAGE CHANNEL (ISO/IEC 7816-4:2013, 11.1.2; GlobalPlatform Card Specification 2.3.1, 11.7).

ghost use Rattle.std.specs.Prelude.{◌≡◌};
ghost use Rattle.policy_machine.specs.ManageChannel.{manage_channel_refusal};

use crate::refusal::Refusal;

/// The rules of MANAGE CHANNEL.
#[derive(Clone, Copy, Debug, PartialEq, Eq)]
pub enum RuleMC {
    /// No channel is closed.
    MC1,
}

impl RuleMC {
    /// The rule's name, and the status word of a command that it refuses.
    pub fn refusal(&self) -> Refusal
        ensures { result ≡ manage_channel_refusal self.now }
    {
        match self {
            RuleMC::MC1 => Refusal::new("MC1", 0x6A81),
        }
    }
}
