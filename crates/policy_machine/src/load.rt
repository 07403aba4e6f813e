//! The rules of LOAD (GlobalPlatform Card Specification 2.3.1, 9.3.5 and 11.6).

ghost use Rattle.std.specs.Prelude.{◌≡◌};
ghost use Rattle.policy_machine.specs.Load.{load_refusal};

use crate::refusal::Refusal;

/// The rules of LOAD.
#[derive(Clone, Copy, Debug, PartialEq, Eq)]
pub enum RuleLO {
    /// The channel has no load session, or all block numbers were taken.
    LO1,
    /// P2 is not the number of the block that comes next.
    LO2,
    /// The first block announces no length.
    LO3,
    /// The file is too long, or there are not load pages enough.
    LO4,
    /// More bytes have come than were announced, or with the last block fewer.
    LO5,
    /// With the last block, the bytes have another hash.
    LO6,
    /// With the last block, the file is to be in a domain that is neither the acting one nor below it.
    LO7,
    /// With the last block, the domain above that makes receipts has made the last one.
    LO8,
}

impl RuleLO {
    /// The rule's name, and the status word of a command that it refuses.
    pub fn refusal(&self) -> Refusal
        ensures { result ≡ load_refusal self.now }
    {
        match self {
            RuleLO::LO1 => Refusal::new("LO1", 0x6985),
            RuleLO::LO2 => Refusal::new("LO2", 0x6A86),
            RuleLO::LO3 => Refusal::new("LO3", 0x6A80),
            RuleLO::LO4 => Refusal::new("LO4", 0x6A84),
            RuleLO::LO5 => Refusal::new("LO5", 0x6A80),
            RuleLO::LO6 => Refusal::new("LO6", 0x6A80),
            RuleLO::LO7 => Refusal::new("LO7", 0x6982),
            RuleLO::LO8 => Refusal::new("LO8", 0x6985),
        }
    }
}
