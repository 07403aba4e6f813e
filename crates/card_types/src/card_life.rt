//! Life cycle states of the card (GlobalPlatform Card Specification 2.3.1, 11.1.1).
ghost use Rattle.std.specs.Prelude.{◌≡◌, IfSome, IfNone};
ghost use Rattle.card_types.specs.CardLife.{card_life_code};

/// The life cycle state of the card.
#[derive(Clone, Copy, Debug, PartialEq, Eq)]
pub enum CardLife {
    OpReady = 0x01,
    Initialized = 0x07,
    Secured = 0x0F,
    Locked = 0x7F,
    Terminated = 0xFF,
}

impl CardLife {
    /// The state with this code.
    pub fn from_code(code: u8) -> Option<CardLife>
        ensures some { IfSome result (λ life. card_life_code life ≡ code) }
        ensures none { IfNone result ((life : CardLife) → card_life_code life ≡ code → ⊥) }
        ensures back { (life : CardLife) → card_life_code life ≡ code → result ≡ Some life }
    {
        match code {
            0x01 => Some(CardLife::OpReady),
            0x07 => Some(CardLife::Initialized),
            0x0F => Some(CardLife::Secured),
            0x7F => Some(CardLife::Locked),
            0xFF => Some(CardLife::Terminated),
            _ => None,
        }
    }

    /// Its code.
    pub fn code(&self) -> u8
        ensures { result ≡ card_life_code self.now }
    {
        *self as u8
    }
}
