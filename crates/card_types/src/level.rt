//! Security levels of a session (GlobalPlatform Amendment D, 7.1.2).
ghost use Rattle.std.specs.Prelude.{◌≡◌, IfSome, IfNone};
ghost use Rattle.card_types.specs.Level.{code_of};

/// The security level of a session: what is authenticated and enciphered.
#[derive(Clone, Copy, Debug, PartialEq, Eq)]
pub enum Level {
    /// Commands carry a MAC.
    Mac = 0x01,

    /// Commands carry a MAC and are enciphered.
    EncMac = 0x03,

    /// Commands and replies carry a MAC.
    MacR = 0x11,

    /// Commands and replies carry a MAC, and commands are enciphered.
    EncMacR = 0x13,

    /// Commands and replies carry a MAC and are enciphered.
    Full = 0x33,
}

impl Level {
    /// The level with this code.
    pub fn from_code(code: u8) -> Option<Level>
        ensures some { IfSome result (λ level. code_of level ≡ code) }
        ensures none { IfNone result ((level : Level) → code_of level ≡ code → ⊥) }
        ensures back { (level : Level) → code_of level ≡ code → result ≡ Some level }
    {
        match code {
            0x01 => Some(Level::Mac),
            0x03 => Some(Level::EncMac),
            0x11 => Some(Level::MacR),
            0x13 => Some(Level::EncMacR),
            0x33 => Some(Level::Full),
            _ => None,
        }
    }

    /// Its code.
    pub fn code(&self) -> u8
        ensures { result ≡ code_of self.now }
    {
        *self as u8
    }
}
