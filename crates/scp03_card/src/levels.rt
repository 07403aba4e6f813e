//! What each security level has besides C-MAC (GlobalPlatform Amendment D, 7.1.2).

ghost use Rattle.std.specs.Prelude.{◌≡◌};
ghost use Rattle.scp03_card.specs.Levels as standard;

use card_types::Level;

/// Commands are enciphered.
pub fn has_c_decryption(level: Level) -> bool
    ensures { result ≡ standard.has_c_decryption level }
{
    matches!(level, Level::EncMac | Level::EncMacR | Level::Full)
}

/// Replies carry a MAC.
pub fn has_r_mac(level: Level) -> bool
    ensures { result ≡ standard.has_r_mac level }
{
    matches!(level, Level::MacR | Level::EncMacR | Level::Full)
}

/// Replies are enciphered.
pub fn has_r_encryption(level: Level) -> bool
    ensures { result ≡ standard.has_r_encryption level }
{
    matches!(level, Level::Full)
}
