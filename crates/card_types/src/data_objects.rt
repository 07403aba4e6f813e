//! The data objects that a security domain may have, by tag (GlobalPlatform Card Specification 2.3.1, 11.11): which of them, and how
//! long a value is, is this profile's own.

ghost use Rattle.std.specs.Prelude.{◌↔◌, IsTrue};
ghost use Rattle.card_types.specs.Well.{IsObject};

/// The Issuer Identification Number.
pub const ISSUER_NUMBER: u16 = 0x42;

/// The Card Image Number.
pub const IMAGE_NUMBER: u16 = 0x45;

/// Card data.
pub const CARD_DATA: u16 = 0x66;

/// Key diversification data.
pub const DIVERSIFICATION: u16 = 0xCF;

/// Card-specific data.
pub const CARD_SPECIFIC: u16 = 0x5F50;

/// Whether a domain may have a data object with this tag, and a value of so many bytes.
pub fn is_object(tag: u16, size: usize) -> bool
    ensures { IsTrue result ↔ IsObject tag size }
{
    match tag {
        ISSUER_NUMBER | IMAGE_NUMBER => 1 <= size && size <= 10,
        DIVERSIFICATION => size == 10,
        CARD_DATA | CARD_SPECIFIC => 1 <= size && size <= 120,
        _ => false,
    }
}
