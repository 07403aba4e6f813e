//! Status words.

ghost use Rattle.std.specs.Prelude.{◌≡◌};
ghost use Rattle.scp03_card.specs.Protected as standard;

use apdu_core::Status;

/// The status is 9000, or a warning, 62xx or 63xx. With R-MAC such a reply carries one (GlobalPlatform
/// Amendment D, 6.2.5).
pub fn is_success_or_warning(status: Status) -> bool
    ensures { result ≡ standard.is_success_or_warning status.0 }
{
    status.0 == 0x9000 || status.0 / 0x100 == 0x62 || status.0 / 0x100 == 0x63
}
