//! The factory card on a device (this profile's own).

ghost use Rattle.std.specs.Prelude.{◌≡◌, ◌<◌, ℕ, OnOk, slice_get};
ghost use Rattle.card_core.specs.Prelude.{HasCause, KeepsRegistry, factory_registry};
ghost use Rattle.page_journal.specs.declared.pages.TheConstants.{GATE};

use card_types::{CardLife, factory_file, factory_key, issuer_domain};
use flash_core::{Flash, FlashFailed};
use rec_store::lay_out;

/// Makes a device the card as it leaves the factory. It takes no memory. No page past the gate changes, also where the device
/// fails. Nothing is said of the device where power is lost before the call's end. Where the program ends between two of its
/// writes, there is no card.
pub fn format<F: Flash>(flash: &mut F) -> Result<(), FlashFailed>
    ensures keeps { F.tells → OnOk result (KeepsRegistry F.Flash flash.new factory_registry) }
    ensures others { F.tells → (page : ℕ) → GATE < page → slice_get (F.pages flash.new) page ≡ slice_get (F.pages flash.old) page }
    ensures cause { HasCause (F.faults flash.old) (F.faults flash.new) result }
{
    lay_out(
        flash,
        CardLife::OpReady,
        &[Some(issuer_domain())],
        &[Some(factory_file())],
        &[
            Some(factory_key(1)),
            Some(factory_key(2)),
            Some(factory_key(3)),
        ],
        &[],
    )
}
