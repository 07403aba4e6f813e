//! INSTALL [for make selectable]: an application that is installed can be selected from then on (GlobalPlatform Card
//! Specification 2.3.1, 9.3.3 and 11.5).

ghost use Rattle.std.proofs.Common.{inl, inr, refl};
ghost use Rattle.card_core.specs.Prelude.{managed_selectable, of_form};

use crate::confirm::Aids;
use crate::confirmed_request::ConfirmedRequest;
use crate::managed_request::Acting;
use card_types::{Life, LifeMark};
use flash_core::Flash;
use policy_rules::SelectableRequest;
use rec_store::Records;
use registry::set_life;

/// The life cycle state of an application that can be selected.
const SELECTABLE: LifeMark = LifeMark {
    life: Life::Selectable,
    locked: false,
};

impl ConfirmedRequest for SelectableRequest<'_> {
    ghost managed = { managed_selectable };

    fn change<F: Flash>(&self, records: &mut Records<F>, _acting: &Acting<'_>, slot: u8) -> Aids {
        set_life(records, slot, SELECTABLE);
        Aids::new(self.aid, None, None)
    }

    ghost formed = { λ these admitted is. of_form managed_selectable (λ holds found. inr (inl found)) (λ asked. refl) admitted is.form };

    ghost changes = { λ these. refl };
}
