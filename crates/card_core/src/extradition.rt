//! INSTALL [for extradition]: a thing goes to another security domain (GlobalPlatform Card Specification 2.3.1, 9.4.1 and 11.5).

ghost use Rattle.std.proofs.Common.{inl, inr, refl};
ghost use Rattle.card_core.specs.Prelude.{managed_extradition, of_form};

use crate::confirm::Aids;
use crate::confirmed_request::ConfirmedRequest;
use crate::managed_request::Acting;
use card_types::in_slot;
use flash_core::Flash;
use policy_rules::{Extradition, ExtraditionRequest};
use rec_store::Records;
use registry::move_to;

impl ConfirmedRequest for ExtraditionRequest<'_> {
    ghost managed = { managed_extradition };

    fn change<F: Flash>(
        &self,
        records: &mut Records<F>,
        _acting: &Acting<'_>,
        found: Extradition,
    ) -> Aids {
        let from = in_slot(&records.tables().entries, found.from).unwrap().aid;
        move_to(records, found.thing, found.to);
        Aids::new(from, Some(self.aid), Some(self.to))
    }

    ghost formed = { λ these admitted is. of_form managed_extradition (λ holds found. inr (inr (inl found))) (λ asked. refl) admitted is.form };

    ghost changes = { λ these. refl };
}
