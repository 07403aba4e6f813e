//! The data objects that a security domain owns (GlobalPlatform Card Specification 2.3.1, 9.5).

ghost use Rattle.std.proofs.Common.{lit<};
ghost use Rattle.std.specs.Prelude.{[]};
ghost use Rattle.card_types.specs.declared.limits.TheConstants.{OBJECTS};
ghost use Rattle.registry.specs.Prelude.{lists_of, object_owner, object_page, owner_pages};

use crate::owned::Owned;
use card_types::{OBJECTS, Object};
use flash_core::Flash;
use rec_store::Records;

impl Owned for Object {
    ghost COUNT = { OBJECTS };

    const COUNT: u8 = OBJECTS as u8;

    ghost slots = { λ tables. tables.objects.items };

    ghost rest = { λ tables. record (lists_of tables) { objects = [] } };

    ghost owner = { object_owner };

    ghost page = { object_page };

    ghost pages = { owner_pages };

    fn slots<F: Flash>(records: &Records<F>) -> &[Option<Object>] {
        &records.tables().objects
    }

    fn owner(&self) -> u8 {
        self.owner
    }

    fn free<F: Flash>(records: &mut Records<F>, slot: u8) {
        records.set_object(slot, None);
    }

    ghost some = { lit< tt };
}
