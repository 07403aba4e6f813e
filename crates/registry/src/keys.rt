//! The keys that a security domain owns (GlobalPlatform Card Specification 2.3.1, 9.5).

ghost use Rattle.std.proofs.Common.{lit<};
ghost use Rattle.std.specs.Prelude.{[]};
ghost use Rattle.card_types.specs.declared.limits.TheConstants.{KEYS};
ghost use Rattle.registry.specs.Prelude.{key_owner, key_page, lists_of, owner_pages};

use crate::owned::Owned;
use card_types::{KEYS, KeyRec};
use flash_core::Flash;
use rec_store::Records;

impl Owned for KeyRec {
    ghost COUNT = { KEYS };

    const COUNT: u8 = KEYS as u8;

    ghost slots = { λ tables. tables.keys.items };

    ghost rest = { λ tables. record (lists_of tables) { keys = [] } };

    ghost owner = { key_owner };

    ghost page = { key_page };

    ghost pages = { owner_pages };

    fn slots<F: Flash>(records: &Records<F>) -> &[Option<KeyRec>] {
        &records.tables().keys
    }

    fn owner(&self) -> u8 {
        self.owner
    }

    fn free<F: Flash>(records: &mut Records<F>, slot: u8) {
        records.set_key(slot, None);
    }

    ghost some = { lit< tt };
}
