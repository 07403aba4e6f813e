//! DELETE of an application, a security domain or an Executable Load File: a thing goes (GlobalPlatform Card Specification 2.3.1,
//! 9.5 and 11.2).

ghost use Rattle.std.specs.Prelude.{◌≡◌, ◌≢◌, ℕ, List, [], true, IsSome, Some};
ghost use Rattle.std.proofs.Common.{inl, inr, refl};
ghost use Rattle.card_core.specs.Prelude.{AreCards, HasFramesFor, HasNoneFrom, IsAlone, IsRemovable, KeepsFree, LeavesOthers, Registry, RemovesLoaded, Represents, Well, aid_of, entry_pages, file_aid, managed_delete_object, of_form, thing_in, without_applications, without_file, without_thing};
ghost use Rattle.card_types.specs.declared.factory.TheConstants.{FACTORY_FILE};

use crate::confirm::Aids;
use crate::confirmed_request::ConfirmedRequest;
use crate::managed_request::Acting;
use card_types::Found;
use flash_core::Flash;
use policy_rules::DeletionRequest;
use rec_store::Records;
use registry::{remove_applications, remove_entry, remove_file};

// Removes the Executable Load File in a slot, with the applications that come from it.
fn remove_loaded<F: Flash>(records: &mut Records<F>, slot: u8)
    requires live { records.old.live ≡ true }
    requires clean { records.old.staged ≡ [] }
    requires slot { IsSome (thing_in records.old.tables.files.items slot) }
    requires other { file_aid records.old.tables.files.items slot ≢ FACTORY_FILE }
    ensures said { (page : ℕ → List ℕ) (said : Registry) → Represents page records.old.tables said → Well said → (aid : List ℕ)
        → aid_of records.old.tables (Found.File slot) ≡ Some aid → Represents page records.new.tables (without_file (without_applications said aid) aid) }
    ensures slots { RemovesLoaded records.old.tables records.new.tables slot }
    ensures same { (records.new.flash ≡ records.old.flash) × (records.new.live ≡ true) }
    ensures room { HasFramesFor entry_pages records.new.staged }
{
    remove_applications(records, slot);
    remove_file(records, slot);
}

// Removes a thing, and with an Executable Load File what comes from it, where that is to go too.
fn remove<F: Flash>(records: &mut Records<F>, thing: Found, related: bool)
    requires live { records.old.live ≡ true }
    requires clean { records.old.staged ≡ [] }
    requires cards { AreCards records.old.tables }
    requires there { IsSome (aid_of records.old.tables thing) }
    requires alone { IsAlone records.old.tables related thing }
    requires unloaded { HasNoneFrom records.old.tables related thing }
    requires lasting { IsRemovable records.old.tables thing }
    ensures said { (page : ℕ → List ℕ) (said : Registry) → Represents page records.old.tables said → Well said → (aid : List ℕ)
        → aid_of records.old.tables thing ≡ Some aid → Represents page records.new.tables (without_thing said aid) }
    ensures slots { LeavesOthers records.old.tables records.new.tables related thing }
    ensures free { KeepsFree records.old.tables records.new.tables }
    ensures cards { AreCards records.new.tables }
    ensures same { (records.new.flash ≡ records.old.flash) × (records.new.live ≡ true) }
    ensures room { HasFramesFor entry_pages records.new.staged }
{
    match thing {
        Found::Entry(slot) => remove_entry(records, slot),
        Found::File(slot) => {
            if related {
                remove_loaded(records, slot)
            } else {
                remove_file(records, slot)
            }
        }
    }
}

impl ConfirmedRequest for DeletionRequest<'_> {
    ghost managed = { managed_delete_object };

    fn change<F: Flash>(
        &self,
        records: &mut Records<F>,
        _acting: &Acting<'_>,
        thing: Found,
    ) -> Aids {
        remove(records, thing, self.related);
        Aids::new(self.aid, None, None)
    }

    ghost formed = { λ these admitted is. of_form managed_delete_object (λ held here. inr (inl here)) (λ asked. refl) admitted is.form };

    ghost changes = { λ these. refl };
}
