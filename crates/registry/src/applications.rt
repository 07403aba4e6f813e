//! The applications that come from an Executable Load File are removed (GlobalPlatform Card Specification 2.3.1, 9.5).

ghost use Rattle.std.proofs.Common.{lit<};
ghost use Rattle.std.specs.Prelude.{◌≡◌, ◌≢◌, ℕ, List, [], true, IsSome};
ghost use Rattle.registry.specs.Prelude.{HasFramesFor, IsUnloaded, KeepsRoom, Registry, RemovesApplications, Represents, StagesChanged, Well, entry_file, entry_page, entry_pages, file_aid, lists_of, thing_in, without_applications};
ghost use Rattle.card_types.specs.declared.factory.TheConstants.{FACTORY_FILE};
ghost use Rattle.card_types.specs.declared.limits.TheConstants.{ENTRIES};

use crate::entries::put_entry;
use crate::owned::{Owned, free_owned};
use card_types::{ENTRIES, Entry};
use flash_core::Flash;
use rec_store::Records;

// An Executable Load File owns the applications that come from it.
impl Owned for Entry {
    ghost COUNT = { ENTRIES };

    const COUNT: u8 = ENTRIES as u8;

    ghost slots = { λ tables. tables.entries.items };

    ghost rest = { λ tables. record (lists_of tables) { entries = [] } };

    ghost owner = { entry_file };

    ghost page = { entry_page };

    ghost pages = { entry_pages };

    fn slots<F: Flash>(records: &Records<F>) -> &[Option<Entry>] {
        &records.tables().entries
    }

    fn owner(&self) -> u8 {
        self.file
    }

    fn free<F: Flash>(records: &mut Records<F>, slot: u8) {
        put_entry(records, slot, None);
    }

    ghost some = { lit< tt };
}

/// Removes the entries that come from the Executable Load File in a slot, which is not the factory's. They are applications and
/// own nothing. It commits nothing.
pub fn remove_applications<F: Flash>(records: &mut Records<F>, file: u8)
    requires live { records.old.live ≡ true }
    requires slot { IsSome (thing_in records.old.tables.files.items file) }
    requires other { file_aid records.old.tables.files.items file ≢ FACTORY_FILE }
    requires room { HasFramesFor entry_pages records.old.staged }
    ensures said { (page : ℕ → List ℕ) (said : Registry) → Represents page records.old.tables said → Well said
        → Represents page records.new.tables (without_applications said (file_aid records.old.tables.files.items file)) }
    ensures slots { RemovesApplications records.old.tables records.new.tables file }
    ensures unloaded { IsUnloaded records.new.tables file }
    ensures same { (records.new.flash ≡ records.old.flash) × (records.new.live ≡ true) }
    ensures staged { StagesChanged entry_page records.old.tables.entries.items records.new.tables.entries.items records.old.staged records.new.staged }
    ensures room { KeepsRoom entry_pages records.old.staged records.new.staged }
{
    free_owned::<F, Entry>(records, file);
}
