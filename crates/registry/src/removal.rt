//! An entry is removed, with the keys and data objects that it owns (GlobalPlatform Card Specification 2.3.1, 9.5).

ghost use Rattle.std.specs.Prelude.{◌≡◌, ℕ, List, true, IsSome};
ghost use Rattle.registry.specs.Prelude.{HasFramesFor, IsNoDomain, KeepsRoom, Registry, RemovesEntry, Represents, StagesOwned, Well, domain_aid, owner_pages, thing_in, without_entry};

use crate::owned::free_owned;
use card_types::{KeyRec, Object};
use flash_core::Flash;
use rec_store::Records;

/// Removes the entry in a slot, which is the domain of no other thing, with the keys and data objects that it owns. It commits
/// nothing.
pub fn remove_entry<F: Flash>(records: &mut Records<F>, slot: u8)
    requires live { records.old.live ≡ true }
    requires slot { IsSome (thing_in records.old.tables.entries.items slot) }
    requires alone { IsNoDomain records.old.tables slot }
    requires room { HasFramesFor owner_pages records.old.staged }
    ensures said { (page : ℕ → List ℕ) (said : Registry) → Represents page records.old.tables said → Well said
        → Represents page records.new.tables (without_entry said (domain_aid records.old.tables.entries.items slot)) }
    ensures slots { RemovesEntry records.old.tables records.new.tables slot }
    ensures same { (records.new.flash ≡ records.old.flash) × (records.new.live ≡ true) }
    ensures staged { StagesOwned records.old records.new }
    ensures room { KeepsRoom owner_pages records.old.staged records.new.staged }
{
    prove!(usize::from(slot) < records.tables().entries.len());
    free_owned::<F, KeyRec>(records, slot);
    free_owned::<F, Object>(records, slot);
    records.set_entry(slot, None);
}
