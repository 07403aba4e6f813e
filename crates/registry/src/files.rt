//! Executable Load Files: they are added and removed (GlobalPlatform Card Specification 2.3.1, 9.3 and 9.5).

ghost use Rattle.std.specs.Prelude.{◌≡◌, ◌↔◌, ℕ, List, [], ◌∷◌, true, None, length, Err, IfOk, OnErr, OnOk, IsSome};
ghost use Rattle.registry.specs.Prelude.{AddsFile, HasFramesFor, IsAidTaken, IsFileAdded, IsFirstFree, IsInLoadPages, IsUnloaded, KeepsRoom, NoneFree, NoneHas, Registry, Represents, SetsFile, Well, file_aid, file_of, file_page, thing_in, with_staged, without_file};
ghost use Rattle.card_types.specs.declared.limits.TheConstants.{FILES};

use crate::place::place;
use crate::refusal::AddRefusal;
use card_types::{LoadFile, first_free};
use flash_core::Flash;
use rec_store::Records;

/// Puts an Executable Load File, whose AID nothing has and whose bytes its load pages hold, into the first free slot, and answers the
/// slot. It commits nothing.
pub fn place_file<F: Flash>(records: &mut Records<F>, value: LoadFile) -> u8
    requires live { records.old.live ≡ true }
    requires domain { IsSome (thing_in records.old.tables.entries.items value.domain) }
    requires pages { IsInLoadPages value }
    requires fresh { NoneHas records.old.tables value.aid }
    requires free { NoneFree records.old.tables.files.items → ⊥ }
    requires room { (slot : ℕ) → IsFirstFree records.old.tables.files.items slot → HasFramesFor (file_page slot ∷ []) records.old.staged }
    ensures said { (page : ℕ → List ℕ) (said : Registry) → Represents page records.old.tables said → Well said → (after : Registry)
        × IsFileAdded (file_of page records.old.tables.entries.items value) said after × Represents page records.new.tables after }
    ensures slots { AddsFile records.old.tables records.new.tables result value }
    ensures same { (records.new.flash ≡ records.old.flash) × (records.new.live ≡ true) }
    ensures staged { records.new.staged ≡ with_staged records.old.staged (file_page result) }
    ensures room { KeepsRoom (file_page result ∷ []) records.old.staged records.new.staged }
{
    let slot = first_free(&records.tables().files).unwrap();
    records.set_file(slot, Some(value));
    slot
}

/// Adds an Executable Load File, whose bytes its load pages hold. It commits nothing.
pub fn add_file<F: Flash>(records: &mut Records<F>, value: LoadFile) -> Result<u8, AddRefusal>
    requires live { records.old.live ≡ true }
    requires domain { IsSome (thing_in records.old.tables.entries.items value.domain) }
    requires pages { IsInLoadPages value }
    requires room { (slot : ℕ) → IsFirstFree records.old.tables.files.items slot → HasFramesFor (file_page slot ∷ []) records.old.staged }
    ensures said { OnOk result ((page : ℕ → List ℕ) (said : Registry) → Represents page records.old.tables said → Well said → (after : Registry)
        × IsFileAdded (file_of page records.old.tables.entries.items value) said after × Represents page records.new.tables after) }
    ensures slots { IfOk result (λ slot. AddsFile records.old.tables records.new.tables slot value) }
    ensures taken { (page : ℕ → List ℕ) (said : Registry) → Represents page records.old.tables said → (result ≡ Err AddRefusal.Taken ↔ IsAidTaken said value.aid) }
    ensures full { (page : ℕ → List ℕ) (said : Registry) → Represents page records.old.tables said
        → (result ≡ Err AddRefusal.Full ↔ ((¬ IsAidTaken said value.aid) × (length said.files ≡ FILES))) }
    ensures unchanged { OnErr result (records.new ≡ records.old) }
    ensures same { (records.new.flash ≡ records.old.flash) × (records.new.live ≡ true) }
    ensures staged { IfOk result (λ slot. records.new.staged ≡ with_staged records.old.staged (file_page slot)) }
    ensures room { IfOk result (λ slot. KeepsRoom (file_page slot ∷ []) records.old.staged records.new.staged) }
{
    let tables = records.tables();
    place(tables, &tables.files, &value.aid)?;
    Ok(place_file(records, value))
}

/// Removes the Executable Load File in a slot, which no entry names. It commits nothing.
pub fn remove_file<F: Flash>(records: &mut Records<F>, slot: u8)
    requires live { records.old.live ≡ true }
    requires slot { IsSome (thing_in records.old.tables.files.items slot) }
    requires unloaded { IsUnloaded records.old.tables slot }
    requires room { HasFramesFor (file_page slot ∷ []) records.old.staged }
    ensures said { (page : ℕ → List ℕ) (said : Registry) → Represents page records.old.tables said
        → Represents page records.new.tables (without_file said (file_aid records.old.tables.files.items slot)) }
    ensures slots { SetsFile records.old.tables records.new.tables slot None }
    ensures same { (records.new.flash ≡ records.old.flash) × (records.new.live ≡ true) }
    ensures staged { records.new.staged ≡ with_staged records.old.staged (file_page slot) }
    ensures room { KeepsRoom (file_page slot ∷ []) records.old.staged records.new.staged }
{
    prove!(usize::from(slot) < records.tables().files.len());
    records.set_file(slot, None);
}
