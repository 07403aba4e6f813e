//! Entries: they are added, and changed in their slots (GlobalPlatform Card Specification 2.3.1, 6.5).

ghost use Rattle.std.specs.Prelude.{◌≡◌, ◌↔◌, ◌<◌, ℕ, List, true, length, Err, IfOk, OnErr, OnOk, IsSome};
ghost use Rattle.registry.specs.Prelude.{AddsEntry, ChangesEntry, HasFramesFor, IsAidTaken, IsEntryAdded, KeepsRoom, NoneFree, NoneHas, Registry, Represents, SetsEntry, Well, domain_aid, entry_of, entry_page, entry_pages, thing_in, with_life, with_receipts, with_staged};
ghost use Rattle.card_types.specs.declared.limits.TheConstants.{ENTRIES};

use crate::place::place;
use crate::refusal::AddRefusal;
use card_types::{Entry, LifeMark, first_free, in_slot};
use flash_core::Flash;
use rec_store::Records;

/// Changes an entry slot, where there is room for the pages of entries. It commits nothing.
pub fn put_entry<F: Flash>(records: &mut Records<F>, slot: u8, value: Option<Entry>)
    requires live { records.old.live ≡ true }
    requires range { slot < ENTRIES }
    requires room { HasFramesFor entry_pages records.old.staged }
    ensures tables { SetsEntry records.old.tables records.new.tables slot value }
    ensures same { (records.new.flash ≡ records.old.flash) × (records.new.live ≡ true) }
    ensures staged { records.new.staged ≡ with_staged records.old.staged (entry_page slot) }
    ensures room { KeepsRoom entry_pages records.old.staged records.new.staged }
{
    records.set_entry(slot, value);
}

/// Puts an application or a security domain, whose AID nothing has, into the first free slot, and answers the slot. It commits
/// nothing.
pub fn place_entry<F: Flash>(records: &mut Records<F>, value: Entry) -> u8
    requires live { records.old.live ≡ true }
    requires domain { IsSome (thing_in records.old.tables.entries.items value.domain) }
    requires file { IsSome (thing_in records.old.tables.files.items value.file) }
    requires fresh { NoneHas records.old.tables value.aid }
    requires free { NoneFree records.old.tables.entries.items → ⊥ }
    requires room { HasFramesFor entry_pages records.old.staged }
    ensures said { (page : ℕ → List ℕ) (said : Registry) → Represents page records.old.tables said → Well said → (after : Registry)
        × IsEntryAdded (entry_of records.old.tables.entries.items records.old.tables.files.items value) said after × Represents page records.new.tables after }
    ensures slots { AddsEntry records.old.tables records.new.tables result value }
    ensures same { (records.new.flash ≡ records.old.flash) × (records.new.live ≡ true) }
    ensures staged { records.new.staged ≡ with_staged records.old.staged (entry_page result) }
    ensures room { KeepsRoom entry_pages records.old.staged records.new.staged }
{
    let slot = first_free(&records.tables().entries).unwrap();
    put_entry(records, slot, Some(value));
    slot
}

/// Adds an application or a security domain. It commits nothing.
pub fn add_entry<F: Flash>(records: &mut Records<F>, value: Entry) -> Result<u8, AddRefusal>
    requires live { records.old.live ≡ true }
    requires domain { IsSome (thing_in records.old.tables.entries.items value.domain) }
    requires file { IsSome (thing_in records.old.tables.files.items value.file) }
    requires room { HasFramesFor entry_pages records.old.staged }
    ensures said { OnOk result ((page : ℕ → List ℕ) (said : Registry) → Represents page records.old.tables said → Well said → (after : Registry)
        × IsEntryAdded (entry_of records.old.tables.entries.items records.old.tables.files.items value) said after × Represents page records.new.tables after) }
    ensures slots { IfOk result (λ slot. AddsEntry records.old.tables records.new.tables slot value) }
    ensures taken { (page : ℕ → List ℕ) (said : Registry) → Represents page records.old.tables said → (result ≡ Err AddRefusal.Taken ↔ IsAidTaken said value.aid) }
    ensures full { (page : ℕ → List ℕ) (said : Registry) → Represents page records.old.tables said
        → (result ≡ Err AddRefusal.Full ↔ ((¬ IsAidTaken said value.aid) × (length said.entries ≡ ENTRIES))) }
    ensures unchanged { OnErr result (records.new ≡ records.old) }
    ensures same { (records.new.flash ≡ records.old.flash) × (records.new.live ≡ true) }
    ensures staged { IfOk result (λ slot. records.new.staged ≡ with_staged records.old.staged (entry_page slot)) }
    ensures room { KeepsRoom entry_pages records.old.staged records.new.staged }
{
    let tables = records.tables();
    place(tables, &tables.entries, &value.aid)?;
    Ok(place_entry(records, value))
}

/// Puts the entry in a slot into another life cycle state, or sets its lock mark. It commits nothing.
pub fn set_life<F: Flash>(records: &mut Records<F>, slot: u8, life: LifeMark)
    requires live { records.old.live ≡ true }
    requires slot { IsSome (thing_in records.old.tables.entries.items slot) }
    requires room { HasFramesFor entry_pages records.old.staged }
    ensures said { (page : ℕ → List ℕ) (said : Registry) → Represents page records.old.tables said
        → Represents page records.new.tables (with_life said (domain_aid records.old.tables.entries.items slot) life) }
    ensures slots { ChangesEntry records.old.tables records.new.tables slot (λ entry. record entry { life = life }) }
    ensures same { (records.new.flash ≡ records.old.flash) × (records.new.live ≡ true) }
    ensures staged { records.new.staged ≡ with_staged records.old.staged (entry_page slot) }
    ensures room { KeepsRoom entry_pages records.old.staged records.new.staged }
{
    let mut entry = *in_slot(&records.tables().entries, slot).unwrap();
    entry.life = life;
    put_entry(records, slot, Some(entry));
}

/// Sets the number of the last receipt of the entry in a slot. It commits nothing.
pub fn set_receipts<F: Flash>(records: &mut Records<F>, slot: u8, number: u16)
    requires live { records.old.live ≡ true }
    requires slot { IsSome (thing_in records.old.tables.entries.items slot) }
    requires room { HasFramesFor entry_pages records.old.staged }
    ensures said { (page : ℕ → List ℕ) (said : Registry) → Represents page records.old.tables said
        → Represents page records.new.tables (with_receipts said (domain_aid records.old.tables.entries.items slot) number) }
    ensures slots { ChangesEntry records.old.tables records.new.tables slot (λ entry. record entry { receipts = number }) }
    ensures same { (records.new.flash ≡ records.old.flash) × (records.new.live ≡ true) }
    ensures staged { records.new.staged ≡ with_staged records.old.staged (entry_page slot) }
    ensures room { KeepsRoom entry_pages records.old.staged records.new.staged }
{
    let mut entry = *in_slot(&records.tables().entries, slot).unwrap();
    entry.receipts = number;
    put_entry(records, slot, Some(entry));
}
