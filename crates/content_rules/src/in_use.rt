//! Entries that are in use, and those that come from an Executable Load File, by slots.

ghost use Rattle.std.specs.Prelude.{◌≡◌, ◌↔◌, ℕ, IsSome, IsTrue, length};
ghost use Rattle.std.specs.List.{list_any};
ghost use Rattle.content_rules.specs.Prelude.{Above, HasOthersIn, IsFrom, IsInOrder, IsInUseIn, IsLoadDomain, domain_slot, thing_in};
ghost use Rattle.content_rules.specs.DeleteObjectFound.{comes_from_slot as comes_from_slot_by, has_slot as has_slot_by, is_file_of as is_file_of_by, is_other_of as is_other_of_by};

use card_types::{Aid, ENTRIES, Entry, LoadFile, Tables, in_slot};
use domain_tree::above;
use policy_machine::CHANNELS;
use policy_slots::Live;

fn has_slot(selected: &Option<u8>, slot: u8) -> bool
    ensures { result ≡ has_slot_by slot selected.now }
{
    match selected {
        Some(other) => *other == slot,
        None => false,
    }
}

// Whether a channel has the entry in a slot selected.
fn is_selected(live: &Live, slot: u8) -> bool
    ensures told { result ≡ list_any (has_slot_by slot) live.now.selected }
    ensures four { length live.now.selected ≡ CHANNELS }
{
    live.selected
        .iter()
        .any(|selected| has_slot(selected, slot))
}

// Whether the load session is for the domain in a slot.
fn is_loaded_into(live: &Live, slot: u8) -> bool
    ensures { IsTrue result ↔ IsLoadDomain live.now slot }
{
    match &live.load {
        Some(load) => load.domain == slot,
        None => false,
    }
}

fn is_other_of(held: &Option<Entry>, slot: u8, aid: &Aid) -> bool
    ensures { result ≡ is_other_of_by slot aid.now held.now }
{
    match held {
        Some(entry) => entry.domain == slot && entry.aid != *aid,
        None => false,
    }
}

fn is_file_of(held: &Option<LoadFile>, slot: u8) -> bool
    ensures { result ≡ is_file_of_by slot held.now }
{
    match held {
        Some(file) => file.domain == slot,
        None => false,
    }
}

// Whether an entry with another AID than this has the domain in a slot.
fn has_other_entry(entries: &[Option<Entry>], slot: u8, aid: &Aid) -> bool
    ensures { result ≡ list_any (is_other_of_by slot aid.now) entries.now }
{
    entries.iter().any(|held| is_other_of(held, slot, aid))
}

// Whether an Executable Load File has it.
fn has_file(files: &[Option<LoadFile>], slot: u8) -> bool
    ensures { result ≡ list_any (is_file_of_by slot) files.now }
{
    files.iter().any(|held| is_file_of(held, slot))
}

// Whether the entry in a slot is the domain of another, or of an Executable Load File.
fn has_others(tables: &Tables, slot: u8) -> bool
    requires in_order { IsInOrder tables.now }
    requires used { IsSome (thing_in tables.now.entries.items slot) }
    ensures { IsTrue result ↔ HasOthersIn tables.now slot }
{
    let entry = in_slot(&tables.entries, slot).unwrap();
    has_other_entry(&tables.entries, slot, &entry.aid) || has_file(&tables.files, slot)
}

// Whether the entry in a slot is in use.
pub(crate) fn is_in_use(tables: &Tables, live: &Live, slot: u8) -> bool
    requires in_order { IsInOrder tables.now }
    requires used { IsSome (thing_in tables.now.entries.items slot) }
    ensures { IsTrue result ↔ IsInUseIn tables.now live.now slot }
{
    is_selected(live, slot) || is_loaded_into(live, slot) || has_others(tables, slot)
}

fn comes_from_slot(held: &Option<Entry>, file: u8) -> bool
    ensures { result ≡ comes_from_slot_by file held.now }
{
    match held {
        Some(entry) => entry.file == file,
        None => false,
    }
}

// Whether an entry comes from the Executable Load File in a slot.
pub(crate) fn is_source(entries: &[Option<Entry>], file: u8) -> bool
    ensures { result ≡ list_any (comes_from_slot_by file) entries.now }
{
    entries.iter().any(|held| comes_from_slot(held, file))
}

// Whether the entry in a slot comes from the Executable Load File in another.
fn is_from(tables: &Tables, file: u8, slot: u8) -> bool
    ensures { IsTrue result ↔ IsFrom tables.now file slot }
{
    match in_slot(&tables.entries, slot) {
        Some(entry) => entry.file == file,
        None => false,
    }
}

// Whether an entry that comes from the Executable Load File in a slot is in use.
pub(crate) fn has_user(tables: &Tables, live: &Live, file: u8) -> bool
    requires in_order { IsInOrder tables.now }
    ensures { IsTrue result ↔ ((slot : ℕ) × IsFrom tables.now file slot × IsInUseIn tables.now live.now slot) }
{
    for slot in 0..ENTRIES as u8 {
        if is_from(tables, file, slot) && is_in_use(tables, live, slot) {
            return true;
        }
    }
    false
}

// Whether the domain in a slot is not above an entry that comes from the Executable Load File in another.
pub(crate) fn has_stranger(tables: &Tables, domain: u8, file: u8) -> bool
    requires in_order { IsInOrder tables.now }
    ensures { IsTrue result ↔ ((slot : ℕ) × IsFrom tables.now file slot × (Above (domain_slot tables.now.entries.items) domain slot → ⊥)) }
{
    for slot in 0..ENTRIES as u8 {
        if is_from(tables, file, slot) && !above(&tables.entries, domain, slot) {
            return true;
        }
    }
    false
}
