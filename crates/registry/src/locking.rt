//! A security domain is locked or unlocked with all that is below it (GlobalPlatform Card Specification 2.3.1, 11.10).

ghost use Rattle.std.specs.Prelude.{◌≡◌, ◌≢◌, ◌↔◌, ◌<◌, ℕ, List, Bool, true, Some, IfNone, IfSome, IsSome, IsTrue, length};
ghost use Rattle.std.specs.Option.{option_map};
ghost use Rattle.registry.specs.Prelude.{ChangesEntry, HasFramesFor, IsFreeOfLoops, IsSlotInTree, IsTreeOf, KeepsRoom, LocksTree, Registry, Represents, StagesChanged, Well, domain_aid, entry_page, entry_pages, thing_in, with_lock, with_locks};
ghost use Rattle.card_types.specs.declared.limits.TheConstants.{ENTRIES};

use crate::entries::put_entry;
use card_types::{ENTRIES, Entry, in_slot};
use domain_tree::above;
use flash_core::Flash;
use rec_store::Records;

fn is_in_tree(entries: &[Option<Entry>], domain: u8, slot: u8) -> bool
    requires whole { length entries.now ≡ ENTRIES }
    requires no_loops { IsFreeOfLoops entries.now }
    ensures { IsTrue result ↔ IsSlotInTree entries.now domain slot }
{
    slot == domain || above(entries, domain, slot)
}

// The entry in a slot with the lock mark, where it has the other.
fn marked(entries: &[Option<Entry>], slot: u8, locked: bool) -> Option<Entry>
    ensures some { IfSome result (λ entry. (option_map (with_lock locked) (thing_in entries.now slot) ≡ Some entry) × (thing_in entries.now slot ≢ Some entry)) }
    ensures none { IfNone result (option_map (with_lock locked) (thing_in entries.now slot) ≡ thing_in entries.now slot) }
{
    let mut entry = *in_slot(entries, slot)?;
    if entry.life.locked == locked {
        return None;
    }
    entry.life.locked = locked;
    Some(entry)
}

// Sets or clears the lock mark of the entry in a slot, if there is one.
fn lock_slot<F: Flash>(records: &mut Records<F>, slot: u8, locked: bool)
    requires live { records.old.live ≡ true }
    requires range { slot < ENTRIES }
    requires room { HasFramesFor entry_pages records.old.staged }
    ensures slots { ChangesEntry records.old.tables records.new.tables slot (with_lock locked) }
    ensures same { (records.new.flash ≡ records.old.flash) × (records.new.live ≡ true) }
    ensures staged { StagesChanged entry_page records.old.tables.entries.items records.new.tables.entries.items records.old.staged records.new.staged }
    ensures room { KeepsRoom entry_pages records.old.staged records.new.staged }
{
    if let Some(entry) = marked(&records.tables().entries, slot, locked) {
        put_entry(records, slot, Some(entry));
    }
}

/// Sets or clears the lock mark of the security domain in a slot and of each entry below it. It commits nothing.
pub fn lock_tree<F: Flash>(records: &mut Records<F>, domain: u8, locked: bool)
    requires live { records.old.live ≡ true }
    requires slot { IsSome (thing_in records.old.tables.entries.items domain) }
    requires no_loops { IsFreeOfLoops records.old.tables.entries.items }
    requires room { HasFramesFor entry_pages records.old.staged }
    ensures said { (page : ℕ → List ℕ) (said : Registry) → Represents page records.old.tables said → Well said → (these : List ℕ → Bool)
        × IsTreeOf said (domain_aid records.old.tables.entries.items domain) these × Represents page records.new.tables (with_locks said these locked) }
    ensures slots { LocksTree records.old.tables records.new.tables domain locked }
    ensures same { (records.new.flash ≡ records.old.flash) × (records.new.live ≡ true) }
    ensures staged { StagesChanged entry_page records.old.tables.entries.items records.new.tables.entries.items records.old.staged records.new.staged }
    ensures room { KeepsRoom entry_pages records.old.staged records.new.staged }
{
    for slot in 0..ENTRIES as u8 {
        if is_in_tree(&records.tables().entries, domain, slot) {
            lock_slot(records, slot, locked);
        }
    }
}
