//! A registry as text.
//!
//! The line of the card comes first, then a line each for its entries, Executable Load Files, keys, sequence counters and data
//! objects, in ascending order of their names. No bytes of keys are shown.

ghost use Rattle.std.specs.Prelude.{◌≡◌, ◌≤◌, ◌++◌, ℕ, take, true, OnOk, OnErr, IfErr};
ghost use Rattle.std.specs.List.{flat_map};
ghost use Rattle.gp_tool.specs.Prelude.{CardRepresents, HasCause, IsInOrder, LeavesOnly, Reopens, ShowCause, State, Writes, WritesOf, card_line, counter_line, entry_line, key_line, object_line, registry_text};
ghost use Rattle.gp_tool.specs.declared.show.fault.ShowFault.TheVariants.{Write};

mod counters;
mod entries;
mod fault;
mod files;
mod keys;
mod line;
mod listing;
mod objects;
mod owner;

use arrayvec::ArrayVec;
use card_core::Card;
use card_types::{CardLife, Tables};
use counters::show_counters;
use entries::show_entries;
pub use fault::ShowFault;
use files::show_files;
use flash_core::Flash;
use io_edge::{Sink, WriteFailed};
use keys::show_keys;
use line::LINE_ROOM;
use line_text::{push_hex, push_word};
use objects::show_objects;

// Writes the line of the card.
fn show_life<K: Sink>(life: CardLife, sink: &mut K) -> Result<(), WriteFailed>
    ensures written { Writes K.tells (K.state sink.old).written (K.state sink.new).written (card_line life) result }
    ensures flushes { (K.state sink.new).flushes ≡ (K.state sink.old).flushes }
    ensures cause { HasCause (K.state sink.old).faults (K.state sink.new).faults result }
{
    let mut line = ArrayVec::<u8, LINE_ROOM>::new();
    push_word(b"card ", &mut line);
    push_hex(&[life.code()], &mut line);
    push_word(b"\n", &mut line);
    sink.write_all(&line)
}

// Writes the lines that stand before those of Executable Load Files.
fn show_front<K: Sink>(tables: &Tables, sink: &mut K) -> Result<(), WriteFailed>
    requires in_order { IsInOrder tables.now }
    ensures written { WritesOf (λ said. card_line said.life ++ flat_map entry_line said.entries) K.tells tables.now
        (K.state sink.old).written (K.state sink.new).written result }
    ensures flushes { (K.state sink.new).flushes ≡ (K.state sink.old).flushes }
    ensures cause { HasCause (K.state sink.old).faults (K.state sink.new).faults result }
{
    show_life(tables.life, sink)?;
    show_entries(tables, sink)
}

// Writes the lines of what domains own: keys, sequence counters and data objects.
fn show_owned<K: Sink>(tables: &Tables, sink: &mut K) -> Result<(), WriteFailed>
    requires in_order { IsInOrder tables.now }
    ensures written { WritesOf (λ said. flat_map key_line said.keys ++ (flat_map counter_line said.counters ++ flat_map object_line said.objects))
        K.tells tables.now (K.state sink.old).written (K.state sink.new).written result }
    ensures flushes { (K.state sink.new).flushes ≡ (K.state sink.old).flushes }
    ensures cause { HasCause (K.state sink.old).faults (K.state sink.new).faults result }
{
    show_keys(tables, sink)?;
    show_data(tables, sink)
}

// Writes the lines of sequence counters and data objects.
fn show_data<K: Sink>(tables: &Tables, sink: &mut K) -> Result<(), WriteFailed>
    requires in_order { IsInOrder tables.now }
    ensures written { WritesOf (λ said. flat_map counter_line said.counters ++ flat_map object_line said.objects) K.tells tables.now
        (K.state sink.old).written (K.state sink.new).written result }
    ensures flushes { (K.state sink.new).flushes ≡ (K.state sink.old).flushes }
    ensures cause { HasCause (K.state sink.old).faults (K.state sink.new).faults result }
{
    show_counters(tables, sink)?;
    show_objects(tables, sink)
}

/// Writes the registry of a card as text, a line at a time. Only the digests of Executable Load Files make calls on the device.
pub fn show<F: Flash, K: Sink>(card: &mut Card<F>, sink: &mut K) -> Result<(), ShowFault>
    requires live { card.old.live ≡ true }
    ensures written { (state : State) → CardRepresents F.Flash card.old state → F.tells → K.tells
        → OnOk result ((K.state sink.new).written ≡ (K.state sink.old).written ++ registry_text state.registry) }
    ensures part { (state : State) → CardRepresents F.Flash card.old state → F.tells → K.tells
        → OnErr result ((n : ℕ) × ((K.state sink.new).written ≡ (K.state sink.old).written ++ take n (registry_text state.registry))) }
    // Power lost at any moment leaves the registry.
    ensures moments { F.tells → (state : State) → CardRepresents F.Flash card.old state
        → LeavesOnly F.Flash card.old.flash card.new.flash (λ outcome. Reopens outcome state.registry) }
    ensures stands { (state : State) → CardRepresents F.Flash card.old state → OnOk result (CardRepresents F.Flash card.new state) }
    ensures refused { (state : State) → CardRepresents F.Flash card.old state
        → IfErr result (λ fault. fault ≡ Write → CardRepresents F.Flash card.new state) }
    ensures pages { F.tells → F.pages card.new.flash ≡ F.pages card.old.flash }
    ensures flushes { (K.state sink.new).flushes ≡ (K.state sink.old).flushes }
    ensures later { F.faults card.old.flash ≤ F.faults card.new.flash }
    ensures later_writes { (K.state sink.old).faults ≤ (K.state sink.new).faults }
    ensures quiet { OnOk result ((K.state sink.new).faults ≡ (K.state sink.old).faults) }
    ensures cause { IfErr result (ShowCause (F.faults card.old.flash) (F.faults card.new.flash) (K.state sink.old).faults (K.state sink.new).faults) }
{
    show_front(card.tables(), sink)?;
    show_files(card, sink)?;
    show_owned(card.tables(), sink)?;
    Ok(())
}
