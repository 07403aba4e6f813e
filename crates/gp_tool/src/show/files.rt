//! The lines of Executable Load Files.

ghost use Rattle.std.specs.Prelude.{◌≡◌, ◌≤◌, ◌++◌, ℕ, List, [], ◌∷◌, Some, true, length, OnOk, IfErr, IfSome, IfNone};
ghost use Rattle.std.specs.List.{flat_map};
ghost use Rattle.std.proofs.lemmas.Cmp.{nat_list_cmp_total};
ghost use Rattle.gp_tool.specs.Prelude.{CardRepresents, IsLeast, LeavesOnly, NoneFits, Reopens, ShowCause, State, Writes, aid_order, array_vec_len, domain_aid, file_content, file_line, file_names, file_of, is_next_file, load_page, thing_in};
ghost use Rattle.gp_tool.specs.declared.show.fault.ShowFault.TheVariants.{Write};

use crate::show::fault::ShowFault;
use crate::show::line::LINE_ROOM;
use crate::show::listing::{Listing, next};
use crate::show::owner::aid_of_domain;
use arrayvec::ArrayVec;
use card_core::Card;
use card_types::{FILES, LoadFile, Tables};
use flash_core::Flash;
use io_edge::Sink;
use line_text::{push_decimal, push_hex, push_word};

/// The Executable Load Files, in ascending order of their AIDs.
#[derive(Drop)]
pub struct ListedFiles;

impl Listing<LoadFile> for ListedFiles {
    ghost Named = { List ℕ };

    ghost named = { λ _ file. file.aid };

    ghost listed = { λ _ _. true };

    ghost order = { aid_order };

    fn is_listed(&self, _thing: &LoadFile) -> bool {
        true
    }

    fn is_below(&self, a: &LoadFile, b: &LoadFile) -> bool {
        a.aid.is_below(&b.aid)
    }

    ghost total = { nat_list_cmp_total };
}

// Its AID and that of its domain.
fn push_names(tables: &Tables, file: &LoadFile, line: &mut ArrayVec<u8, LINE_ROOM>)
    requires empty { line.old.items ≡ [] }
    ensures written { line.new.items ≡ file_names file.now.aid (domain_aid tables.now.entries.items file.now.domain) }
    ensures size { array_vec_len line.new ≤ 80 }
{
    push_word(b"file ", line);
    push_hex(file.aid.as_bytes(), line);
    push_word(b" in ", line);
    push_hex(aid_of_domain(&tables.entries, file.domain), line);
}

// How many bytes it has, and their digest.
fn push_content(len: u16, digest: &[u8; 32], line: &mut ArrayVec<u8, LINE_ROOM>)
    requires room { array_vec_len line.old ≤ 80 }
    ensures written { line.new.items ≡ line.old.items ++ file_content len digest.now ++ 10 ∷ [] }
{
    push_word(b" bytes ", line);
    push_decimal(usize::from(len), line);
    push_word(b" sha256 ", line);
    push_hex(digest, line);
    push_word(b"\n", line);
}

// The first file past the last one, with its slot.
fn next_file(tables: &Tables, last: Option<LoadFile>) -> Option<(u8, LoadFile)>
    requires { length tables.now.files.items ≤ 256 }
    ensures some { IfSome result (λ found. IsLeast (is_next_file last) (λ a b. aid_order a.aid b.aid) tables.now.files.items found.0 found.1) }
    ensures none { IfNone result (NoneFits (is_next_file last) tables.now.files.items) }
{
    match next(&ListedFiles, &tables.files, last.as_ref()) {
        Some(found) => Some((found.slot, *found.thing)),
        None => None,
    }
}

// Writes the line of the file in a slot.
fn write_file<F: Flash, K: Sink>(
    card: &mut Card<F>,
    slot: u8,
    file: &LoadFile,
    sink: &mut K,
) -> Result<(), ShowFault>
    requires live { card.old.live ≡ true }
    requires used { thing_in card.old.tables.files.items slot ≡ Some file.now }
    ensures written { F.tells → (state : State) → CardRepresents F.Flash card.old state
        → Writes K.tells (K.state sink.old).written (K.state sink.new).written (file_line (file_of (load_page (F.pages card.old.flash)) card.old.tables.entries.items file.now)) result }
    ensures moments { F.tells → (state : State) → CardRepresents F.Flash card.old state
        → LeavesOnly F.Flash card.old.flash card.new.flash (λ outcome. Reopens outcome state.registry) }
    ensures stands { (state : State) → CardRepresents F.Flash card.old state → OnOk result (CardRepresents F.Flash card.new state) }
    ensures refused { (state : State) → CardRepresents F.Flash card.old state
        → IfErr result (λ fault. fault ≡ Write → CardRepresents F.Flash card.new state) }
    ensures same { card.new.tables ≡ card.old.tables }
    ensures live { OnOk result (card.new.live ≡ true) }
    ensures pages { F.tells → F.pages card.new.flash ≡ F.pages card.old.flash }
    ensures flushes { (K.state sink.new).flushes ≡ (K.state sink.old).flushes }
    ensures later { F.faults card.old.flash ≤ F.faults card.new.flash }
    ensures later_writes { (K.state sink.old).faults ≤ (K.state sink.new).faults }
    ensures quiet { OnOk result ((K.state sink.new).faults ≡ (K.state sink.old).faults) }
    ensures cause { IfErr result (ShowCause (F.faults card.old.flash) (F.faults card.new.flash) (K.state sink.old).faults (K.state sink.new).faults) }
{
    prove!(file.pages[..].len() == 128);
    let digest = card.file_digest(slot)?;
    let mut line = ArrayVec::new();
    push_names(card.tables(), file, &mut line);
    push_content(file.len, &digest, &mut line);
    sink.write_all(&line)?;
    Ok(())
}

/// Writes the lines of the Executable Load Files.
pub fn show_files<F: Flash, K: Sink>(card: &mut Card<F>, sink: &mut K) -> Result<(), ShowFault>
    requires live { card.old.live ≡ true }
    ensures written { F.tells → (state : State) → CardRepresents F.Flash card.old state
        → Writes K.tells (K.state sink.old).written (K.state sink.new).written (flat_map file_line state.registry.files) result }
    ensures moments { F.tells → (state : State) → CardRepresents F.Flash card.old state
        → LeavesOnly F.Flash card.old.flash card.new.flash (λ outcome. Reopens outcome state.registry) }
    ensures stands { (state : State) → CardRepresents F.Flash card.old state → OnOk result (CardRepresents F.Flash card.new state) }
    ensures refused { (state : State) → CardRepresents F.Flash card.old state
        → IfErr result (λ fault. fault ≡ Write → CardRepresents F.Flash card.new state) }
    ensures same { card.new.tables ≡ card.old.tables }
    ensures pages { F.tells → F.pages card.new.flash ≡ F.pages card.old.flash }
    ensures flushes { (K.state sink.new).flushes ≡ (K.state sink.old).flushes }
    ensures later { F.faults card.old.flash ≤ F.faults card.new.flash }
    ensures later_writes { (K.state sink.old).faults ≤ (K.state sink.new).faults }
    ensures quiet { OnOk result ((K.state sink.new).faults ≡ (K.state sink.old).faults) }
    ensures cause { IfErr result (ShowCause (F.faults card.old.flash) (F.faults card.new.flash) (K.state sink.old).faults (K.state sink.new).faults) }
{
    let mut last = None;
    for _ in 0..FILES {
        match next_file(card.tables(), last) {
            Some((slot, file)) => {
                write_file(card, slot, &file, sink)?;
                last = Some(file);
            }
            None => return Ok(()),
        }
    }
    Ok(())
}
