//! The lines of entries.

ghost use Rattle.std.specs.Prelude.{◌≡◌, ◌≤◌, ◌++◌, [], true};
ghost use Rattle.std.specs.List.{flat_map};
ghost use Rattle.std.specs.Ordering.{on};
ghost use Rattle.std.proofs.lemmas.Cmp.{nat_list_cmp_total, on_total};
ghost use Rattle.gp_tool.specs.Prelude.{HasCause, IsInOrder, WritesOf, aid_order, array_vec_len, entry_kind, entry_line, entry_names, entry_of, entry_state};
ghost use Rattle.card_types.specs.Registry.{Entry as NamedEntry};

use crate::show::line::LINE_ROOM;
use crate::show::listing::{Listing, TextListing, write_lines};
use crate::show::owner::{aid_of_domain, aid_of_file};
use arrayvec::ArrayVec;
use bitflags::Flags;
use card_types::{Entry, Privileges, Tables};
use io_edge::{Sink, WriteFailed};
use line_text::{push_hex, push_word};

// The entries, in ascending order of their AIDs.
impl Listing<Entry> for Tables {
    ghost Named = { NamedEntry };

    ghost named = { λ tables entry. entry_of tables.entries.items tables.files.items entry };

    ghost listed = { λ _ _. true };

    ghost order = { on (λ (entry : NamedEntry). entry.aid) aid_order };

    fn is_listed(&self, _thing: &Entry) -> bool {
        true
    }

    fn is_below(&self, a: &Entry, b: &Entry) -> bool {
        a.aid.is_below(&b.aid)
    }

    ghost total = { on_total (λ (entry : NamedEntry). entry.aid) nat_list_cmp_total };
}

impl TextListing<Entry> for Tables {
    ghost text = { λ tables entry. entry_line (entry_of tables.entries.items tables.files.items entry) };

    ghost can_spell = { λ _ _. Unit {0} };

    fn spell(&self, thing: &Entry, line: &mut ArrayVec<u8, LINE_ROOM>) {
        push_kind(thing, line);
        push_names(self, thing, line);
        push_state(thing, line);
        push_word(b"\n", line);
    }
}

// Whether it is a domain or an application.
fn push_kind(entry: &Entry, line: &mut ArrayVec<u8, LINE_ROOM>)
    requires empty { line.old.items ≡ [] }
    ensures written { line.new.items ≡ entry_kind entry.now.privileges }
    ensures size { array_vec_len line.new ≤ 7 }
{
    if entry.privileges.contains(Privileges::SECURITY_DOMAIN) {
        push_word(b"domain ", line);
    } else {
        push_word(b"app ", line);
    }
}

// Its AID, and those of its domain, its Executable Load File and its Module.
fn push_names(tables: &Tables, entry: &Entry, line: &mut ArrayVec<u8, LINE_ROOM>)
    requires room { array_vec_len line.old ≤ 7 }
    ensures written { line.new.items ≡ line.old.items ++ entry_names (entry_of tables.now.entries.items tables.now.files.items entry.now) }
    ensures size { array_vec_len line.new ≤ 153 }
{
    push_hex(entry.aid.as_bytes(), line);
    push_word(b" in ", line);
    push_hex(aid_of_domain(&tables.entries, entry.domain), line);
    push_word(b" from ", line);
    push_hex(aid_of_file(&tables.files, entry.file), line);
    push_word(b" module ", line);
    push_hex(entry.module.as_bytes(), line);
}

// Its life cycle state, its privileges and its last receipt number.
fn push_state(entry: &Entry, line: &mut ArrayVec<u8, LINE_ROOM>)
    requires room { array_vec_len line.old ≤ 153 }
    ensures written { line.new.items ≡ line.old.items ++ entry_state entry.now.life entry.now.privileges entry.now.receipts }
    ensures size { array_vec_len line.new ≤ 200 }
{
    push_word(b" life ", line);
    push_hex(&[entry.life.code()], line);
    push_word(b" priv ", line);
    push_hex(&entry.privileges.to_bytes(), line);
    push_word(b" receipts ", line);
    push_hex(&entry.receipts.to_be_bytes(), line);
}

/// Writes the lines of the entries.
pub fn show_entries<K: Sink>(tables: &Tables, sink: &mut K) -> Result<(), WriteFailed>
    requires in_order { IsInOrder tables.now }
    ensures written { WritesOf (λ said. flat_map entry_line said.entries) K.tells tables.now (K.state sink.old).written (K.state sink.new).written result }
    ensures flushes { (K.state sink.new).flushes ≡ (K.state sink.old).flushes }
    ensures cause { HasCause (K.state sink.old).faults (K.state sink.new).faults result }
{
    write_lines(tables, &tables.entries, sink)
}
