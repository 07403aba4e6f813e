//! The lines of sequence counters.

ghost use Rattle.std.specs.Prelude.{◌≡◌, ◌≤◌};
ghost use Rattle.std.specs.List.{flat_map};
ghost use Rattle.gp_tool.specs.Prelude.{Counter, HasCause, IsInOrder, WritesOf, counter_line, counter_of, counter_order, counter_order_total, keeps_counter};
ghost use Rattle.card_types.specs.declared.limits.TheConstants.{COUNTER_LIMIT};

use crate::show::line::LINE_ROOM;
use crate::show::listing::{Listing, TextListing, write_lines};
use crate::show::owner::{aid_of_domain, owners_cmp};
use arrayvec::ArrayVec;
use card_types::{KeyRec, Tables};
use io_edge::{Sink, WriteFailed};
use line_text::{push_hex, push_word};

/// The lowest key version number of a key that belongs to no set.
const LONE_VERSION: u8 = 0x70;

/// The sequence counters, by their owners' AIDs and their key version numbers. A key keeps each.
#[derive(Drop)]
pub struct ListedCounters<'a> {
    pub tables: &'a Tables,
}

impl Listing<KeyRec> for ListedCounters<'_> {
    ghost Named = { Counter };

    ghost named = { λ counters key. counter_of counters.tables.now.entries.items key };

    ghost listed = { λ _ key. keeps_counter key };

    ghost order = { counter_order };

    fn is_listed(&self, thing: &KeyRec) -> bool {
        thing.identifier == 1 && thing.version < LONE_VERSION
    }

    fn is_below(&self, a: &KeyRec, b: &KeyRec) -> bool {
        owners_cmp(&self.tables.entries, a.owner, b.owner)
            .then(a.version.cmp(&b.version))
            .is_lt()
    }

    ghost total = { counter_order_total };
}

impl TextListing<KeyRec> for ListedCounters<'_> {
    ghost text = { λ counters key. counter_line (counter_of counters.tables.now.entries.items key) };

    ghost can_spell = { λ _ key. key.counter ≤ COUNTER_LIMIT };

    fn spell(&self, thing: &KeyRec, line: &mut ArrayVec<u8, LINE_ROOM>) {
        let [_, high, middle, low] = thing.counter.to_be_bytes();
        push_word(b"counter ", line);
        push_hex(aid_of_domain(&self.tables.entries, thing.owner), line);
        push_word(b" ", line);
        push_hex(&[thing.version], line);
        push_word(b" ", line);
        push_hex(&[high, middle, low], line);
        push_word(b"\n", line);
    }
}

/// Writes the lines of the sequence counters.
pub fn show_counters<K: Sink>(tables: &Tables, sink: &mut K) -> Result<(), WriteFailed>
    requires in_order { IsInOrder tables.now }
    ensures written { WritesOf (λ said. flat_map counter_line said.counters) K.tells tables.now (K.state sink.old).written (K.state sink.new).written result }
    ensures flushes { (K.state sink.new).flushes ≡ (K.state sink.old).flushes }
    ensures cause { HasCause (K.state sink.old).faults (K.state sink.new).faults result }
{
    write_lines(&ListedCounters { tables }, &tables.keys, sink)
}
