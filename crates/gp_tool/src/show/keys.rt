//! The lines of keys.

ghost use Rattle.std.specs.Prelude.{◌≡◌, true};
ghost use Rattle.std.specs.List.{flat_map};
ghost use Rattle.gp_tool.specs.Prelude.{HasCause, IsInOrder, Key, WritesOf, key_line, key_of, key_order, key_order_total};

use crate::show::line::LINE_ROOM;
use crate::show::listing::{Listing, TextListing, write_lines};
use crate::show::owner::{aid_of_domain, owners_cmp};
use arrayvec::ArrayVec;
use card_types::{KeyRec, Tables};
use io_edge::{Sink, WriteFailed};
use line_text::{push_decimal, push_hex, push_word};

// The keys, by their owners' AIDs, their key version numbers and their key identifiers.
impl Listing<KeyRec> for Tables {
    ghost Named = { Key };

    ghost named = { λ tables key. key_of tables.entries.items key };

    ghost listed = { λ _ _. true };

    ghost order = { key_order };

    fn is_listed(&self, _thing: &KeyRec) -> bool {
        true
    }

    fn is_below(&self, a: &KeyRec, b: &KeyRec) -> bool {
        let by_number = a
            .version
            .cmp(&b.version)
            .then(a.identifier.cmp(&b.identifier));
        owners_cmp(&self.entries, a.owner, b.owner)
            .then(by_number)
            .is_lt()
    }

    ghost total = { key_order_total };
}

impl TextListing<KeyRec> for Tables {
    ghost text = { λ tables key. key_line (key_of tables.entries.items key) };

    ghost can_spell = { λ _ _. Unit {0} };

    fn spell(&self, thing: &KeyRec, line: &mut ArrayVec<u8, LINE_ROOM>) {
        push_word(b"key ", line);
        push_hex(aid_of_domain(&self.entries, thing.owner), line);
        push_word(b" ", line);
        push_hex(&[thing.version], line);
        push_word(b" ", line);
        push_hex(&[thing.identifier], line);
        push_word(b" ", line);
        push_decimal(thing.bytes.len(), line);
        push_word(b"\n", line);
    }
}

/// Writes the lines of the keys.
pub fn show_keys<K: Sink>(tables: &Tables, sink: &mut K) -> Result<(), WriteFailed>
    requires in_order { IsInOrder tables.now }
    ensures written { WritesOf (λ said. flat_map key_line said.keys) K.tells tables.now (K.state sink.old).written (K.state sink.new).written result }
    ensures flushes { (K.state sink.new).flushes ≡ (K.state sink.old).flushes }
    ensures cause { HasCause (K.state sink.old).faults (K.state sink.new).faults result }
{
    write_lines(tables, &tables.keys, sink)
}
