//! The lines of data objects.

ghost use Rattle.std.specs.Prelude.{◌≡◌, true};
ghost use Rattle.std.specs.List.{flat_map};
ghost use Rattle.gp_tool.specs.Prelude.{HasCause, IsInOrder, WritesOf, object_line, object_of, object_order, object_order_total};
ghost use Rattle.card_types.specs.Registry.{Object as NamedObject};

use crate::show::line::LINE_ROOM;
use crate::show::listing::{Listing, TextListing, write_lines};
use crate::show::owner::{aid_of_domain, owners_cmp};
use arrayvec::ArrayVec;
use card_types::{Object, Tables};
use io_edge::{Sink, WriteFailed};
use line_text::{push_hex, push_word};

// The data objects, by their owners' AIDs and their tags.
impl Listing<Object> for Tables {
    ghost Named = { NamedObject };

    ghost named = { λ tables object. object_of tables.entries.items object };

    ghost listed = { λ _ _. true };

    ghost order = { object_order };

    fn is_listed(&self, _thing: &Object) -> bool {
        true
    }

    fn is_below(&self, a: &Object, b: &Object) -> bool {
        owners_cmp(&self.entries, a.owner, b.owner)
            .then(a.tag.cmp(&b.tag))
            .is_lt()
    }

    ghost total = { object_order_total };
}

impl TextListing<Object> for Tables {
    ghost text = { λ tables object. object_line (object_of tables.entries.items object) };

    ghost can_spell = { λ _ _. Unit {0} };

    fn spell(&self, thing: &Object, line: &mut ArrayVec<u8, LINE_ROOM>) {
        push_word(b"object ", line);
        push_hex(aid_of_domain(&self.entries, thing.owner), line);
        push_word(b" ", line);
        push_hex(&thing.tag.to_be_bytes(), line);
        push_word(b" ", line);
        push_hex(&thing.value, line);
        push_word(b"\n", line);
    }
}

/// Writes the lines of the data objects.
pub fn show_objects<K: Sink>(tables: &Tables, sink: &mut K) -> Result<(), WriteFailed>
    requires in_order { IsInOrder tables.now }
    ensures written { WritesOf (λ said. flat_map object_line said.objects) K.tells tables.now (K.state sink.old).written (K.state sink.new).written result }
    ensures flushes { (K.state sink.new).flushes ≡ (K.state sink.old).flushes }
    ensures cause { HasCause (K.state sink.old).faults (K.state sink.new).faults result }
{
    write_lines(tables, &tables.objects, sink)
}
