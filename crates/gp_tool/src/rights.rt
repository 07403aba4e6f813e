//! The rights of a card as text.

ghost use Rattle.std.specs.Prelude.{◌≡◌, ℕ, List, MatchResult};
ghost use Rattle.gp_tool.specs.Prelude.{HasCause, IsInOrder, Registry, Represents, WritesFront, WritesWhole};
ghost use Rattle.gp_tool.specs.declared.view.View.TheVariants.{Rights};

use access_matrix::Walk;
use arrayvec::ArrayVec;
use card_types::Tables;
use io_edge::{Sink, WriteFailed};

/// Writes the lines of the rights of a card, each as it is found. No call on the device is made.
pub fn write_rights<K: Sink>(tables: &Tables, sink: &mut K) -> Result<(), WriteFailed>
    requires in_order { IsInOrder tables.now }
    ensures written { (page : ℕ → List ℕ) (said : Registry) → Represents page tables.now said
        → MatchResult result (λ _. WritesWhole Rights K.tells said (K.state sink.old) (K.state sink.new)) (λ _. WritesFront Rights K.tells said (K.state sink.old) (K.state sink.new)) }
    ensures flushes { (K.state sink.new).flushes ≡ (K.state sink.old).flushes }
    ensures cause { HasCause (K.state sink.old).faults (K.state sink.new).faults result }
{
    let mut walk = Walk::new();
    let mut line = ArrayVec::new();
    while walk.next_line(tables, &mut line) {
        sink.write_all(&line)?;
    }
    Ok(())
}
