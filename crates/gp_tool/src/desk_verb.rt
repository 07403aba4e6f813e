//! The verb `desk`.

ghost use Rattle.std.specs.Prelude.{◌≡◌, ◌⊎◌};
ghost use Rattle.gp_tool.specs.Prelude.{DeskEnds, IfFaultless, IsTakableInput, desk_taker, new_audit, outside};

use crate::run::flush_at_end;
use io_edge::{Sink, Source};
use line_runs::{Ending, take_lines};
use receipt_desk::Audit;

/// Takes the lines of the source for those of a desk, and answers the status.
pub fn desk_verb<S: Source, K: Sink>(source: &mut S, sink: &mut K) -> u8
    ensures ends { DeskEnds S.tells K.tells result (outside (S.state source.old) (K.state sink.old)) (outside (S.state source.new) (K.state sink.new)) }
    ensures complete { S.tells → IsTakableInput desk_taker new_audit (S.state source.old).left
        → IfFaultless (outside (S.state source.old) (K.state sink.old)) (outside (S.state source.new) (K.state sink.new))
        ((result ≡ 0) ⊎ (result ≡ 10)) }
{
    let mut audit = Audit::new();
    let end = take_lines(&mut audit, source, sink);
    let ending = Ending::of_lines(end, audit.differs());
    flush_at_end(ending, sink).status_with(10)
}
