//! The verb `format`.

ghost use Rattle.std.specs.Prelude.{◌≤◌};
ghost use Rattle.gp_tool.specs.Prelude.{EndsFormat, around};

use crate::ended::Ended;
use crate::run::flush_at_end;
use card_core::format;
use flash_core::Flash;
use io_edge::Sink;
use line_runs::Ending;

/// Makes the device the card as it leaves the factory, and writes nothing.
pub fn format_verb<K: Sink, F: Flash>(sink: &mut K, mut flash: F) -> Ended<F>
    ensures format { EndsFormat K.Sink F.Flash result.status result.done (around tt sink.old flash) (around tt sink.new result.flash) }
    ensures later { F.faults flash ≤ F.faults result.flash }
{
    let ending = match format(&mut flash) {
        Ok(()) => Ending::Finished,
        Err(_) => Ending::Failed,
    };
    Ended {
        status: flush_at_end(ending, sink).status(),
        done: 0,
        flash,
    }
}
