//! What is done with one line.

ghost use Rattle.std.specs.Prelude.{◌≡◌, ◌≢◌, ◌≤◌, true, length};
ghost use Rattle.gp_tool.specs.Prelude.{ServeCause, ServesVerb, standing_in};

use crate::answer::answer_line;
use crate::card_end::CardEnd;
use crate::play::play_line;
use crate::replay::replay_line;
use crate::verb::Verb;
use crate::workspace::Workspace;
use flash_core::Flash;
use io_edge::{LINE_LIMIT, Sink};

/// How a line has ended.
#[derive(Clone, Copy)]
pub enum LineEnd {
    /// All was done that it says, and its text was written, if it has one.
    Done,
    /// It is malformed, and nothing was written.
    NoForm,
    /// The sink refused its text.
    WriteFault,
    /// The device failed in its command, and nothing was written.
    FlashFailed,
}

/// Does what the line of this number says, as the verb has it.
pub fn serve_line<K: Sink, F: Flash>(
    verb: Verb,
    number: u32,
    line: &[u8],
    end: &mut CardEnd<F>,
    differs: &mut bool,
    space: &mut Workspace,
    sink: &mut K,
) -> LineEnd
    requires line { length line.now ≤ LINE_LIMIT }
    requires live { end.old.card.live ≡ true }
    ensures served { ServesVerb verb number line.now F.Flash K.tells
        (standing_in verb end.old space.old differs.old) (standing_in verb end.new space.new differs.new)
        (K.state sink.old).written (K.state sink.new).written result }
    ensures live { result ≢ LineEnd.FlashFailed → end.new.card.live ≡ true }
    ensures flushes { (K.state sink.new).flushes ≡ (K.state sink.old).flushes }
    ensures later { F.faults end.old.card.flash ≤ F.faults end.new.card.flash }
    ensures cause { ServeCause (K.state sink.old).faults (K.state sink.new).faults (F.faults end.old.card.flash) (F.faults end.new.card.flash) result }
{
    match verb {
        Verb::Run => answer_line(false, line, end, space, sink),
        Verb::Why => answer_line(true, line, end, space, sink),
        Verb::Replay => replay_line(number, line, end, differs, space, sink),
        Verb::Play => play_line(line, end, differs, space, sink),
    }
}
