//! A line of the verbs `run` and `why`.

ghost use Rattle.std.specs.Prelude.{◌≡◌, ◌≢◌, ◌≤◌, Bool, true, length};
ghost use Rattle.gp_tool.specs.Prelude.{FailsCommand, IsForCard, IsHeld, Replies, ServeCause, ServesLine, standing};

use crate::card_end::CardEnd;
use crate::give::{Given, give_line};
use crate::line::LineEnd;
use crate::reply::write_reply;
use crate::workspace::Workspace;
use flash_core::Flash;
use io_edge::{LINE_LIMIT, Sink};

/// Gives a line to the card, and writes the reply, with the reason of a refusal where it is to be explained.
pub fn answer_line<K: Sink, F: Flash>(
    explains: bool,
    line: &[u8],
    end: &mut CardEnd<F>,
    space: &mut Workspace,
    sink: &mut K,
) -> LineEnd
    requires line { length line.now ≤ LINE_LIMIT }
    requires live { end.old.card.live ≡ true }
    ensures served { (differs : Bool) → ServesLine IsHeld (Replies explains line.now) (λ memory. IsForCard line.now) (FailsCommand line.now) F.Flash K.tells
        (standing end.old tt differs) (standing end.new tt differs) (K.state sink.old).written (K.state sink.new).written result }
    ensures live { result ≢ LineEnd.FlashFailed → end.new.card.live ≡ true }
    ensures flushes { (K.state sink.new).flushes ≡ (K.state sink.old).flushes }
    ensures later { F.faults end.old.card.flash ≤ F.faults end.new.card.flash }
    ensures cause { ServeCause (K.state sink.old).faults (K.state sink.new).faults (F.faults end.old.card.flash) (F.faults end.new.card.flash) result }
{
    match give_line(line, &mut end.card, &mut end.done, space) {
        Given::NoForm => LineEnd::NoForm,
        Given::Nothing => LineEnd::Done,
        Given::Reset => LineEnd::Done,
        Given::FlashFailed => LineEnd::FlashFailed,
        Given::Answered(rule) => {
            match write_reply(explains, &space.reply, rule, &mut space.text, sink) {
                Ok(()) => LineEnd::Done,
                Err(_) => LineEnd::WriteFault,
            }
        }
    }
}
