//! A run over the lines of a source.

ghost use Rattle.std.specs.Prelude.{◌≡◌, ◌≢◌, ◌≤◌, ℕ, None, true, IfNone, IfSome};
ghost use Rattle.gp_tool.specs.Prelude.{AfterFlush, Around, CardRepresents, EndCause, EndsWith, Flushes, GoesOn, Refuses, RunCause, RunEnds, State, around, outside, standing_in};
ghost use Rattle.line_runs.specs.declared.exit.Ending.TheVariants.{Failed};

use crate::card_end::CardEnd;
use crate::line::{LineEnd, serve_line};
use crate::verb::Verb;
use crate::workspace::Workspace;
use flash_core::Flash;
use io_edge::{LineStop, Lines, Sink, Source};
use line_runs::{Ending, write_bad_line};

// Writes the number of a line that is malformed or too long.
fn refuse_line<K: Sink>(number: u32, sink: &mut K) -> Ending
    ensures refused { Refuses K.tells number (K.state sink.old).written (K.state sink.new).written result }
    ensures flushes { (K.state sink.new).flushes ≡ (K.state sink.old).flushes }
    ensures cause { (reads device device' : ℕ) → EndCause result
        (around reads (K.state sink.old).faults device) (around reads (K.state sink.new).faults device') }
{
    match write_bad_line(number, sink) {
        Ok(()) => Ending::BadLine,
        Err(_) => Ending::WriteFault,
    }
}

// Takes the next line and gives it to the card. It answers how the run ends, if it does.
fn take_turn<S: Source, K: Sink, F: Flash>(
    verb: Verb,
    lines: &mut Lines,
    source: &mut S,
    end: &mut CardEnd<F>,
    differs: &mut bool,
    space: &mut Workspace,
    sink: &mut K,
) -> Option<Ending>
    requires stop { lines.old.stop ≡ None }
    requires live { end.old.card.live ≡ true }
    ensures goes_on { IfNone result (GoesOn verb F.Flash S.tells K.tells
        (standing_in verb end.old space.old differs.old) (standing_in verb end.new space.new differs.new) lines.old lines.new
        (outside (S.state source.old) (K.state sink.old)) (outside (S.state source.new) (K.state sink.new))) }
    ensures ends { IfSome result (EndsWith verb F.Flash S.tells K.tells
        (standing_in verb end.old space.old differs.old) (standing_in verb end.new space.new differs.new) lines.old
        (outside (S.state source.old) (K.state sink.old)) (outside (S.state source.new) (K.state sink.new))) }
    ensures live { IfNone result (end.new.card.live ≡ true) }
    ensures ends_live { IfSome result (λ ending. ending ≢ Failed → end.new.card.live ≡ true) }
    ensures flushes { (K.state sink.new).flushes ≡ (K.state sink.old).flushes }
    ensures quiet { IfNone result (((S.state source.new).faults ≡ (S.state source.old).faults) × ((K.state sink.new).faults ≡ (K.state sink.old).faults)) }
    ensures later { F.faults end.old.card.flash ≤ F.faults end.new.card.flash }
    ensures cause { IfSome result (λ ending. RunCause S.Source K.Sink F.Flash ending
        (around source.old sink.old end.old.card.flash) (around source.new sink.new end.new.card.flash)) }
{
    match lines.next_line(source) {
        Ok(line) => match serve_line(verb, line.number, line.text, end, differs, space, sink) {
            LineEnd::Done => None,
            LineEnd::NoForm => Some(refuse_line(line.number, sink)),
            LineEnd::WriteFault => Some(Ending::WriteFault),
            LineEnd::FlashFailed => Some(Ending::Failed),
        },
        Err(LineStop::End) => Some(Ending::at_end(*differs)),
        Err(LineStop::ReadFailed) => Some(Ending::ReadFault),
        Err(LineStop::TooLong(number)) => Some(refuse_line(number, sink)),
        Err(LineStop::InputTooLong) => Some(Ending::InputTooLong),
    }
}

// Takes lines until the run ends.
fn take_lines<S: Source, K: Sink, F: Flash>(
    verb: Verb,
    end: &mut CardEnd<F>,
    source: &mut S,
    sink: &mut K,
) -> Ending
    requires live { end.old.card.live ≡ true }
    requires none { end.old.done ≡ 0 }
    ensures flushes { (K.state sink.new).flushes ≡ (K.state sink.old).flushes }
    ensures ends { (first : State) → CardRepresents F.Flash end.old.card first
        → RunEnds verb S.Source K.Sink F.Flash (CardRepresents F.Flash end.new.card) first result end.new.done
        (around source.old sink.old end.old.card.flash) (around source.new sink.new end.new.card.flash) }
    ensures live { result ≢ Failed → end.new.card.live ≡ true }
    ensures later { F.faults end.old.card.flash ≤ F.faults end.new.card.flash }
    ensures cause { RunCause S.Source K.Sink F.Flash result (around source.old sink.old end.old.card.flash) (around source.new sink.new end.new.card.flash) }
{
    let mut lines = Lines::new();
    let mut differs = false;
    let mut space = Workspace::new();
    loop {
        if let Some(ending) = take_turn(
            verb,
            &mut lines,
            source,
            end,
            &mut differs,
            &mut space,
            sink,
        ) {
            return ending;
        }
    }
}

/// Flushes the sink at the end of a run, unless a write was refused.
pub fn flush_at_end<K: Sink>(ending: Ending, sink: &mut K) -> Ending
    ensures same { K.tells → (K.state sink.new).written ≡ (K.state sink.old).written }
    ensures ending { AfterFlush K.tells ending (K.state sink.old) (K.state sink.new) result }
    ensures cause { (old : Around ℕ ℕ ℕ) (reads device : ℕ) → EndCause ending old (around reads (K.state sink.old).faults device)
        → EndCause result old (around reads (K.state sink.new).faults device) }
{
    match ending {
        Ending::WriteFault => ending,
        Ending::ReadFault | Ending::Failed => {
            let _ = sink.flush();
            ending
        }
        _ => match sink.flush() {
            Ok(()) => ending,
            Err(_) => Ending::WriteFault,
        },
    }
}

/// Gives the lines of a source to a card, and writes what comes of each before the next line is taken. The card's count becomes
/// that of the commands that it answered.
pub fn run<S: Source, K: Sink, F: Flash>(
    verb: Verb,
    end: &mut CardEnd<F>,
    source: &mut S,
    sink: &mut K,
) -> Ending
    requires live { end.old.card.live ≡ true }
    requires none { end.old.done ≡ 0 }
    ensures flushes { Flushes K.tells result (K.state sink.old) (K.state sink.new) }
    ensures ends { (first : State) → CardRepresents F.Flash end.old.card first
        → RunEnds verb S.Source K.Sink F.Flash (CardRepresents F.Flash end.new.card) first result end.new.done
        (around source.old sink.old end.old.card.flash) (around source.new sink.new end.new.card.flash) }
    ensures live { result ≢ Failed → end.new.card.live ≡ true }
    ensures later { F.faults end.old.card.flash ≤ F.faults end.new.card.flash }
    ensures cause { RunCause S.Source K.Sink F.Flash result (around source.old sink.old end.old.card.flash) (around source.new sink.new end.new.card.flash) }
{
    let ending = take_lines(verb, end, source, sink);
    flush_at_end(ending, sink)
}
