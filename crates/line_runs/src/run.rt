//! Lines that are taken one after the other.

ghost use Rattle.std.specs.Prelude.{◌≡◌, ◌≢◌, ◌++◌, ℕ, take, None, IfNone, IfSome, OnOk, OnErr};
ghost use Rattle.faults.specs.Faults.{HasCause, Rose};
ghost use Rattle.line_runs.specs.Ends.{IsTakableInput, LinesEndCause, LinesEnds, fault_counts};
ghost use Rattle.line_runs.specs.Outside.{outside};
ghost use Rattle.line_runs.specs.Turn.{LinesEndWith, LinesGoOn, WritesAtFault, WritesBadLine};
ghost use Rattle.line_runs.specs.declared.ending.LinesEnd.TheVariants.{BadLine, InputTooLong};

use crate::bad_line::write_bad_line;
use crate::ending::LinesEnd;
use crate::taker::{LineTaker, Taking, Text};
use io_edge::{LineStop, Lines, Sink, Source, WriteFailed};

// Writes the number of a line that is malformed or too long.
fn refuse_line<K: Sink>(number: u32, sink: &mut K) -> LinesEnd
    ensures refused { WritesBadLine K.tells number (K.state sink.old).written (K.state sink.new).written result }
    ensures flushes { (K.state sink.new).flushes ≡ (K.state sink.old).flushes }
    ensures cause { (reads taker : ℕ) → LinesEndCause result (fault_counts reads (K.state sink.old).faults taker) (fault_counts reads (K.state sink.new).faults taker) }
{
    match write_bad_line(number, sink) {
        Ok(()) => LinesEnd::BadLine,
        Err(_) => LinesEnd::WriteFault,
    }
}

// Writes what a line writes, by one write, where it writes something.
fn write_text<K: Sink>(text: &Text, sink: &mut K) -> Result<(), WriteFailed>
    ensures ok { K.tells → OnOk result ((K.state sink.new).written ≡ (K.state sink.old).written ++ text.now.items) }
    ensures err { K.tells → OnErr result ((n : ℕ) × ((K.state sink.new).written ≡ (K.state sink.old).written ++ take n text.now.items)) }
    ensures flushes { (K.state sink.new).flushes ≡ (K.state sink.old).flushes }
    ensures cause { HasCause (K.state sink.old).faults (K.state sink.new).faults result }
    ensures quiet { OnOk result ((K.state sink.new).faults ≡ (K.state sink.old).faults) }
{
    if text.is_empty() {
        Ok(())
    } else {
        sink.write_all(text)
    }
}

// Writes what a line writes in which the taker failed.
fn write_last<K: Sink>(text: &Text, sink: &mut K) -> LinesEnd
    ensures written { WritesAtFault K.tells text.now.items (K.state sink.old).written (K.state sink.new).written result }
    ensures flushes { (K.state sink.new).flushes ≡ (K.state sink.old).flushes }
    ensures cause { (reads taker taker' : ℕ) → Rose taker taker'
        → LinesEndCause result (fault_counts reads (K.state sink.old).faults taker) (fault_counts reads (K.state sink.new).faults taker') }
{
    match write_text(text, sink) {
        Ok(()) => LinesEnd::Failed,
        Err(_) => LinesEnd::WriteFault,
    }
}

// Takes the next line. It answers how the taking ends, if it does.
fn take_turn<T: LineTaker, S: Source, K: Sink>(
    taker: &mut T,
    lines: &mut Lines,
    source: &mut S,
    text: &mut Text,
    sink: &mut K,
) -> Option<LinesEnd>
    requires stop { lines.old.stop ≡ None }
    ensures goes_on { IfNone result (LinesGoOn T.does S.tells K.tells taker.old taker.new lines.old lines.new
        (outside (S.state source.old) (K.state sink.old)) (outside (S.state source.new) (K.state sink.new))) }
    ensures ends { IfSome result (LinesEndWith T.does S.tells K.tells taker.old taker.new lines.old
        (outside (S.state source.old) (K.state sink.old)) (outside (S.state source.new) (K.state sink.new))) }
    ensures flushes { (K.state sink.new).flushes ≡ (K.state sink.old).flushes }
    ensures quiet { IfNone result (fault_counts (S.state source.new).faults (K.state sink.new).faults (T.does.faults taker.new)
        ≡ fault_counts (S.state source.old).faults (K.state sink.old).faults (T.does.faults taker.old)) }
    ensures cause { IfSome result (λ end. LinesEndCause end (fault_counts (S.state source.old).faults (K.state sink.old).faults (T.does.faults taker.old))
        (fault_counts (S.state source.new).faults (K.state sink.new).faults (T.does.faults taker.new))) }
{
    match lines.next_line(source) {
        Ok(line) => match taker.take_line(line.text, text) {
            Taking::Taken => match write_text(text, sink) {
                Ok(()) => None,
                Err(_) => Some(LinesEnd::WriteFault),
            },
            Taking::NoForm => Some(refuse_line(line.number, sink)),
            Taking::Failed => Some(write_last(text, sink)),
        },
        Err(LineStop::End) => Some(LinesEnd::Finished),
        Err(LineStop::ReadFailed) => Some(LinesEnd::ReadFault),
        Err(LineStop::TooLong(number)) => Some(refuse_line(number, sink)),
        Err(LineStop::InputTooLong) => Some(LinesEnd::InputTooLong),
    }
}

/// Takes the lines of a source one after the other, and writes what each of them writes, by one write, before the next one is read.
/// Nothing is flushed. Where the taker fails in a line, what that one writes is the last text.
pub fn take_lines<T: LineTaker, S: Source, K: Sink>(
    taker: &mut T,
    source: &mut S,
    sink: &mut K,
) -> LinesEnd
    ensures ends { LinesEnds T.does S.tells K.tells taker.old taker.new result
        (outside (S.state source.old) (K.state sink.old)) (outside (S.state source.new) (K.state sink.new)) }

    // Where each line has a form and the input is short enough, only a fault keeps it from its end.
    ensures complete { S.tells → IsTakableInput T.does taker.old (S.state source.old).left → (result ≢ BadLine) × (result ≢ InputTooLong) }
    ensures flushes { (K.state sink.new).flushes ≡ (K.state sink.old).flushes }
    ensures cause { LinesEndCause result (fault_counts (S.state source.old).faults (K.state sink.old).faults (T.does.faults taker.old))
        (fault_counts (S.state source.new).faults (K.state sink.new).faults (T.does.faults taker.new)) }
{
    let mut lines = Lines::new();
    let mut text = Text::new();
    loop {
        if let Some(end) = take_turn(taker, &mut lines, source, &mut text, sink) {
            return end;
        }
    }
}
