//! A line of the verb `play`.

ghost use Rattle.std.specs.Prelude.{◌≡◌, ◌≢◌, ◌≤◌, ◌||◌, ◌++◌, ◌∷◌, [], ℕ, true, take, OnOk, OnErr};
ghost use Rattle.gp_tool.specs.Prelude.{BreaksScript, HasCause, IsScript, PlaysScript, RepresentsHost, ServeCause, ServesLine, is_difference_kind, prints_kind, standing};

use crate::card_end::CardEnd;
use crate::line::LineEnd;
use crate::step_card::step_card;
use crate::workspace::Workspace;
use arrayvec::ArrayVec;
use flash_core::Flash;
use io_edge::{Line, Sink, WriteFailed};
use script_tool::{Played, StepStop, Text};

/// What a line has printed, and a newline.
pub type PrintedLine = ArrayVec<u8, 601>;

// Keeps that a status differed from the one that a line wants.
fn note_difference(differs: &mut bool, played: Played)
    ensures { differs.new ≡ (differs.old || is_difference_kind played) }
{
    if let Played::WantDiffers = played {
        *differs = true;
    }
}

/// Whether a line has printed something.
pub fn has_printed(played: Played) -> bool
    ensures { result ≡ prints_kind played }
{
    !matches!(played, Played::Quiet)
}

/// Replaces what `line` holds by what a line has printed, and a newline.
pub fn fill_line(printed: &Text, line: &mut PrintedLine)
    ensures { line.new.items ≡ printed.now.items ++ 10 ∷ [] }
{
    line.clear();
    line.try_extend_from_slice(printed).unwrap();
    line.push(b'\n');
}

// Writes what a line has printed as one line, by one write.
fn write_printed<K: Sink>(
    printed: &Text,
    line: &mut PrintedLine,
    sink: &mut K,
) -> Result<(), WriteFailed>
    ensures ok { K.tells → OnOk result ((K.state sink.new).written ≡ (K.state sink.old).written ++ (printed.now.items ++ 10 ∷ [])) }
    ensures err { K.tells → OnErr result ((n : ℕ) × ((K.state sink.new).written ≡ (K.state sink.old).written ++ take n (printed.now.items ++ 10 ∷ []))) }
    ensures flushes { (K.state sink.new).flushes ≡ (K.state sink.old).flushes }
    ensures cause { HasCause (K.state sink.old).faults (K.state sink.new).faults result }
{
    fill_line(printed, line);
    sink.write_all(line)
}

/// Plays a line over the card, and writes what it prints.
pub fn play_line<K: Sink, F: Flash>(
    line: &[u8],
    end: &mut CardEnd<F>,
    differs: &mut bool,
    space: &mut Workspace,
    sink: &mut K,
) -> LineEnd
    requires live { end.old.card.live ≡ true }
    ensures served { ServesLine RepresentsHost (PlaysScript line.now) (λ memory. IsScript line.now) (BreaksScript line.now) F.Flash K.tells
        (standing end.old space.old.player differs.old) (standing end.new space.new.player differs.new)
        (K.state sink.old).written (K.state sink.new).written result }
    ensures live { result ≢ LineEnd.FlashFailed → end.new.card.live ≡ true }
    ensures flushes { (K.state sink.new).flushes ≡ (K.state sink.old).flushes }
    ensures later { F.faults end.old.card.flash ≤ F.faults end.new.card.flash }
    ensures cause { ServeCause (K.state sink.old).faults (K.state sink.new).faults (F.faults end.old.card.flash) (F.faults end.new.card.flash) result }
{
    let line = Line {
        number: 1,
        text: line,
    };
    match step_card(&line, end, &mut space.player, &mut space.printed) {
        Ok(played) => {
            note_difference(differs, played);
            if has_printed(played) {
                match write_printed(&space.printed, &mut space.printed_line, sink) {
                    Ok(()) => LineEnd::Done,
                    Err(_) => LineEnd::WriteFault,
                }
            } else {
                LineEnd::Done
            }
        }
        Err(StepStop::Form(_)) => LineEnd::NoForm,
        Err(StepStop::LinkFailed) => LineEnd::FlashFailed,
    }
}
