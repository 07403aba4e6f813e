//! Lines of a source, one at a time.

ghost use Rattle.std.specs.Prelude.{◌≡◌, ◌<◌, ◌≤◌, ◌+◌, ◌-◌, ◌∷◌, ◌++◌, [], length, None, Some, Err, IfOk, IfErr, IfSome, OnOk, OnErr};
ghost use Rattle.std.specs.Borrow.{sem};
ghost use Rattle.std.specs.Io.BufRead.{Rests};
ghost use Rattle.std.specs.Str.Lines.{lines, strip_carriage_return};
ghost use Rattle.io_edge.specs.Lines.{Reading, NoNewline, IsNextLine, IsNumbered, StopsLines, LineCause, GivesNext, ahead, room};
ghost use Rattle.io_edge.specs.declared.line.TheConstants.{HELD_LIMIT, INPUT_LIMIT, LINE_LIMIT};

use crate::ahead::{Ahead, look_ahead};
use crate::buffer::Buffer;
use crate::cut::{cut_last, cut_whole, stop_at_limit};
use crate::line::{INPUT_LIMIT, LINE_LIMIT, Line, LineStop};
use crate::source::Source;
use std::marker::Model;

/// The lines of one input. It holds the bytes that were taken and not given yet.
#[derive(Drop)]
pub struct Lines {
    buffer: Buffer,
    number: u32,
    passed: usize,
    stop: Option<LineStop>,
}

impl Model for Lines {
    ghost Value = { Reading };

    ghost view = { λ l. record { number = l.number; passed = l.passed; held = l.buffer.held; stop = l.stop } };

    ghost invariant = { λ l. (l.passed + length l.buffer.held ≤ INPUT_LIMIT) × (l.number ≤ l.passed) × (length l.buffer.held ≤ HELD_LIMIT) };
}

// Cuts off the next line, and answers how many bytes it took with its end.
fn advance<S: Source>(
    buffer: &mut Buffer,
    source: &mut S,
    room: usize,
    number: u32,
) -> Result<usize, LineStop>
    requires within { length buffer.old.held ≤ room }
    ensures line { S.tells → OnOk result (IsNextLine room (buffer.old.held ++ (S.state source.old).left) buffer.new.text (buffer.new.held ++ (S.state source.new).left)) }
    ensures lines { S.tells → OnOk result (lines (buffer.old.held ++ (S.state source.old).left) ≡ buffer.new.text ∷ lines (buffer.new.held ++ (S.state source.new).left)) }
    ensures text { OnOk result (length buffer.new.text ≤ LINE_LIMIT) }
    ensures within { length buffer.new.held ≤ room }
    ensures few { length buffer.new.held ≤ HELD_LIMIT }
    ensures few_with { IfOk result (λ n. n + length buffer.new.held ≤ HELD_LIMIT) }
    ensures count { IfOk result (λ n. (0 < n) × (n + length buffer.new.held ≤ room)
        × (S.tells → n + length (buffer.new.held ++ (S.state source.new).left) ≡ length (buffer.old.held ++ (S.state source.old).left))) }
    ensures spent { IfOk result (λ n. length buffer.new.text ≤ n) }
    ensures stop { S.tells → IfErr result (StopsLines room number (buffer.old.held ++ (S.state source.old).left)) }
    ensures numbered { IfErr result (IsNumbered number) }
    ensures clear { IfErr result (λ stop. stop ≡ LineStop.ReadFailed → NoNewline buffer.new.held) }
    ensures short { IfErr result (λ stop. stop ≡ LineStop.ReadFailed → length (strip_carriage_return buffer.new.held) ≤ LINE_LIMIT) }
    ensures cause { LineCause (S.state source.old).faults (S.state source.new).faults result }
    ensures kept { S.tells → OnErr result (buffer.new.held ++ (S.state source.new).left ≡ buffer.old.held ++ (S.state source.old).left) }
{
    match look_ahead(buffer, source, room) {
        Ok(Ahead::Newline(at)) => cut_whole(buffer, at, room, number),
        Ok(Ahead::Long) => Err(LineStop::TooLong(number)),
        Ok(Ahead::Last) => cut_last(buffer, room, number),
        Ok(Ahead::Limit) => Err(stop_at_limit(buffer.held(), room, number)),
        Err(_) => Err(LineStop::ReadFailed),
    }
}

impl Lines {
    ghost use Rattle.io_edge.specs.contracts.lines.Lines.{the_row};

    /// The lines of an input of which nothing was taken yet.
    pub fn new() -> Lines
        ensures { result ≡ record { number = 0; passed = 0; held = []; stop = None } }
    {
        Lines {
            buffer: Buffer::new(),
            number: 0,
            passed: 0,
            stop: None,
        }
    }

    /// The next line of the source, or why there is none. A last line without a newline counts where it is
    /// not empty, and keeps a 0D at its end. Each call is given the same source.
    pub fn next_line<S: Source>(&mut self, source: &mut S) -> Result<Line<'_>, LineStop>
        ensures number { IfOk result (λ line. line.number ≡ self.old.number + 1) }
        ensures text { IfOk result (λ line. length line.text.now ≤ LINE_LIMIT) }
        ensures* after_borrow { sem 𝓛 (Rests the_row self.entry (λ new.
            GivesNext S.tells self.old new (S.state source.old).left (S.state source.new).left result)) }

        // Why there is none, where it is said for the first time.
        ensures stop { S.tells → self.old.stop ≡ None → IfErr result (StopsLines (room self.old) (self.old.number + 1) (ahead self.old (S.state source.old).left)) }
        ensures numbered { self.old.stop ≡ None → IfErr result (IsNumbered (self.old.number + 1)) }
        ensures cause { self.old.stop ≡ None → LineCause (S.state source.old).faults (S.state source.new).faults result }

        // A stop is given again, with no call on the source.
        ensures again { IfSome self.old.stop (λ stop. (result ≡ Err stop) × (source.new ≡ source.old)) }
    {
        if let Some(stop) = self.stop {
            return Err(stop);
        }
        let room = INPUT_LIMIT - self.passed;
        match advance(&mut self.buffer, source, room, self.number + 1) {
            Ok(taken) => {
                self.passed += taken;
                self.number += 1;
                Ok(Line {
                    number: self.number,
                    text: self.buffer.text(),
                })
            }
            Err(stop) => {
                self.stop = Some(stop);
                Err(stop)
            }
        }
    }
}
