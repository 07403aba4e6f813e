//! What takes lines.

ghost use Rattle.std.specs.Prelude.{◌≤◌, length};
ghost use Rattle.io_edge.specs.declared.line.TheConstants.{LINE_LIMIT};
ghost use Rattle.line_runs.specs.Taker.{TakerComes, Taker, TakingCause};

use arrayvec::ArrayVec;
use io_edge::LINE_LIMIT;

/// How many bytes a line writes, at most: as many as a line of a script prints, and a newline.
pub const TEXT_LIMIT: usize = 601;

/// What a line writes: a line of text with its newline, or nothing.
pub type Text = ArrayVec<u8, TEXT_LIMIT>;

/// What came of a line.
#[derive(Clone, Copy, Debug, PartialEq, Eq)]
pub enum Taking {
    /// It has a form, and was taken.
    Taken,
    /// It has no form.
    NoForm,
    /// What takes the lines has failed in it, and takes no further line.
    Failed,
}

/// What is done with the lines of an input, one after the other.
pub trait LineTaker {
    /// Which lines have a form, where they lead, and how it fails.
    ghost does: { Taker Self };

    /// Takes a line. `text` becomes what the line writes, also where the taker fails in it.
    fn take_line(&mut self, line: &[u8], text: &mut Text) -> Taking
        requires line { length line.now ≤ LINE_LIMIT }
        ensures comes { TakerComes does self.old line.now self.new text.new.items result }
        ensures cause { TakingCause result (does.faults self.old) (does.faults self.new) };
}
