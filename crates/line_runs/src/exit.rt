//! How a program over lines ends, and its status.

ghost use Rattle.std.specs.Prelude.{◌≡◌};
ghost use Rattle.line_runs.specs.Exit.{ending_of, ending_of_lines, exit_status, status_with};

use crate::ending::LinesEnd;

/// How a program over the lines of a source ends.
#[derive(Clone, Copy, Debug, PartialEq, Eq)]
pub enum Ending {
    /// The input was read to its end, and all was written: 0.
    Finished,
    /// It was, and something was not as wanted: 8, or a status of the verb's own.
    Differs,
    /// A line is malformed or too long, and its number was written: 2.
    BadLine,
    /// What takes the lines failed, as the device of a card did, or a card that did not answer: 3.
    Failed,
    /// The source refused a read: 5.
    ReadFault,
    /// The sink refused a write or a flush: 6.
    WriteFault,
    /// The input has too many bytes: 9.
    InputTooLong,
}

impl Ending {
    /// At the end of the input, by whether something differed.
    pub fn at_end(differs: bool) -> Ending
        ensures { result ≡ ending_of differs }
    {
        if differs {
            Ending::Differs
        } else {
            Ending::Finished
        }
    }

    /// By how the lines were taken, and whether something differed.
    pub fn of_lines(end: LinesEnd, differs: bool) -> Ending
        ensures { result ≡ ending_of_lines end differs }
    {
        match end {
            LinesEnd::Finished => Ending::at_end(differs),
            LinesEnd::BadLine => Ending::BadLine,
            LinesEnd::Failed => Ending::Failed,
            LinesEnd::ReadFault => Ending::ReadFault,
            LinesEnd::WriteFault => Ending::WriteFault,
            LinesEnd::InputTooLong => Ending::InputTooLong,
        }
    }

    /// The status of a program that ends so, where `differs` says that something differed.
    pub fn status_with(self, differs: u8) -> u8
        ensures { result ≡ status_with differs self }
    {
        match self {
            Ending::Finished => 0,
            Ending::Differs => differs,
            Ending::BadLine => 2,
            Ending::Failed => 3,
            Ending::ReadFault => 5,
            Ending::WriteFault => 6,
            Ending::InputTooLong => 9,
        }
    }

    /// The status of a program that ends so, where 8 does.
    pub fn status(self) -> u8
        ensures { result ≡ exit_status self }
    {
        self.status_with(8)
    }
}
