//! How the taking of lines ends.

/// How the lines of an input were taken.
#[derive(Clone, Copy, Debug, PartialEq, Eq)]
pub enum LinesEnd {
    /// To the end of the input.
    Finished,
    /// To a line that is malformed or too long: its number was written.
    BadLine,
    /// What takes the lines has failed in one, whose text was written.
    Failed,
    /// The source refused a read.
    ReadFault,
    /// The sink refused a write.
    WriteFault,
    /// The input has too many bytes.
    InputTooLong,
}
