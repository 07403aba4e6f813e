//! A line, and why there is none.

/// How many bytes of an input are taken, at most: 64 MiB.
pub const INPUT_LIMIT: usize = 67_108_864;

/// How many bytes are taken and not given yet, at most.
pub const HELD_LIMIT: usize = 16_384;

/// How many bytes a line has without its end, at most: the digits of a command of 261 bytes.
pub const LINE_LIMIT: usize = 522;

/// A line of an input.
#[derive(Clone, Copy, Debug, PartialEq, Eq)]
pub struct Line<'a> {
    /// Counted from 1.
    pub number: u32,
    /// At most `LINE_LIMIT` bytes, without the newline 0A and one 0D before it.
    pub text: &'a [u8],
}

/// Why no line is given.
#[derive(Clone, Copy, Debug, PartialEq, Eq)]
pub enum LineStop {
    /// The input is at its end, before `INPUT_LIMIT` bytes, and has no further line.
    End,
    /// The source refused a read, and the bytes taken before hold no further whole line.
    ReadFailed,
    /// The line with this number has more than `LINE_LIMIT` bytes. A line that `INPUT_LIMIT` cuts off is
    /// judged by its bytes that were taken.
    TooLong(u32),
    /// `INPUT_LIMIT` bytes were taken, and they hold no further whole line.
    InputTooLong,
}
