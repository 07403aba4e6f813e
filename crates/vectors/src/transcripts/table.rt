//! The lines of a text, each of them bytes in digits.

use crate::digits::bytes;
use crate::told::Told;
use arrayvec::ArrayVec;
use io_edge::{Lines, SliceSource};

/// What a line has, at most.
pub type Bytes = ArrayVec<u8, 64>;

/// The lines that are left.
#[derive(Drop)]
pub struct Table<'a> {
    source: SliceSource<'a>,
    lines: Lines,
}

impl<'a> Table<'a> {
    pub(super) fn new(text: &'a [u8]) -> Table<'a> {
        Table {
            source: SliceSource::new(text),
            lines: Lines::new(),
        }
    }

    pub(super) fn next(&mut self) -> Told<Bytes> {
        match self.lines.next_line(&mut self.source) {
            Ok(line) => Ok(bytes(line.text)),
            Err(_) => Err("a line of the table"),
        }
    }
}
