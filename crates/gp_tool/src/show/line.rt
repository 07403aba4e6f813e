//! A line of the text of `show`.

/// How many bytes a line has, at most.
pub const LINE_ROOM: usize = 320;
