//! The edges of a program that reads lines and writes replies.
//!
//! A `Source` gives bytes and a `Sink` takes them. Each counts its faults, and a call fails only where
//! that count rose in it or stands at the last value of 64 bits. `Lines` cuts what a source gives into
//! lines, in whatever pieces it comes: of `reset`, 0D 0A, `00A404` it gives line 1 `reset` and line 2
//! `00A404`, and then `LineStop::End`.
//!
//! A line of more than `LINE_LIMIT` bytes is refused, and so is what stands after the first
//! `INPUT_LIMIT` bytes of an input. A stop, once given, is given again.
#![tactic(auto)]

mod ahead;
mod buffer;
mod calls;
mod cut;
mod line;
mod lines;
mod literals;
mod memory_sink;
mod memory_source;
mod sink;
mod source;
mod standard;
mod words;

pub use line::{HELD_LIMIT, INPUT_LIMIT, LINE_LIMIT, Line, LineStop};
pub use lines::Lines;
pub use literals::constants;
pub use memory_sink::MemSink;
pub use memory_source::{MemSource, SliceSource};
pub use sink::{Sink, WriteFailed};
pub use source::{ReadFailed, Source};
pub use standard::{StdSink, StdSource};
pub use words::{NoWords, process_words};
