//! Runs over the lines of a source that no card takes part in.
//!
//! A `LineTaker` takes lines one after the other. Each line has a form for it or has none, and writes a line of text or nothing.
//! `take_lines` gives it the lines of a source up to the first stop, writes what they write, and says what the stop was: the end of
//! the input, a malformed line, an input that is too long, or a source, a sink or a taker that failed. `Ending` is how a program ends
//! over lines, and its status.
#![tactic(auto)]

mod bad_line;
mod ending;
mod exit;
mod run;
mod taker;

pub use bad_line::write_bad_line;
pub use ending::LinesEnd;
pub use exit::Ending;
pub use run::take_lines;
pub use taker::{LineTaker, TEXT_LIMIT, Taking, Text};
