//! Words, hexadecimal digits and decimal digits, appended to a line in a buffer.
#![tactic(auto)]

mod push;

pub use push::{push_decimal, push_hex, push_word};
