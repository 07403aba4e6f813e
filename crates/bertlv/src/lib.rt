//! BER-TLV elements (ISO/IEC 7816-4:2013, chapter 6): a tag of one or two bytes, a length below 65,536 in
//! its shortest form, and a value.
//!
//! Each element has one spelling, and bytes begin with at most one element. `read` takes the element
//! from the front of bytes, `write` appends one to a buffer, and nothing allocates. Tags of three
//! bytes and length fields of four and five are refused.
#![tactic(auto)]

mod element;
mod length;
mod reader;
mod tag;
mod writer;

pub use element::{NoRoom, Tlv, TlvError};
pub use reader::read;
pub use tag::is_tag;
pub use writer::{append, write};
