//! The cards of cases: a registry in words, laid out in the pages of a device, or put into the tables of records.
//!
//! The words are those of `gp show`, with the content of keys and files; docs/TESTS.md has the language. The program `cases` reads
//! its lines, and plays what a card answers.
//!
//! - `things` and `words`: what the words of a thing say.
//! - `image` and `layout`: pages, and where the slots of things stand in them.
//! - `made` and `changes`: things as the tables have them, each in a slot.
#![tactic(auto)]

mod case_error;
mod changes;
mod image;
mod layout;
mod made;
mod things;
mod words;

pub use case_error::CaseError;
pub use changes::change;
pub use image::Image;
pub use layout::Layout;
pub use words::number;
