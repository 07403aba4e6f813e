//! The keys of a card's security domains, changed as a list, whatever keeps them.
//!
//! Terms. A *key set* has the three keys of a key version number from 01 to 6F: Key-ENC, Key-MAC and Key-DEK. A token key
//! (70) and a receipt key (71) stand alone. The keys of a domain have the slot of its entry as their `owner`.
//!
//! What holds of every keeper of key slots, whether their keys are a card's or not, each with the clause that proves it:
//!
//!  1. Keys that are put are there afterwards, with the keys that were not replaced and no others (`put_set` and `put_one`,
//!     `put`). A deletion leaves the keys of other key version numbers and other domains (`delete`, `deletes`).
//!  2. Keys are refused exactly where one of three refusals holds, and the first that does is answered (`exactly`).
//!     `place_set` and `place_one` refuse nothing: they leave the three tests to their caller (`judged`).
//!  3. A sequence counter that is drawn rises by one, and the last one is never drawn (`draw_counter`, `draws` and `spent`;
//!     `raise_counter`, `counts` and `raises`).
//!  4. What is refused changes no slot (`unchanged`), and nothing but the key slots ever changes (`same_else`).
#![tactic(auto)]

mod changes;
mod counter;
mod deletion;
mod put;

pub use counter::{Spent, draw_counter, raise_counter};
pub use deletion::delete;
pub use key_rules::{PutRefusal, judge_put};
pub use put::{place_one, place_set, put_one, put_set};
