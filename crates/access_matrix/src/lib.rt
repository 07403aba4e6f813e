//! Who may do what on a card.
//!
//! A security domain *may* do a deed where a card that was just powered on lets its host select the domain and open a session, and
//! accepts the command of the deed in it.
#![tactic(auto)]

mod acceptance;
mod act;
mod acts;
mod approval;
mod candidate;
mod command;
mod deed;
mod following;
mod free_aid;
mod kind;
mod laws;
mod line;
mod names;
mod next;
mod permission;
mod slots;
mod walk;

pub use act::Act;
pub use deed::{Deed, Right};
pub use laws::{accepts_as_judged, next_rights_are_all};
pub use line::LINE_ROOM;
pub use permission::may;
pub use walk::Walk;
