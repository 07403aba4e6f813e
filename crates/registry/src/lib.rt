//! The entries and Executable Load Files of a card's records, changed by name (GlobalPlatform Card Specification 2.3.1, 6.5).
//!
//! Terms. An *entry* is an application or a security domain, and a *thing* is an entry or an Executable Load File. What tables
//! *say* is a registry, which has each thing by its AID. The changes of a registry are those of `RegistryChange` in `card_types`.
//!
//! What holds of every card's records, each with the clause that proves it:
//!
//!  1. Where the tables say a registry, they say afterwards the one that the call changed, in every other respect the same
//!     (`said` on each call). What became of the slots is told beside it (`slots`).
//!  2. A thing is added exactly where none has its AID and there is a free slot (`taken` and `full` on `add_entry` and
//!     `add_file`). Where it is refused, nothing has changed (`unchanged`). `place_entry` and `place_file` require both (`fresh`
//!     and `free`), and refuse nothing.
//!  3. No call makes a call on the device, and none commits (`same`).
//!  4. There is room for what one command changes, and each call keeps it (`room`; `room_for_command` and `room_for_parts`).
//!     A call that changes one slot stages the page with that slot, and no other; `lock_tree`, `remove_entry` and
//!     `remove_applications` stage only pages with a slot that changed (`staged`).
#![tactic(auto)]

mod applications;
mod entries;
mod files;
mod keys;
mod laws;
mod locking;
mod moving;
mod objects;
mod owned;
mod place;
mod refusal;
mod removal;

pub use applications::remove_applications;
pub use entries::{add_entry, place_entry, set_life, set_receipts};
pub use files::{add_file, place_file, remove_file};
pub use laws::{room_for_command, room_for_parts};
pub use locking::lock_tree;
pub use moving::move_to;
pub use refusal::AddRefusal;
pub use removal::remove_entry;
