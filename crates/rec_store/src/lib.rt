//! The tables of a card on a flash device that may lose power at any moment.
//!
//! Terms. *Store pages* and *load pages* are those of `page_journal`. Each thing of the tables has a *slot* in the store pages,
//! and the *superblock* has the number of the layout and the life cycle state of the card. There are two *layouts*: in 02 each
//! key has 16 bytes, in 03 keys have 16, 24 or 32. A card in layout 02 is *raised* to 03 when it is mounted, and a card is *at
//! rest* where it is in layout 03 and no commit of it was cut off. The bytes of Executable Load Files stand in load pages, which
//! their slots name. The pages of a device *reopen as* a registry where its store pages, an open journal applied, hold
//! tables that are a card's, and these say the registry. There is at most one (`one_registry`). Power lost *keeps* a registry
//! where all that it may leave reopens as it.
//!
//! What holds, each with the clause that proves it:
//!
//!  1. The tables in memory are what the store pages hold, changes included, but after a commit that failed (the invariant of
//!     `Records`).
//!  2. A device is mounted exactly where its pages reopen as a registry, which the tables then say (`mount`, `says` and
//!     `err`). On pages that do not, nothing is written, nor on those of a card at rest (`mount`, `idle` and `err_idle`).
//!  3. While a device is mounted, power lost leaves no registry that it could not leave before (`mount`, `moments` and
//!     `err_moments`), and once it is mounted, the one that the pages reopened as (`mount`, `says`), in layout 03 (`mount`,
//!     `raised`).
//!  4. A change is made in one slot, and makes no call on the device (`set_entry` and its like, `tables` and `same`).
//!  5. While changes are committed, power lost leaves the registry from before or the one with all changes (`commit`,
//!     `moments`), and once they are, the latter (`commit`, `keeps`).
//!  6. A load page is *spare* where no Executable Load File on the device has it. Such a page may be written, also while changes
//!     are staged, and power lost at any moment leaves the registry (`write_load`, `moments` and `keeps`). After `mount` and
//!     after a commit each load page is spare that the tables leave free (`spare`).
//!  7. A card is laid out on a device whatever the device held, and once it is, power lost leaves the registry of its tables
//!     (`lay_out`, `keeps`). No page past the gate changes (`lay_out`, `others`).
//!  8. A call fails only where the device's count of faults rose (`cause` on each call, and `mount`, `err`).
#![tactic(auto)]

mod bytes;
mod changes;
mod commit;
mod entry_slot;
mod file_slot;
mod keeper;
mod key_slot;
mod laws;
mod layout;
mod literals;
mod load_pages;
mod mem_keeper;
mod mount;
mod object_slot;
mod open;
mod raise;
mod records;
mod slot;
mod slot_places;
mod slots;
mod store_layout;
mod superblock;

pub use keeper::RecordKeeper;
pub use laws::{one_registry, room_stays};
pub use layout::lay_out;
pub use literals::constants;
pub use mem_keeper::MemKeeper;
pub use open::{OpenCause, OpenError};
pub use records::Records;
