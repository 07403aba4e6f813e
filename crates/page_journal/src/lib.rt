//! Committed pages over a flash device that may lose power at any moment.
//!
//! Terms. A *store page* has a number from 0 to 44, a *load page* one from 96 to 607. Store pages are *staged* in
//! frames and committed together. The *journal* is the *gate* in page 45, the *descriptor* in page 46 and the
//! *copies* from page 47 on. The gate is *open* where its first byte is A5. A descriptor has a *valid form* where
//! it names 1 to 30 distinct store pages; copy i is of the i-th. The device *stands for* a list of pages: with a
//! closed gate each page at its own place, with an open one the copies in the places that the descriptor names
//! for them. A store is *settled* where its gate is closed. A load page is *loose* from its write until a commit
//! that had a page staged. The *committed pages* are all store pages and the load pages that are not loose.
//!
//! Invariants, each with the clause that proves it:
//!
//!  1. While the gate is closed, nothing that is pending is a store page or part of the journal: power lost then
//!     leaves the store pages as they are read (`write_free`, `moments`; `read`, `loss`).
//!  2. The gate is opened only when copies and descriptor stand on the device: an outcome with an open gate has
//!     the whole list from after the commit, and one with a closed gate the whole list from before it (`commit`,
//!     `moments`).
//!  3. Store pages are written in place only after an open gate stands on the device: however they are torn,
//!     the copies count (`commit` and `settle`, `moments`).
//!  4. The gate is closed only when the pages in place stand on the device: closing it changes no page of the list
//!     (`commit` and `settle`, `moments` and `list`).
//!  5. A commit that answered `Ok` stands in every outcome, and with it every load page written so far (`commit`,
//!     `only` and `list`).
//!  6. Mounting syncs first, so that what it reads is what every outcome has (`mount`, `only`), and leaves no
//!     outcome that was not possible before it (`mount`, `moments` and `err_moments`). It writes nothing (`mount`,
//!     `pages` and `err_pages`).
//!  7. A journal is bad only where its gate is open and its descriptor has no valid form (`mount`, `err`), and a
//!     store is mounted only where it is not (`mount`, `sound`).
//!  8. Staged pages are read before all others (`read`, `staged` and `list`), and `stage` makes no call on the
//!     device (`stage`).
//!  9. A call fails only where the device's count of faults rose (`cause` on each call). After a commit or a
//!     settling that failed the store takes no further change until it is mounted again (`live`).
//!
//! Where a page stands is said apart from the search for it (`pages_stand`).
//!
//! The layers above cite `Leaves`, `Always` and `LeavesOnly` of `specs/Moments.antt`, and no journal.
#![tactic(auto)]

mod cause;
mod commit;
mod descriptor;
mod laws;
mod literals;
mod pages;
mod steps;
mod store;

pub use cause::{MountCause, MountError};
pub use laws::pages_stand;
pub use literals::constants;
pub use pages::{FIRST_LOAD_PAGE, GATE, STORE_PAGES};
pub use store::PageStore;
