//! An Executable Load File that comes in blocks (LOAD, GlobalPlatform Card Specification 2.3.1, 11.6).
//!
//! Terms. A *load session* is what a card keeps of such a file until its last block. The bytes go to *load pages*. A page that
//! they fill is to be written at once; the bytes of the last one wait in memory.
//!
//! What holds of a session, each with the clause that proves it:
//!
//!  1. A block is judged before it is taken. It is refused for the first of the causes that `BlockStop` names, exactly where this
//!     cause holds (`stop` on `judge_block`).
//!  2. A block that is taken makes the session stand for the one with the bytes that the block brings, over load pages in which
//!     those are written that it gives (`stands` on `take_block`): one that is full, and with the last block the last one too.
//!     No call is made on the device.
//!  3. No page that a block gives is one that a file of the tables names or that the session took before (`writes` on
//!     `take_block`). So the files of the tables have their bytes once it is written (`tables_say_the_same`).
//!  4. The pages are written afterwards (`bytes` on `write_pages`). Where no file on the device has one of them, power lost at any
//!     moment leaves the registry (`moments` and `keeps`). A write fails only where the device's count of faults rose (`cause`).
//!  5. After the last block the Executable Load File has the bytes that came (`file` on `finish`), in load pages of its own
//!     (`pages`).
#![tactic(auto)]

mod block;
mod free_page;
mod hash;
mod judge;
mod laws;
mod load_write;
mod paged;
mod session;
mod take;

pub use block::{BlockStop, Taken};
pub use laws::{pages_stay_whole, ready_stays, session_stays, tables_say_the_same};
pub use load_write::{LoadWrite, WRITES, write_pages};
pub use session::LoadSession;
