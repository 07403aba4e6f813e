//! Flash devices of 608 pages, each of 256 bytes, that may lose power at any moment.
//!
//! `Flash` says what its calls do to the pages as read, and what power lost at any moment may leave: any bytes
//! in the pages written since the last good sync, and all other pages as they are read. `MemFlash` is such a
//! device in memory, and `power_cut` takes its power away. `FaultyFlash` makes calls of another device fail, by a
//! `FaultPlan`: `FuseFlash` each call from some on, `OnceFlash` one. `FileFlash` is a file: its content is not
//! known, so that a real file follows the device model is a premise.
#![tactic(auto)]

mod faulty;
mod file;
mod flash;
mod fuse;
mod literals;
mod memory;
mod once;
mod page;
mod plan;

pub use faulty::FaultyFlash;
pub use file::FileFlash;
pub use flash::{Flash, FlashFailed};
pub use fuse::{FailsAfter, FuseFlash};
pub use literals::constants;
pub use memory::MemFlash;
pub use once::{FailsOnce, OnceFlash};
pub use page::{PAGES, Page};
pub use plan::{CallKind, FaultPlan};
