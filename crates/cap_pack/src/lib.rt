//! A Java Card CAP file, packed into the commands that load it and install its applets.
//!
//! `read` judges the components of a CAP file, one after the other as they are usually joined for a load. `Cap::lines` and
//! `Cap::line` give the commands as lines of a script: INSTALL for load, LOAD of each block, and INSTALL for install and make selectable of
//! each applet. `Joined` collects the bytes that the lines of an input spell.
//!
//! ```rust
//! use cap_pack::read;
//!
//! let cap = read(&bytes)?;
//! for index in 0..cap.lines() {
//!     cap.line(index, &mut text);
//!     show(&text);
//! }
//! ```
//!
//! Wrappers by zip, sizes of four bytes and components in files of their own are not read. Only `Joined` takes memory, once.
#![tactic(auto)]

mod applets;
mod blocks;
mod cap;
mod component;
mod header;
mod joined;
mod laws;
mod limit;
mod outline;
mod pack;
mod stop;

pub use cap::{Cap, read};
pub use joined::Joined;
pub use laws::loads_whole;
pub use limit::CAP_LIMIT;
pub use pack::LINE_ROOM;
pub use stop::CapStop;
