//! Command and response APDUs with short length fields (ISO/IEC 7816-4:2013, chapter 5).
#![tactic(auto)]

mod class_byte;
mod command;
mod laws;
mod not_short;
mod reply;

pub use class_byte::{channel_of, off_channel, on_channel};
pub use command::Command;
pub use laws::one_spelling;
pub use not_short::NotShort;
pub use reply::{Reply, Status};
