//! What a count of faults is, for those who count calls that fail.
//!
//! A count never falls. It is a `u64`, and stands still at its last value, 2 ^ 64 - 1. A call fails only where the count
//! rose in that call or stands there, and leaves the count as it was where it does not fail.
#![tactic(auto)]

mod laws;

pub use laws::counts;
