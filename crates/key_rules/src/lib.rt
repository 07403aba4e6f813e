//! Whether keys may be put among those of a card's security domains.
//!
//! Keys are refused exactly where one of three refusals holds, and the first that does is answered (`judge_put`). Each refusal is also
//! a call of its own (`lacks_replaced`, `is_taken`, `is_full`). The keys of a domain have the slot of its entry as their `owner`.
#![tactic(auto)]

mod judge;
mod refusal;

pub use judge::{has_version, is_full, is_of, is_taken, judge as judge_put, lacks_replaced};
pub use refusal::PutRefusal;
