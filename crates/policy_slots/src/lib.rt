//! What the rules of several commands ask of a card in slots: what is above what and in whose charge, who manages content and by whose
//! approval, the keys of a domain, and what is kept of channels and of the load session. The rules stand in `policy_machine`.
#![tactic(auto)]

mod charge;
mod delegation;
mod judged_request;
mod key_order;
mod live;
mod management;
mod session_sets;
mod tags;

pub use charge::{
    domain_of, find_domain, find_entry, has_charge, is_at_or_above, is_in_charge, is_over,
};
pub use delegation::{Signed, TOKEN_KEY, holds, judge_receipt, may_manage, nearest_with_key};
pub use judged_request::{Approving, Judged, JudgedRequest, judge_request};
pub use key_order::{KeyName, keeps_counter, next_key};
pub use live::{Live, LoadName, Place};
pub use management::{is_issuer, is_issuer_in, is_locked, judge_management, judge_setting};
pub use session_sets::session_set;
pub use tags::has_tag;
