//! A desk for the tokens and receipts of delegated management (GlobalPlatform Card Specification 2.3.1, chapter 9).
//!
//! ```rust
//! use receipt_desk::{Desk, Verdict};
//!
//! let mut desk = Desk::new();
//! if desk.set_key(&key) {
//!     // The token that approves a command, and the verdict on the reply that confirms it.
//!     let token = desk.sign(p1, p2, &before);
//!     let verdict = desk.judge(&reply, &file, Some(&domain), None);
//! }
//! ```
//!
//! Whoever approves commands signs tokens at it. Whoever audits a card lays the receipts before it that came back, in their order. A
//! desk judges the form of a receipt, then its unique data, its number and its MAC, and a receipt that fits counts.
//!
//! `Audit` is a desk that takes lines: `DeskLine` is what a line says. Nothing here takes memory.
//!
//! `specs/Judgement.antt` says what a verdict means. The laws, in `specs/Laws.antt` and `specs/OfCards.antt`, tie the desk to a card: what
//! a card confirms fits, a list with a gap does not, and a card takes the tokens.
#![tactic(auto)]

mod aids;
mod audit;
mod confirmation;
mod desk;
mod key;
mod laws;
mod line;
mod receipted;
mod signing;
mod text;
mod verdict;

pub use aids::Aids;
pub use audit::Audit;
pub use desk::Desk;
pub use laws::{
    a_wrong_list_is_noticed, clean_audits_tell, one_desk_line, one_verdict, receipts_fit,
    receipts_of_a_run_fit, tokens_pass,
};
pub use line::DeskLine;
pub use receipted::Receipted;
pub use signing::Signing;
pub use verdict::Verdict;
