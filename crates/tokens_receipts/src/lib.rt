//! Tokens and receipts of delegated management (GlobalPlatform Card Specification 2.3.1, chapter 9), by CMAC under an AES key of
//! any length.
//!
//! A *token* is how the holder of the privilege Token Verification approves a command of a provider with Delegated Management
//! before it is sent. A *receipt* is how the holder of Receipt Generation confirms it afterwards, by a number that rises by one.
//!
//!  1. A token is the CMAC of P1, P2 and all of the data field before it, at its full length (`token`), and it fits exactly where
//!     it is those sixteen bytes (`token_fits`).
//!  2. A receipt covers its number, the card's unique data and the AIDs that the command was about, and is written with the number
//!     and the unique data (`receipt`).
//!  3. Whoever makes more than one under a key keeps its subkeys (`token_under`, `receipt_under`).
//!  4. What a token signs of the data field is written after lengths (`four_fields`, `five_fields`, `object_field`).
//!
//! Nothing here takes memory. Who verifies and who receipts is for the callers, as is that no number comes twice.
#![tactic(auto)]

mod approval;
mod confirmation;
mod fields;

pub use approval::{token, token_fits, token_under};
pub use confirmation::{receipt, receipt_under};
pub use fields::{DataField, five_fields, four_fields, object_field, push_field};
