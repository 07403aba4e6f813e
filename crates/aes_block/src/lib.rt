//! The block cipher AES (FIPS 197), as a key that seals and unseals blocks of sixteen bytes.
//!
//! ```rust
//! use aes_block::{Aes128, BlockKey};
//!
//! let key = Aes128::from_key(b"0123456789abcdef");
//! let mut block = *b"sixteen bytes...";
//! key.seal(&mut block);
//! key.unseal(&mut block);
//! assert_eq!(rt; block, *b"sixteen bytes...");
//! ```
//!
//! There are keys of 16, 24 and 32 bytes, and of each length two types. `Aes128` has both key
//! schedules made. `SealingAes128` has the one for `seal` alone, so it is made in half the time and
//! is half as large, but makes the other one at each `unseal`: it is for keys that authenticate or
//! derive.
//!
//! `specs/` has the cipher in the standard's terms. The trait `BlockKey` says what a key type does
//! with it. The code looks columns up in tables, each entry of which is proved from the S-box. How
//! long a call takes may depend on the key and on the block.
#![tactic(auto)]

mod aes;
mod block_key;
mod column;
mod columns;
mod inverse_schedule;
mod kept;
mod key_size;
mod literals;
mod rounds;
mod schedule;
mod seal_table;
mod sealing_aes;
mod tables;
mod unseal_table;

pub use aes::{Aes, Aes128, Aes192, Aes256};
pub use block_key::BlockKey;
pub use key_size::{Bits128, Bits192, Bits256, KeySize};
pub use literals::constants;
pub use sealing_aes::{SealingAes, SealingAes128, SealingAes192, SealingAes256};
