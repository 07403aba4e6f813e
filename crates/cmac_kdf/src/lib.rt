//! The modes of a block cipher that secure messaging uses: CMAC (NIST SP 800-38B), key derivation
//! in counter mode with it (NIST SP 800-108), and CBC (NIST SP 800-38A) with padding method 2 of
//! ISO/IEC 9797-1. All are generic in the key, and none takes memory.
//!
//! ```rust
//! use aes_block::{Aes128, BlockKey};
//! use cmac_kdf::{CmacKey, cbc_seal, cbc_unseal, cmac, padded_len};
//!
//! let key = Aes128::from_key(b"0123456789abcdef");
//! let code = cmac(&key, b"a message");
//!
//! let mut buf = *b"eighteen bytes, and room for a padding...";
//! let sealed = cbc_seal(&key, &[0; 16], &mut buf, 18);
//! assert_eq!(rt; sealed, padded_len(18));
//! let opened = cbc_unseal(&key, &[0; 16], &mut buf[..sealed]);
//! assert_eq!(rt; opened.ok(), Some(18));
//!
//! // For more than one message, a key that keeps its subkeys.
//! let key = CmacKey::new(key);
//! assert_eq!(rt; key.cmac(b"a message"), code);
//!
//! // The message in pieces. Its state borrows nothing, so that one value can own it and the key.
//! let mut state = key.start();
//! key.feed(&mut state, b"a mess");
//! key.feed(&mut state, b"age");
//! assert_eq!(rt; key.finish(&state), code);
//! ```
//!
//! What is fed in two pieces is what is fed in one. The contract of `feed` says it, and this
//! caller is proved from it:
//!
//! ```rust
//! fn code_of_two<K: BlockKey>(key: &K, front: &[u8], back: &[u8]) -> [u8; 16]
//!     ensures { result ≡ standard.cmac (K.key_bytes key.now) (front.now ++ back.now) }
//! {
//!     let mut mac = Mac::new(key);
//!     mac.feed(front);
//!     mac.feed(back);
//!     mac.finish()
//! }
//! ```
#![tactic(auto)]

mod bad_padding;
mod block;
mod cbc;
mod chain;
mod cmac_key;
mod cmac_state;
mod derivation;
mod message_code;
mod padding;
mod subkeys;
mod whole;

pub use bad_padding::BadPadding;
pub use cbc::{cbc_seal, cbc_seal_blocks, cbc_unseal, cbc_unseal_blocks};
pub use cmac_key::CmacKey;
pub use cmac_state::CmacState;
pub use derivation::derive;
pub use message_code::{Mac, cmac};
pub use padding::padded_len;
