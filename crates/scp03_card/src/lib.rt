//! The card side of the secure channel protocol SCP03 (GlobalPlatform Amendment D), generic in the
//! key. It takes no memory.
//!
//! ```rust
//! use aes_block::{Aes128, BlockKey};
//! use apdu_core::{Command, Status};
//! use scp03_card::{StaticKeys, offer};
//!
//! // INITIALIZE UPDATE: the card offers a session.
//! let offer = offer(StaticKeys { enc, mac, dek }, counter, &aid, &host_challenge);
//! let reply = [offer.challenge(), offer.cryptogram()];
//!
//! // EXTERNAL AUTHENTICATE: the host answers.
//! let mut session = offer.authenticate(level, &body)?;
//!
//! // Each command after it, with its reply. `reply` is the plain data field, and then the whole reply.
//! let mut plain = [0; 255];
//! let len = session.open_command(&command, &mut plain)?;
//! session.close_reply(&mut reply, Status(0x9000));
//! ```
//!
//! `specs/` says what a session is: its keys, its level and the list of the messages that it has
//! accepted. The code keeps no list. `RepresentsSession` says for which sessions the kept chaining value and
//! number stand, and each clause holds for all of them. So the reply to a command is that of the
//! session which has accepted it, and this caller is proved from the contracts:
//!
//! ```rust
//! fn answered<K: BlockKey>(
//!     session: &mut Session<K>,
//!     command: &Command<'_>,
//!     plain: &mut [u8; 255],
//!     reply: &mut ArrayVec<u8, 258>,
//!     status: Status,
//! ) -> Result<usize, OpenRefusal>
//!     requires body { length command.now.body.now ≤ 255 }
//!     requires field { array_vec_len reply.old ≤ DATA_LIMIT }
//!     ensures { (s : model.Session) → StandsFor session.old s
//!         → OnOk result (reply.new.items ≡ protected (accepting s (apdu_of command.now)) reply.old.items status.0) }
//! {
//!     let len = session.open_command(command, plain)?;
//!     session.close_reply(reply, status);
//!     Ok(len)
//! }
//! ```
//!
//! What the host computes alike is public too: `SessionKeys`, what a level has, and which status words
//! carry a MAC.
//!
//! What ends a session, and which commands it is needed for, is the caller's. How long a call takes
//! may depend on the keys and on the bytes.
#![tactic(auto)]

mod card_offer;
mod close;
mod eight_bytes;
mod external_authenticate;
mod initialize_update;
mod laws;
mod levels;
mod open;
mod refusals;
mod secure_messaging;
mod session;
mod session_keys;
mod static_keys;
mod status;

pub use card_offer::Offer;
pub use close::DATA_LIMIT;
pub use initialize_update::offer;
pub use laws::{first_message, one_plain};
pub use levels::{has_c_decryption, has_r_encryption, has_r_mac};
pub use refusals::{AuthRefusal, OpenRefusal};
pub use session::Session;
pub use session_keys::SessionKeys;
pub use static_keys::StaticKeys;
pub use status::is_success_or_warning;
