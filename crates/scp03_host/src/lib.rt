//! The host side of the secure channel protocol SCP03 (GlobalPlatform Amendment D), generic in the
//! key. It takes no memory.
//!
//! ```rust
//! use aes_block::{Aes128, BlockKey};
//! use scp03_host::begin;
//!
//! // The data field that the card answered to INITIALIZE UPDATE. `out` becomes EXTERNAL AUTHENTICATE.
//! let keys = StaticKeys { enc, mac, dek };
//! let mut session = begin(keys, &host_challenge, update, level, channel, &mut out)?;
//!
//! // Each command after it, and its reply. `out` becomes the command to send, `field` the plain data field of the reply.
//! session.wrap(&command, channel, &mut out)?;
//! let status = session.unwrap(reply, &mut field)?;
//! ```
//!
//! A session is that of `scp03_card`, by the same definitions: the offer that was answered, a security
//! level, and the list of the messages that were sent. The code keeps the last chaining value and the
//! number, and `RepresentsSession` says for which sessions they stand. `specs/` adds what the host sends
//! (`wrapped_command`) and what a reply gives it (`Unwraps`).
//!
//! Two ends that stand for one session go on agreeing (`agreement`), at every level and for every key
//! type. So these two callers are proved from the contracts of both ends:
//!
//! ```rust
//! fn deliver<K: BlockKey>(
//!     host: &mut HostSession<K>,
//!     card: &mut Session<K>,
//!     command: &Command<'_>,
//!     field: &mut [u8; 255],
//! ) -> Option<usize>
//!     requires { length command.now.body.now ≤ 239 }
//!     ensures { (session : model.Session) → IsBytes command.now.body.now → StandsFor host.old session → StandsFor card.old session → IsSomeAnd result (λ n.
//!         (take n field.new ≡ command.now.body.now)
//!         × StandsFor host.new (having_sent session (apdu_of command.now)) × StandsFor card.new (having_sent session (apdu_of command.now))) }
//!
//! fn answer<K: BlockKey>(
//!     host: &mut HostSession<K>,
//!     card: &mut Session<K>,
//!     field: &[u8],
//!     status: Status,
//!     told: &mut ArrayVec<u8, 256>,
//! ) -> Option<Status>
//!     requires { length field.now ≤ 239 }
//!     ensures told { (session : model.Session) → StandsFor host.old session → StandsFor card.old session
//!         → (result ≡ Some status) × (told.new.items ≡ told_field session field.now status.0) }
//!     ensures unchanged { (host.new ≡ host.old) × (card.new ≡ card.old) }
//! ```
//!
//! The first lets the host `wrap` a command and the card `open_command` it, the second lets the card
//! `close_reply` and the host `unwrap` it. A host that refuses a reply has to end the session itself:
//! `unwrap` leaves it as it was.
#![tactic(auto)]

mod external_authenticate;
mod host_session;
mod laws;
mod refusals;
mod unwrap;
mod wrap;

pub use external_authenticate::begin;
pub use host_session::HostSession;
pub use laws::{agreement, one_plain_reply};
pub use refusals::{BeginRefusal, ReplyRefusal, TooLong};
