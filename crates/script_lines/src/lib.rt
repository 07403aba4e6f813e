//! The language of scripts that drive a card: what each line says, the commands that lines make, and a workload of such lines (this
//! profile's own). `script_tool` is a host that plays them. It takes no memory.
//!
//! ```rust
//! use script_lines::{Exchange, ScriptLine, Tokens};
//!
//! // The line reads `install 04 a000000001 a00000000101 a00000000102 00 c900`.
//! let mut line = ScriptLine::Nothing;
//! match line.read(text) {
//!     Some(()) => {
//!         if let ScriptLine::Exchange(Exchange::Install(installation)) = &line {
//!             let command = installation.command(&Tokens::Absent);
//!         }
//!     }
//!     None => malformed(text),
//! }
//! ```
//!
//! A line has a verb and its words, with one space between two. The verbs `reset`, `channel`, `keys`,
//! `tokenkey`, `badtoken` and `want` send nothing to the card. The others send commands, and `- ` before
//! them asks to print the status of the reply alone. A line of spaces, an empty one and one that begins
//! with `#` say nothing.
//!
//! By `ScriptLine::read` a line becomes what a text says, unless that is malformed. `specs/Control.antt` and
//! `specs/Exchange.antt` say which verbs there are, and the other files of `specs/` which words follow each,
//! what they spell, and the command that is sent. A text says at most one line.
//!
//! `Mill` gives the lines of a workload: rounds of ten lines each, that ChaCha20 chooses from a seed. Each is
//! a line of the language, and short enough for `io_edge`.
#![tactic(auto)]

mod block;
mod channel;
mod content;
mod control;
mod deletion;
mod exchange;
mod extradition;
mod install;
mod key_field;
mod keys;
mod laws;
mod life;
mod line;
mod listing;
mod load_file;
mod mill;
mod nothing;
mod number;
mod octets;
mod opening;
mod plain;
mod put_key;
mod round;
pub mod selectable;
mod tokens;
pub mod values;
mod verb;
pub mod words;

pub use block::{load_block, tag_and_length};
pub use channel::Channel;
pub use content::{Piece, part};
pub use control::Control;
pub use deletion::Deletion;
pub use exchange::Exchange;
pub use extradition::Extradition;
pub use install::Installation;
pub use keys::{Key, Keys, OfSize, Trio, key};
pub use laws::{one_line, workload_lines};
pub use life::LifeChange;
pub use line::ScriptLine;
pub use listing::Listing;
pub use load_file::{Content, Fill, HashFunction, LoadFile, install_for_load};
pub use mill::Mill;
pub use nothing::says_nothing;
pub use number::{short_number, spelled_number};
pub use opening::Opening;
pub use plain::Plain;
pub use put_key::{NewKeys, Putting};
pub use round::Round;
pub use tokens::Tokens;
