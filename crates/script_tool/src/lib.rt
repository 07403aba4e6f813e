//! A host that plays the lines of a script over a link to a card (this profile's own). What a line says stands in `script_lines`. It
//! takes no memory.
//!
//! ```rust
//! use script_tool::{Played, Player, Text};
//!
//! // `link` is a way to a card: a `CardLink`. `text` becomes what a line prints.
//! let mut player = Player::new();
//! let mut text = Text::new();
//! loop {
//!     let line = lines.next_line(&mut source)?;
//!     match player.step(&mut link, &line, &mut text)? {
//!         Played::Quiet => {}
//!         Played::Answer(_) | Played::Note | Played::WantDiffers => show(&text),
//!     }
//! }
//! ```
//!
//! A line is read by `ScriptLine::read` of `script_lines`. A malformed one is refused, with its number.
//!
//! `Player::step` plays a line. What a host does is a `Talk` (`specs/Talk.antt`): it sends bytes and goes
//! on by the reply, or it ends with what it prints. The definitions of the verbs make one of each line, and
//! know no link. `CardLink` is what commands are sent over: a card at its other end is led from state
//! to state by the steps of `policy_machine`, where the link tells its states.
//!
//! What callers use of `script_lines` is handed on here: words, values and numbers, the forms of commands that they make, and `Mill`.
#![tactic(auto)]

mod aes_session;
mod channel_sessions;
mod commands;
mod host_state;
mod in_plain;
mod in_session;
mod laws;
mod link;
mod loading;
mod played;
mod player;
mod playing;
mod printout;
mod session_opening;
mod session_start;
mod wire;
mod word;

pub use laws::{closed_sessions, few_commands, one_talk};
pub use link::{CardLink, LinkFailed};
pub use played::{Played, StepStop};
pub use player::Player;
pub use printout::Text;
pub use script_lines::{
    Installation, Key, Mill, OfSize, Piece, Tokens, install_for_load, key, load_block, part,
    says_nothing, short_number, spelled_number, tag_and_length, values, words,
};
pub use word::Word;
