//! A host that plays a script over a card at the other end of two streams: commands go out as lines, and replies come in as lines.
//!
//! `play_script` plays the lines of a script, as `gp play` does, over whatever answers: `LineLink` writes each command as one line of
//! hexadecimal digits, hands it on, and reads one line, which is the reply. Nothing is supposed of the replies.
//! What is printed goes to the transcript. `gp_host` is the program: its one word names the file with the script.
#![tactic(auto)]

mod asking;
mod command_line;
mod ended;
mod ending;
mod fault;
mod file_script;
mod line_link;
mod play;
mod program;
mod reply_line;
mod script_host;
mod top;

pub use ended::Ended;
pub use fault::LinkFault;
pub use file_script::{FileScript, OpenFailed, ScriptFile};
pub use line_link::LineLink;
pub use play::play_script;
pub use program::process;
pub use script_host::ScriptHost;
pub use top::gp_host;
