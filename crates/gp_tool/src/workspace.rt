//! The room for one line.

ghost use Rattle.std.specs.Prelude.{◌≡◌, false};
ghost use Rattle.gp_tool.specs.Prelude.{RepresentsHost, first_host};

use crate::form::COMMAND_LIMIT;
use crate::play::PrintedLine;
use crate::reply::REPLY_LINE_LIMIT;
use arrayvec::ArrayVec;
use card_core::REPLY_LIMIT;
use script_tool::{Player, Text};

/// Room for a command, its reply and the reply's line, and the host of a script with what its line prints.
#[derive(Drop)]
pub struct Workspace {
    pub command: [u8; COMMAND_LIMIT],
    pub reply: ArrayVec<u8, REPLY_LIMIT>,

    /// Whether the reply is there to be compared with one that a line wants.
    pub has_reply: bool,
    pub text: [u8; REPLY_LINE_LIMIT],
    pub player: Player,
    pub printed: Text,
    pub printed_line: PrintedLine,
}

impl Workspace {
    /// No reply is there, and the host has not begun.
    pub fn new() -> Workspace
        ensures none { result.has_reply ≡ false }
        ensures player { RepresentsHost result.player first_host }
    {
        Workspace {
            command: [0; COMMAND_LIMIT],
            reply: ArrayVec::new(),
            has_reply: false,
            text: [0; REPLY_LINE_LIMIT],
            player: Player::new(),
            printed: Text::new(),
            printed_line: PrintedLine::new(),
        }
    }
}
