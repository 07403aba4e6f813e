//! A command and its reply.

ghost use Rattle.std.specs.Prelude.{◌≡◌, None};
ghost use Rattle.host_tool.specs.Asked.{AsksAnswered};
ghost use Rattle.host_tool.specs.Link.{sides};

use crate::command_line::write_command;
use crate::fault::LinkFault;
use crate::reply_line::{Reply, take_reply};
use io_edge::{Lines, Sink, Source};

/// Writes a command, and reads the reply to it.
pub fn ask<S: Source, K: Sink>(
    command: &[u8],
    replies: &mut S,
    lines: &mut Lines,
    commands: &mut K,
    reply: &mut Reply,
) -> Result<(), LinkFault>
    requires stop { lines.old.stop ≡ None }
    ensures { AsksAnswered S.tells K.tells (sides (S.state replies.old) lines.old (K.state commands.old))
        (sides (S.state replies.new) lines.new (K.state commands.new)) command.now reply.new.items result }
{
    match write_command(command, commands) {
        Ok(()) => take_reply(lines, replies, reply),
        Err(_) => Err(LinkFault::WriteFault),
    }
}
