//! The lines that are read.

ghost use Rattle.std.specs.Prelude.{◌≡◌, ℕ, List, None, IsTrue};
ghost use Rattle.host_tool.specs.Asked.{HeardCause, Hears};
ghost use Rattle.host_tool.specs.Exchange.{SpellsReply};

use crate::fault::LinkFault;
use arrayvec::ArrayVec;
use io_edge::{LineStop, Lines, Source};

/// The bytes of a reply.
pub type Reply = ArrayVec<u8, 258>;

// The reply that a line spells. `reply` becomes it.
fn read_reply(line: &[u8], reply: &mut Reply) -> bool
    ensures read { IsTrue result → SpellsReply line.now reply.new.items }
    ensures none { (IsTrue result → ⊥) → (bytes : List ℕ) → SpellsReply line.now bytes → ⊥ }
{
    let count = line.len() / 2;
    if count > 258 {
        return false;
    }
    let mut room = [0; 258];
    match hex::decode_to_slice(line, &mut room[..count]) {
        Ok(()) => {
            reply.clear();
            reply.try_extend_from_slice(&room[..count]).unwrap();
            true
        }
        Err(_) => false,
    }
}

/// Reads the next reply. It is left as it was where none comes.
pub fn take_reply<S: Source>(
    lines: &mut Lines,
    source: &mut S,
    reply: &mut Reply,
) -> Result<(), LinkFault>
    requires stop { lines.old.stop ≡ None }
    ensures hears { Hears S.tells lines.old lines.new (S.state source.old).left (S.state source.new).left reply.new.items result }
    ensures cause { HeardCause result (S.state source.old).faults (S.state source.new).faults }
{
    match lines.next_line(source) {
        Ok(line) => {
            if read_reply(line.text, reply) {
                Ok(())
            } else {
                Err(LinkFault::BadReply(line.number))
            }
        }
        Err(LineStop::TooLong(number)) => Err(LinkFault::BadReply(number)),
        Err(LineStop::End) => Err(LinkFault::Ended),
        Err(LineStop::ReadFailed) => Err(LinkFault::ReadFault),
        Err(LineStop::InputTooLong) => Err(LinkFault::TooMany),
    }
}
