//! The bytes that go to a card and come back (this profile's own).

ghost use Rattle.std.specs.Prelude.{◌≡◌, [], ◌∷◌, true, OnOk, OnErr};
ghost use Rattle.script_tool.specs.Prelude.{Answered, Breaks, Conveys, HasCause};

use crate::link::{CardLink, LinkFailed};
use arrayvec::ArrayVec;

/// A command to send, and the reply to the last one.
#[derive(Drop)]
pub struct Wire {
    pub sent: ArrayVec<u8, 261>,
    pub reply: ArrayVec<u8, 258>,
}

impl Wire {
    /// No command, and no reply.
    pub fn new() -> Wire
        ensures sent { result.sent.items ≡ [] }
        ensures reply { result.reply.items ≡ [] }
    {
        Wire {
            sent: ArrayVec::new(),
            reply: ArrayVec::new(),
        }
    }

    /// Sends the command.
    pub fn transmit<L: CardLink>(&mut self, link: &mut L) -> Result<(), LinkFailed>
        requires up { L.up link.old ≡ true }
        ensures answered { OnOk result (Conveys L.CardLink link.old link.new (Answered self.old.sent.items self.new.reply.items ∷ [])) }
        ensures broken { OnErr result (Breaks L.CardLink link.old link.new [] self.old.sent.items) }
        ensures up { OnOk result (L.up link.new ≡ true) }
        ensures cause { HasCause (L.faults link.old) (L.faults link.new) result }
    {
        link.send(&self.sent, &mut self.reply)
    }
}
