//! The end of a reply (ISO/IEC 7816-4:2013, 5.6).

ghost use Rattle.std.specs.Prelude.{◌≡◌, ◌≤◌, ◌+◌, ◌++◌};
ghost use Rattle.card_core.specs.Prelude.{array_vec_len, status_bytes};

use apdu_core::Status;
use arrayvec::ArrayVec;
use policy_rules::Rule;

/// How many bytes a reply has, at most: 256 of data, and the status word.
pub const REPLY_LIMIT: usize = 258;

/// A reply, as far as it is written.
pub type Reply = ArrayVec<u8, REPLY_LIMIT>;

/// What comes of a command: its status word, or the rule that refuses it.
pub type Answer = Result<Status, Rule>;

/// Closes a reply by its status word.
pub fn write_status(status: Status, reply: &mut Reply)
    requires room { array_vec_len reply.old + 2 ≤ REPLY_LIMIT }
    ensures written { reply.new.items ≡ reply.old.items ++ status_bytes status.0 }
{
    reply.try_extend_from_slice(&status.to_bytes()).unwrap();
}

/// Makes a reply that of a command which the device cut off.
pub fn write_failure(reply: &mut Reply)
    ensures written { reply.new.items ≡ status_bytes 0x6581 }
{
    reply.clear();
    write_status(Status(0x6581), reply);
}
