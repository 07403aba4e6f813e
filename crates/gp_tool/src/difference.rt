//! The text of a difference.

ghost use Rattle.std.specs.Prelude.{◌≡◌, ◌≤◌, ◌++◌, ℕ, length, take, OnOk, OnErr};
ghost use Rattle.gp_tool.specs.Prelude.{HasCause, difference};

use crate::form::COMMAND_LIMIT;
use arrayvec::ArrayVec;
use card_core::REPLY_LIMIT;
use io_edge::{Sink, WriteFailed};
use line_text::{push_decimal, push_hex, push_word};

/// How many bytes the text has, at most: two replies in digits, and the words and the number beside them.
const DIFFERENCE_ROOM: usize = 2 * COMMAND_LIMIT + 2 * REPLY_LIMIT + 64;

// The text of a difference: the number of the line, the reply that it wants, and the one that came.
fn spell_difference(number: u32, wanted: &[u8], reply: &[u8]) -> ArrayVec<u8, DIFFERENCE_ROOM>
    requires wanted { length wanted.now ≤ COMMAND_LIMIT }
    requires reply { length reply.now ≤ REPLY_LIMIT }
    ensures { result.items ≡ difference number wanted.now reply.now }
{
    let mut line = ArrayVec::<u8, DIFFERENCE_ROOM>::new();
    push_word(b"line ", &mut line);
    push_decimal(number as usize, &mut line);
    push_word(b" want ", &mut line);
    push_hex(wanted, &mut line);
    push_word(b" got ", &mut line);
    push_hex(reply, &mut line);
    push_word(b"\n", &mut line);
    line
}

/// Writes a difference as one line, by one write.
pub fn write_difference<K: Sink>(
    number: u32,
    wanted: &[u8],
    reply: &[u8],
    sink: &mut K,
) -> Result<(), WriteFailed>
    requires wanted { length wanted.now ≤ COMMAND_LIMIT }
    requires reply { length reply.now ≤ REPLY_LIMIT }
    ensures ok { K.tells → OnOk result ((K.state sink.new).written ≡ (K.state sink.old).written ++ difference number wanted.now reply.now) }
    ensures err { K.tells → OnErr result ((n : ℕ) × ((K.state sink.new).written ≡ (K.state sink.old).written ++ take n (difference number wanted.now reply.now))) }
    ensures flushes { (K.state sink.new).flushes ≡ (K.state sink.old).flushes }
    ensures cause { HasCause (K.state sink.old).faults (K.state sink.new).faults result }
{
    sink.write_all(&spell_difference(number, wanted, reply))
}
