//! The lines that are written.

ghost use Rattle.std.specs.Prelude.{◌≡◌, ◌≤◌, ◌<◌, ◌*◌, ◌+◌, ◌++◌, ℕ, length, take, OnOk, OnErr};
ghost use Rattle.gp_tool.specs.Prelude.{HasCause, line_end, encode_lower, reason};

use arrayvec::ArrayVec;
use card_core::REPLY_LIMIT;
use io_edge::{Sink, WriteFailed};
use policy_rules::Rule;

/// How many bytes stand after the digits of a reply, at most: a space, the name of a rule, and a newline.
const LINE_END_LIMIT: usize = 5;

/// How many bytes a reply's line has, at most.
pub const REPLY_LINE_LIMIT: usize = 2 * REPLY_LIMIT + LINE_END_LIMIT;

// Why a command was refused, or a sign that it was not.
fn reason_of(rule: Option<Rule>) -> &'static str
    ensures name { result.now ≡ reason rule }
    ensures short { length result.now ≤ 3 }
{
    match rule {
        Some(rule) => rule.name(),
        None => "-",
    }
}

// What stands after the digits of a reply, with the reason of a refusal where it is to be explained.
fn spell_end(explains: bool, rule: Option<Rule>) -> ArrayVec<u8, LINE_END_LIMIT>
    ensures { result.items ≡ line_end explains rule }
{
    let mut text = ArrayVec::new();
    if explains {
        text.push(b' ');
        text.try_extend_from_slice(reason_of(rule).as_bytes())
            .unwrap();
    }
    text.push(b'\n');
    text
}

// The line of a reply, in the front of `text`: how many bytes it has.
fn spell_reply(
    explains: bool,
    reply: &[u8],
    rule: Option<Rule>,
    text: &mut [u8; REPLY_LINE_LIMIT],
) -> usize
    requires { length reply.now ≤ REPLY_LIMIT }
    ensures within { result ≤ REPLY_LINE_LIMIT }
    ensures spelled { take result text.new ≡ encode_lower reply.now ++ line_end explains rule }
{
    let digits = 2 * reply.len();
    let end = spell_end(explains, rule);
    let count = digits + end.len();
    let _ = hex::encode_to_slice(reply, &mut text[..digits]);
    text[digits..count].copy_from_slice(&end);
    count
}

/// Writes a reply as one line, with the reason of a refusal where it is to be explained, by one write.
pub fn write_reply<K: Sink>(
    explains: bool,
    reply: &[u8],
    rule: Option<Rule>,
    text: &mut [u8; REPLY_LINE_LIMIT],
    sink: &mut K,
) -> Result<(), WriteFailed>
    requires { length reply.now ≤ REPLY_LIMIT }
    ensures ok { K.tells → OnOk result ((K.state sink.new).written ≡ (K.state sink.old).written ++ (encode_lower reply.now ++ line_end explains rule)) }
    ensures err { K.tells → OnErr result ((n : ℕ) × ((K.state sink.new).written ≡ (K.state sink.old).written ++ take n (encode_lower reply.now ++ line_end explains rule))) }
    ensures flushes { (K.state sink.new).flushes ≡ (K.state sink.old).flushes }
    ensures cause { HasCause (K.state sink.old).faults (K.state sink.new).faults result }
{
    let count = spell_reply(explains, reply, rule, text);
    sink.write_all(&text[..count])
}
