//! How the next line is cut off the bytes held.

ghost use Rattle.std.specs.Prelude.{◌≡◌, ◌≢◌, ◌<◌, ◌≤◌, ◌+◌, ◌++◌, List, ℕ, length, IfOk, IfErr, OnOk, OnErr};
ghost use Rattle.io_edge.specs.Lines.{IsNextLine, IsNumbered, StopsLines};
ghost use Rattle.io_edge.specs.Ahead.{Finds};

use crate::ahead::{Ahead, stripped_len};
use crate::buffer::Buffer;
use crate::line::{LINE_LIMIT, LineStop};

// Cuts off a line that has its newline.
#[tactic(auto, using(crate::proofs::Whole::whole_line))]
pub fn cut_whole(
    buffer: &mut Buffer,
    at: usize,
    room: usize,
    number: u32,
) -> Result<usize, LineStop>
    requires within { length buffer.old.held ≤ room }
    requires found { Finds room buffer.old.held (Ahead.Newline at) }
    ensures line { (left : List ℕ) → OnOk result (IsNextLine room (buffer.old.held ++ left) buffer.new.text (buffer.new.held ++ left)) }
    ensures text { OnOk result (length buffer.new.text ≤ LINE_LIMIT) }
    ensures count { IfOk result (λ n. (0 < n) × (n + length buffer.new.held ≡ length buffer.old.held)) }
    ensures spent { IfOk result (λ n. length buffer.new.text ≤ n) }
    ensures stop { (left : List ℕ) → IfErr result (StopsLines room number (buffer.old.held ++ left)) }
    ensures numbered { IfErr result (IsNumbered number) }
    ensures known { IfErr result (λ stop. stop ≢ LineStop.ReadFailed) }
    ensures kept { OnErr result (buffer.new.held ≡ buffer.old.held) }
{
    let text = stripped_len(&buffer.held()[..at]);
    if text > LINE_LIMIT {
        return Err(LineStop::TooLong(number));
    }
    buffer.cut(text, at + 1);
    Ok(at + 1)
}

// Cuts off the last line, which has no newline.
pub fn cut_last(buffer: &mut Buffer, room: usize, number: u32) -> Result<usize, LineStop>
    requires found { Finds room buffer.old.held Ahead.Last }
    ensures line { OnOk result (IsNextLine room buffer.old.held buffer.new.text buffer.new.held) }
    ensures text { OnOk result (length buffer.new.text ≤ LINE_LIMIT) }
    ensures count { IfOk result (λ n. (0 < n) × (n + length buffer.new.held ≡ length buffer.old.held)) }
    ensures spent { IfOk result (λ n. length buffer.new.text ≤ n) }
    ensures stop { IfErr result (StopsLines room number buffer.old.held) }
    ensures numbered { IfErr result (IsNumbered number) }
    ensures known { IfErr result (λ stop. stop ≢ LineStop.ReadFailed) }
    ensures kept { OnErr result (buffer.new.held ≡ buffer.old.held) }
{
    let len = buffer.held().len();
    if len == 0 {
        return Err(LineStop::End);
    }
    if len > LINE_LIMIT {
        return Err(LineStop::TooLong(number));
    }
    buffer.cut(len, len);
    Ok(len)
}

// Why no line is given where the limit of the input comes first.
pub fn stop_at_limit(held: &[u8], room: usize, number: u32) -> LineStop
    requires { Finds room held.now Ahead.Limit }
    ensures stop { (left : List ℕ) → StopsLines room number (held.now ++ left) result }
    ensures numbered { IsNumbered number result }
    ensures known { result ≢ LineStop.ReadFailed }
{
    if stripped_len(held) > LINE_LIMIT {
        LineStop::TooLong(number)
    } else {
        LineStop::InputTooLong
    }
}
