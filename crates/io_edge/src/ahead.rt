//! What stands ahead of a reading.

ghost use Rattle.std.specs.Prelude.{◌≡◌, ◌<◌, ◌≤◌, ◌+◌, ◌++◌, [], length, take, Option, Some, Ok, IfOk, OnErr, slice_index, MatchOption};
ghost use Rattle.std.specs.Str.Lines.{strip_carriage_return};
ghost use Rattle.faults.specs.Faults.{HasCause};
ghost use Rattle.io_edge.specs.Lines.{NoNewline};
ghost use Rattle.io_edge.specs.Ahead.{Finds};
ghost use Rattle.io_edge.specs.declared.line.TheConstants.{HELD_LIMIT};

use crate::buffer::Buffer;
use crate::line::LINE_LIMIT;
use crate::source::{ReadFailed, Source};
use memchr::memchr;

/// What is found ahead of a reading, once enough is held to tell.
#[derive(Clone, Copy)]
pub enum Ahead {
    /// The next newline stands at this place of the bytes held.
    Newline(usize),
    /// A line that is too long, whatever follows.
    Long,
    /// The end of the input, with no newline before it.
    Last,
    /// The limit of the input, with no newline before it.
    Limit,
}

/// Where the first newline stands.
fn newline_in(bytes: &[u8]) -> Option<usize>
    ensures { MatchOption result (NoNewline bytes.now) (λ at. (at < length bytes.now) × NoNewline (take at bytes.now) × (slice_index bytes.now at ≡ 10)) }
{
    memchr(b'\n', bytes)
}

/// How many bytes a piece has without the carriage return at its end.
pub fn stripped_len(piece: &[u8]) -> usize
    ensures stripped { take result piece.now ≡ strip_carriage_return piece.now }
    ensures len { length (strip_carriage_return piece.now) ≡ result }
    ensures within { result ≤ length piece.now }
{
    match piece {
        [.., b'\r'] => piece.len() - 1,
        _ => piece.len(),
    }
}

/// Takes bytes from the source until it is known what stands ahead. No more than `room` bytes are held.
pub fn look_ahead<S: Source>(
    buffer: &mut Buffer,
    source: &mut S,
    room: usize,
) -> Result<Ahead, ReadFailed>
    requires within { length buffer.old.held ≤ room }
    ensures bytes { S.tells → buffer.new.held ++ (S.state source.new).left ≡ buffer.old.held ++ (S.state source.old).left }
    ensures within { length buffer.new.held ≤ room }
    ensures few { length buffer.new.held ≤ HELD_LIMIT }
    ensures found { IfOk result (Finds room buffer.new.held) }
    ensures last { S.tells → result ≡ Ok Ahead.Last → (S.state source.new).left ≡ [] }
    ensures failed { OnErr result (NoNewline buffer.new.held) }
    ensures failed_short { OnErr result (length (strip_carriage_return buffer.new.held) ≤ LINE_LIMIT) }
    ensures cause { HasCause (S.state source.old).faults (S.state source.new).faults result }
{
    loop {
        if let Some(at) = newline_in(buffer.held()) {
            return Ok(Ahead::Newline(at));
        }
        if stripped_len(buffer.held()) > LINE_LIMIT {
            return Ok(Ahead::Long);
        }
        let held = buffer.held().len();
        if held == room {
            return Ok(Ahead::Limit);
        }
        if buffer.fill(source, room - held)? == 0 {
            return Ok(Ahead::Last);
        }
    }
}
