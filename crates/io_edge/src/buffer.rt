//! Bytes that were taken from a source and are not given yet.

ghost use Rattle.std.specs.Prelude.{◌≡◌, ◌<◌, ◌≤◌, ◌+◌, ◌-◌, ◌*◌, ◌++◌, [], length, take, drop, slice_range, OnErr, IfOk, Ok};
ghost use Rattle.faults.specs.Faults.{HasCause};
ghost use Rattle.io_edge.specs.Buffered.{Buffered};
ghost use Rattle.io_edge.specs.declared.buffer.TheConstants.{ROOM};
ghost use Rattle.io_edge.specs.declared.line.TheConstants.{HELD_LIMIT};

use crate::line::HELD_LIMIT;
use crate::source::{ReadFailed, Source};
use std::marker::Model;

/// How many bytes are held, at most.
pub const ROOM: usize = HELD_LIMIT;

// Copies `len` bytes from `start` on to the front.
fn move_front(bytes: &mut [u8; ROOM], start: usize, len: usize)
    requires apart { len ≤ start }
    requires within { start + len ≤ ROOM }
    ensures { take len bytes.new ≡ slice_range bytes.old start (start + len) }
{
    let (front, back) = bytes.split_at_mut(start);
    front[..len].copy_from_slice(&back[..len]);
}

// Moves the bytes from `start` to `end` to the front, unless they overlap with that place.
fn settle(bytes: &mut [u8; ROOM], start: &mut usize, end: &mut usize)
    requires order { start.old ≤ end.old }
    requires within { end.old ≤ ROOM }
    ensures held { slice_range bytes.new start.new end.new ≡ slice_range bytes.old start.old end.old }
    ensures order { start.new ≤ end.new }
    ensures within { end.new ≤ ROOM }
    ensures room { 2 * (end.old - start.old) < ROOM → end.new < ROOM }
{
    let len = *end - *start;
    if len <= *start {
        move_front(bytes, *start, len);
        *start = 0;
        *end = len;
    }
}

// Reads once into the front of a buffer, at most `most` bytes.
fn read_front<S: Source>(source: &mut S, buf: &mut [u8], most: usize) -> Result<usize, ReadFailed>
    requires some { 0 < most }
    requires room { 0 < length buf.old }
    ensures within { IfOk result (λ count. (count ≤ length buf.new) × (count ≤ most)) }
    ensures bytes { S.tells → IfOk result (λ count. (S.state source.old).left ≡ take count buf.new ++ (S.state source.new).left) }
    ensures end { S.tells → result ≡ Ok 0 → (S.state source.new).left ≡ [] }
    ensures err { S.tells → OnErr result ((S.state source.new).left ≡ (S.state source.old).left) }
    ensures cause { HasCause (S.state source.old).faults (S.state source.new).faults result }
{
    let space = most.min(buf.len());
    source.read_some(&mut buf[..space])
}

// Reads once after the first `end` bytes, at most `most` bytes.
fn read_after<S: Source>(
    source: &mut S,
    bytes: &mut [u8; ROOM],
    end: usize,
    most: usize,
) -> Result<usize, ReadFailed>
    requires some { 0 < most }
    requires room { end < ROOM }
    ensures same { take end bytes.new ≡ take end bytes.old }
    ensures within { IfOk result (λ count. (end + count ≤ ROOM) × (count ≤ most)) }
    ensures bytes { S.tells → IfOk result (λ count. (S.state source.old).left ≡ take count (drop end bytes.new) ++ (S.state source.new).left) }
    ensures end { S.tells → result ≡ Ok 0 → (S.state source.new).left ≡ [] }
    ensures err { S.tells → OnErr result ((S.state source.new).left ≡ (S.state source.old).left) }
    ensures cause { HasCause (S.state source.old).faults (S.state source.new).faults result }
{
    read_front(source, &mut bytes[end..], most)
}

// Reads once, and moves `end` past what was read.
#[tactic(auto, using(crate::proofs::Ranges::ranges))]
fn read_on<S: Source>(
    source: &mut S,
    bytes: &mut [u8; ROOM],
    start: usize,
    end: &mut usize,
    most: usize,
) -> Result<usize, ReadFailed>
    requires some { 0 < most }
    requires order { start ≤ end.old }
    requires room { end.old < ROOM }
    ensures same { slice_range bytes.new start end.old ≡ slice_range bytes.old start end.old }
    ensures within { IfOk result (λ count. (end.new ≡ end.old + count) × (end.new ≤ ROOM)) }
    ensures count { IfOk result (λ count. (length (slice_range bytes.new start end.new) ≡ length (slice_range bytes.old start end.old) + count) × (count ≤ most)) }
    ensures bytes { S.tells → IfOk result (λ count. slice_range bytes.new start end.new ++ (S.state source.new).left ≡ slice_range bytes.old start end.old ++ (S.state source.old).left) }
    ensures end { S.tells → result ≡ Ok 0 → (S.state source.new).left ≡ [] }
    ensures err { OnErr result (end.new ≡ end.old) }
    ensures err_source { S.tells → OnErr result ((S.state source.new).left ≡ (S.state source.old).left) }
    ensures cause { HasCause (S.state source.old).faults (S.state source.new).faults result }
{
    let count = read_after(source, bytes, *end, most)?;
    *end += count;
    Ok(count)
}

/// The text that was cut off last, and the bytes held after it.
#[derive(Drop)]
pub struct Buffer {
    bytes: [u8; ROOM],
    // Where the text cut last begins and ends.
    from: usize,
    to: usize,
    // Where the bytes held begin and end.
    start: usize,
    end: usize,
}

impl Model for Buffer {
    ghost Value = { Buffered };

    ghost view = { λ b. record { text = slice_range b.bytes b.from b.to; held = slice_range b.bytes b.start b.end } };

    ghost invariant = { λ b. (b.from ≤ b.to) × (b.to ≤ ROOM) × (b.start ≤ b.end) × (b.end ≤ ROOM) };
}

impl Buffer {
    /// A buffer with no text and no bytes.
    pub fn new() -> Buffer
        ensures { result ≡ record { text = []; held = [] } }
    {
        Buffer {
            bytes: [0; ROOM],
            from: 0,
            to: 0,
            start: 0,
            end: 0,
        }
    }

    /// The bytes held.
    pub fn held(&self) -> &[u8]
        ensures held { result.now ≡ self.now.held }
        ensures room { length self.now.held ≤ HELD_LIMIT }
    {
        &self.bytes[..self.end][self.start..]
    }

    /// The text cut last.
    pub fn text(&self) -> &[u8]
        ensures { result.now ≡ self.now.text }
    {
        &self.bytes[..self.to][self.from..]
    }

    /// Cuts off the first `whole` bytes held, and keeps the first `text` of them as the text.
    #[tactic(auto, using(crate::proofs::Ranges::ranges))]
    pub fn cut(&mut self, text: usize, whole: usize)
        requires within { text ≤ whole }
        requires held { whole ≤ length self.old.held }
        ensures text { self.new.text ≡ take text self.old.held }
        ensures held { self.new.held ≡ drop whole self.old.held }
    {
        self.from = self.start;
        self.to = self.start + text;
        self.start += whole;
    }

    /// Takes bytes from the source once, at most `most`, and answers how many. It answers 0 only at the end.
    pub fn fill<S: Source>(&mut self, source: &mut S, most: usize) -> Result<usize, ReadFailed>
        requires some { 0 < most }
        requires room { 2 * length self.old.held < ROOM }
        ensures bytes { S.tells → self.new.held ++ (S.state source.new).left ≡ self.old.held ++ (S.state source.old).left }
        ensures count { IfOk result (λ count. (length self.new.held ≡ length self.old.held + count) × (count ≤ most)) }
        ensures front { take (length self.old.held) self.new.held ≡ self.old.held }
        ensures end { S.tells → result ≡ Ok 0 → (S.state source.new).left ≡ [] }
        ensures err { OnErr result (self.new.held ≡ self.old.held) }
        ensures cause { HasCause (S.state source.old).faults (S.state source.new).faults result }
    {
        settle(&mut self.bytes, &mut self.start, &mut self.end);
        read_on(source, &mut self.bytes, self.start, &mut self.end, most)
    }
}
