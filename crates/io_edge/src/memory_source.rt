//! Sources over bytes in memory.

ghost use Rattle.std.specs.Prelude.{◌≡◌, ◌<◌, ◌≤◌, ◌↔◌, ◌++◌, List, [], ℕ, length, min, take, drop, vec_len, Ok, IsErr, IfOk, OnErr, Contains};
ghost use Rattle.faults.specs.Faults.{HasCause, next_count};
ghost use Rattle.io_edge.specs.Memory.{MemorySource};

use crate::calls::is_refused;
use crate::source::{ReadFailed, Source};
use std::alloc::{AllocError, Global};
use std::marker::Model;

/// Bytes in memory, given in pieces, with calls that fail by number.
#[derive(Drop)]
pub struct MemSource {
    bytes: Vec<u8>,
    at: usize,
    piece: usize,
    fails: Vec<u32>,
    calls: u64,
    faults: u64,
}

impl Model for MemSource {
    ghost Value = { MemorySource };

    ghost view = { λ s. record { left = drop s.at s.bytes.items; piece = s.piece; fails = s.fails.items; calls = s.calls; faults = s.faults } };

    ghost invariant = { λ s. (s.at ≤ vec_len s.bytes) × (0 < s.piece) };
}

impl MemSource {
    /// A source of these bytes that gives at most `piece` of them a call, and refuses the calls numbered in
    /// `fails`, from 0. `AllocError` is want of memory for its copies.
    pub fn new(
        alloc: Global,
        bytes: &[u8],
        piece: usize,
        fails: &[u32],
    ) -> Result<MemSource, AllocError>
        requires { 0 < piece }
        ensures { IfOk result (λ s. s ≡ record { left = bytes.now; piece = piece; fails = fails.now; calls = 0; faults = 0 }) }
    {
        Ok(MemSource {
            bytes: Vec::from_slice(alloc, bytes)?,
            at: 0,
            piece,
            fails: Vec::from_slice(alloc, fails)?,
            calls: 0,
            faults: 0,
        })
    }
}

// Copies the first bytes of one slice over the first of another, as many as both have, and at most `most`.
fn copy_front(from: &[u8], to: &mut [u8], most: usize) -> usize
    ensures count { result ≡ min most (min (length to.old) (length from.now)) }
    ensures copied { from.now ≡ take result to.new ++ drop result from.now }
{
    let count = most.min(to.len().min(from.len()));
    to[..count].copy_from_slice(&from[..count]);
    count
}

impl Source for MemSource {
    ghost tells = { Unit {0} };

    ghost state = { λ s. record { left = s.left; faults = s.faults } };

    fn read_some(&mut self, buf: &mut [u8]) -> Result<usize, ReadFailed>
        requires room { 0 < length buf.old }
        ensures bound { IfOk result (λ count. count ≤ length buf.new) }
        ensures bytes { Unit {0} → IfOk result (λ count. self.old.left ≡ take count buf.new ++ self.new.left) }
        ensures end { Unit {0} → result ≡ Ok 0 → self.new.left ≡ [] }
        ensures err { Unit {0} → OnErr result (self.new.left ≡ self.old.left) }
        ensures cause { HasCause self.old.faults self.new.faults result }

        // It fails exactly where it was told to, and gives all that may be given at once.
        ensures refused { IsErr result ↔ Contains self.old.fails self.old.calls }
        ensures count { IfOk result (λ count. count ≡ min self.old.piece (min (length buf.old) (length self.old.left))) }
        ensures calls { self.new.calls ≡ next_count self.old.calls }
        ensures same { (self.new.piece ≡ self.old.piece) × (self.new.fails ≡ self.old.fails) }
    {
        if is_refused(&self.fails, &mut self.calls) {
            self.faults = self.faults.saturating_add(1);
            return Err(ReadFailed);
        }
        let count = copy_front(&self.bytes[self.at..], buf, self.piece);
        self.at += count;
        Ok(count)
    }
}

/// The bytes of a slice, with no faults.
#[derive(Drop)]
pub struct SliceSource<'a> {
    rest: &'a [u8],
}

impl<'a> Model for SliceSource<'a> {
    ghost Value = { List ℕ };

    ghost view = { λ s. s.rest.now };
}

impl<'a> SliceSource<'a> {
    /// A source of these bytes, which never fails.
    pub fn new(bytes: &'a [u8]) -> SliceSource<'a>
        ensures { result ≡ bytes.now }
    {
        SliceSource { rest: bytes }
    }
}

impl Source for SliceSource<'_> {
    ghost tells = { Unit {0} };

    ghost state = { λ s. record { left = s; faults = 0 } };

    fn read_some(&mut self, buf: &mut [u8]) -> Result<usize, ReadFailed> {
        let count = copy_front(self.rest, buf, usize::MAX);
        self.rest = &self.rest[count..];
        Ok(count)
    }
}
