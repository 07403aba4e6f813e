//! A sink that keeps what is written in memory.

ghost use Rattle.std.specs.Prelude.{◌≡◌, ◌⊎◌, ◌↔◌, ◌+◌, ◌<◌, ◌≤◌, ◌++◌, [], ℕ, length, take, vec_len, vec_capacity, IsErr, IfOk, OnOk, OnErr, Contains};
ghost use Rattle.faults.specs.Faults.{HasCause, next_count};
ghost use Rattle.io_edge.specs.Memory.{MemorySink};

use crate::calls::is_refused;
use crate::sink::{Sink, WriteFailed};
use std::alloc::{AllocError, Global};
use std::marker::Model;

/// Bytes in memory that are appended to, up to a room, with calls that fail by number.
#[derive(Drop)]
pub struct MemSink {
    bytes: Vec<u8>,
    // How many of the bytes were handed on.
    handed: usize,
    room: usize,
    fails: Vec<u32>,
    calls: u64,
    flushes: u64,
    faults: u64,
}

impl Model for MemSink {
    ghost Value = { MemorySink };

    ghost view = { λ s. record {
      written = s.bytes.items;
      handed_on = take s.handed s.bytes.items;
      room = s.room;
      fails = s.fails.items;
      calls = s.calls;
      flushes = s.flushes;
      faults = s.faults;
    } };

    ghost invariant = { λ s. (s.handed ≤ vec_len s.bytes) × (vec_len s.bytes ≤ s.room) × (s.room ≤ vec_capacity s.bytes) };
}

impl MemSink {
    /// An empty sink with room for so many bytes, which refuses the calls numbered in `fails`.
    /// Its calls of `write_all` and `flush` are numbered together, from 0. `AllocError` is want of memory for
    /// that room.
    pub fn new(alloc: Global, room: usize, fails: &[u32]) -> Result<MemSink, AllocError>
        ensures { IfOk result (λ s. s ≡ record {
          written = [];
          handed_on = [];
          room = room;
          fails = fails.now;
          calls = 0;
          flushes = 0;
          faults = 0;
        }) }
    {
        Ok(MemSink {
            bytes: Vec::with_capacity(alloc, room)?,
            handed: 0,
            room,
            fails: Vec::from_slice(alloc, fails)?,
            calls: 0,
            flushes: 0,
            faults: 0,
        })
    }

    /// The bytes that were written.
    pub fn written(&self) -> &[u8]
        ensures { result.now ≡ self.now.written }
    {
        &self.bytes
    }

    /// The bytes that were handed on: those that were written before the last flush that was not refused.
    pub fn handed_on(&self) -> &[u8]
        ensures { result.now ≡ self.now.handed_on }
    {
        &self.bytes[..self.handed]
    }

    /// How many calls of `flush` there were.
    pub fn flushes(&self) -> u64
        ensures { result ≡ self.now.flushes }
    {
        self.flushes
    }
}

impl Sink for MemSink {
    ghost tells = { Unit {0} };

    ghost state = { λ s. record { written = s.written; handed_on = s.handed_on; flushes = s.flushes; faults = s.faults } };

    fn write_all(&mut self, bytes: &[u8]) -> Result<(), WriteFailed>
        ensures ok { Unit {0} → OnOk result (self.new.written ≡ self.old.written ++ bytes.now) }
        ensures err { Unit {0} → OnErr result ((n : ℕ) × (self.new.written ≡ self.old.written ++ take n bytes.now)) }
        ensures flushes { self.new.flushes ≡ self.old.flushes }
        ensures cause { HasCause self.old.faults self.new.faults result }

        // It fails exactly where it was told to and where the bytes don't fit, and appends nothing then.
        ensures refused { IsErr result ↔ (Contains self.old.fails self.old.calls
            ⊎ (self.old.room < length self.old.written + length bytes.now)) }
        ensures nothing { OnErr result (self.new.written ≡ self.old.written) }
        ensures calls { self.new.calls ≡ next_count self.old.calls }
        ensures same { (self.new.handed_on ≡ self.old.handed_on) × (self.new.room ≡ self.old.room) × (self.new.fails ≡ self.old.fails) }
    {
        let refused = is_refused(&self.fails, &mut self.calls);
        if refused
            || bytes.len() > self.room - self.bytes.len()
            || self.bytes.extend_from_slice(bytes).is_err()
        {
            self.faults = self.faults.saturating_add(1);
            return Err(WriteFailed);
        }
        Ok(())
    }

    fn flush(&mut self) -> Result<(), WriteFailed>
        ensures same { Unit {0} → self.new.written ≡ self.old.written }
        ensures handed_on { Unit {0} → OnOk result (self.new.handed_on ≡ self.new.written) }
        ensures flushes { self.new.flushes ≡ next_count self.old.flushes }
        ensures cause { HasCause self.old.faults self.new.faults result }

        // It fails exactly where it was told to, and hands on nothing then.
        ensures refused { IsErr result ↔ Contains self.old.fails self.old.calls }
        ensures nothing { OnErr result (self.new.handed_on ≡ self.old.handed_on) }
        ensures calls { self.new.calls ≡ next_count self.old.calls }
        ensures kept { (self.new.room ≡ self.old.room) × (self.new.fails ≡ self.old.fails) }
    {
        self.flushes = self.flushes.saturating_add(1);
        if is_refused(&self.fails, &mut self.calls) {
            self.faults = self.faults.saturating_add(1);
            return Err(WriteFailed);
        }
        self.handed = self.bytes.len();
        Ok(())
    }
}
