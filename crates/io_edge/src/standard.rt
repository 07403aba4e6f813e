//! The adapters over std's readers and writers: the edge that is trusted to give and take the right bytes.

ghost use Rattle.std.specs.Prelude.{◌≡◌, ◌<◌, ◌≤◌, [], length, IfOk, OnOk};
ghost use Rattle.std.specs.Io.KnownBytes.{Appends, Keeps, ReadConsumes};
ghost use Rattle.faults.specs.Faults.{HasCause, next_count};
ghost use Rattle.io_edge.specs.Counted.{CountedReader, CountedWriter};

use crate::sink::{Sink, WriteFailed};
use crate::source::{ReadFailed, Source};
use std::io::{Read, Write};
use std::marker::Model;

/// A reader of std. It counts the errors that the reader answers. As a source its content is not known.
#[derive(Drop)]
pub struct StdSource<R: Read> {
    inner: R,
    faults: u64,
}

// Contracts see the reader and the count of faults.
impl<R: Read> Model for StdSource<R> {
    ghost Value = { CountedReader R };

    ghost view = { λ s. record { inner = s.inner; faults = s.faults } };
}

impl<R: Read> StdSource<R> {
    /// A source over the reader, with no faults yet.
    pub fn new(inner: R) -> StdSource<R>
        ensures { result ≡ record { inner = inner; faults = 0 } }
    {
        StdSource { inner, faults: 0 }
    }
}

impl<R: Read> Source for StdSource<R> {
    ghost tells = { ⊥ };

    ghost state = { λ s. record { left = []; faults = s.faults } };

    fn read_some(&mut self, buf: &mut [u8]) -> Result<usize, ReadFailed>
        requires room { 0 < length buf.old }
        ensures bound { IfOk result (λ count. count ≤ length buf.new) }
        ensures cause { HasCause self.old.faults self.new.faults result }

        // What the reader tells of its bytes holds of these.
        ensures told { ReadConsumes (R.remaining self.old.inner) (R.remaining self.new.inner) result buf.new }
    {
        match self.inner.read(buf) {
            Ok(count) => Ok(count),
            Err(_) => {
                self.faults = self.faults.saturating_add(1);
                Err(ReadFailed)
            }
        }
    }
}

/// A writer of std. It counts the flushes, and the errors that the writer answers. As a sink its content is not known:
/// of a flush the traits of std say no more than that the bytes stay.
#[derive(Drop)]
pub struct StdSink<W: Write> {
    inner: W,
    flushes: u64,
    faults: u64,
}

// Contracts see the writer and the counts.
impl<W: Write> Model for StdSink<W> {
    ghost Value = { CountedWriter W };

    ghost view = { λ s. record { inner = s.inner; flushes = s.flushes; faults = s.faults } };
}

impl<W: Write> StdSink<W> {
    /// A sink over the writer, with no flushes and no faults yet.
    pub fn new(inner: W) -> StdSink<W>
        ensures { result ≡ record { inner = inner; flushes = 0; faults = 0 } }
    {
        StdSink {
            inner,
            flushes: 0,
            faults: 0,
        }
    }
}

impl<W: Write> Sink for StdSink<W> {
    ghost tells = { ⊥ };

    ghost state = { λ s. record { written = []; handed_on = []; flushes = s.flushes; faults = s.faults } };

    fn write_all(&mut self, bytes: &[u8]) -> Result<(), WriteFailed>
        ensures flushes { self.new.flushes ≡ self.old.flushes }
        ensures cause { HasCause self.old.faults self.new.faults result }

        // What the writer tells of its bytes holds of these.
        ensures told { OnOk result (Appends (W.contents self.old.inner) (W.contents self.new.inner) bytes.now) }
    {
        match self.inner.write_all(bytes) {
            Ok(()) => Ok(()),
            Err(_) => {
                self.faults = self.faults.saturating_add(1);
                Err(WriteFailed)
            }
        }
    }

    fn flush(&mut self) -> Result<(), WriteFailed>
        ensures flushes { self.new.flushes ≡ next_count self.old.flushes }
        ensures cause { HasCause self.old.faults self.new.faults result }

        // What the writer tells of its bytes holds of these.
        ensures told { Keeps (W.contents self.old.inner) (W.contents self.new.inner) }
    {
        self.flushes = self.flushes.saturating_add(1);
        match self.inner.flush() {
            Ok(()) => Ok(()),
            Err(_) => {
                self.faults = self.faults.saturating_add(1);
                Err(WriteFailed)
            }
        }
    }
}
