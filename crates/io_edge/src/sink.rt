//! What bytes go to.

ghost use Rattle.std.specs.Prelude.{◌≡◌, ◌++◌, ℕ, take, OnOk, OnErr};
ghost use Rattle.faults.specs.Faults.{HasCause, next_count};
ghost use Rattle.io_edge.specs.Streams.{SinkState};

/// A write or a flush was refused.
#[derive(Clone, Copy, Debug, PartialEq, Eq)]
pub struct WriteFailed;

/// A stream that bytes are appended to, which counts its flushes and its faults. What it tells of its bytes is
/// optional.
pub trait Sink {
    // A fact where what was written and handed on is known, and `⊥` where it is not.
    ghost tells: { Type 0 };

    // What contracts see of it.
    ghost state: { Self → SinkState };

    /// Appends all the bytes. After an `Err` the first of them may have been appended.
    fn write_all(&mut self, bytes: &[u8]) -> Result<(), WriteFailed>
        ensures ok { tells → OnOk result ((state self.new).written ≡ (state self.old).written ++ bytes.now) }
        ensures err { tells → OnErr result ((n : ℕ) × ((state self.new).written ≡ (state self.old).written ++ take n bytes.now)) }
        ensures flushes { (state self.new).flushes ≡ (state self.old).flushes }
        ensures cause { HasCause ((state self.old).faults) ((state self.new).faults) result };

    /// Hands on what was written, and appends nothing.
    fn flush(&mut self) -> Result<(), WriteFailed>
        ensures same { tells → (state self.new).written ≡ (state self.old).written }
        ensures handed_on { tells → OnOk result ((state self.new).handed_on ≡ (state self.new).written) }
        ensures flushes { (state self.new).flushes ≡ next_count (state self.old).flushes }
        ensures cause { HasCause ((state self.old).faults) ((state self.new).faults) result };
}
