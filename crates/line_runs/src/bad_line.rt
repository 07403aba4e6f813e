//! The line that is written of a line which is not taken.

ghost use Rattle.std.specs.Prelude.{◌≡◌, ◌++◌, ℕ, take, OnOk, OnErr};
ghost use Rattle.faults.specs.Faults.{HasCause};
ghost use Rattle.line_runs.specs.Outside.{bad_line};

use arrayvec::ArrayVec;
use io_edge::{Sink, WriteFailed};
use line_text::{push_decimal, push_word};

/// Writes the number of a line that is malformed or too long.
pub fn write_bad_line<K: Sink>(number: u32, sink: &mut K) -> Result<(), WriteFailed>
    ensures ok { K.tells → OnOk result ((K.state sink.new).written ≡ (K.state sink.old).written ++ bad_line number) }
    ensures err { K.tells → OnErr result ((n : ℕ) × ((K.state sink.new).written ≡ (K.state sink.old).written ++ take n (bad_line number))) }
    ensures flushes { (K.state sink.new).flushes ≡ (K.state sink.old).flushes }
    ensures cause { HasCause (K.state sink.old).faults (K.state sink.new).faults result }
{
    let mut line = ArrayVec::<u8, 46>::new();
    push_word(b"line ", &mut line);
    push_decimal(number as usize, &mut line);
    push_word(b"\n", &mut line);
    sink.write_all(&line)
}
