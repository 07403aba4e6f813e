//! The lines that are written.

ghost use Rattle.std.specs.Prelude.{◌≡◌, ◌≤◌, ◌++◌, ℕ, length, take, OnOk, OnErr};
ghost use Rattle.faults.specs.Faults.{HasCause, next_count};
ghost use Rattle.hex.specs.Hex.{encode_lower};
ghost use Rattle.host_tool.specs.Exchange.{command_line, reset_line};

use arrayvec::ArrayVec;
use io_edge::{Sink, WriteFailed};
use line_text::push_hex;

/// How many bytes of a command go by one write, at most: those of the longest short command.
const PIECE: usize = 261;

const RESET: &[u8] = b"reset\n";

// The digits of a piece of a command, with room for a newline.
fn digits(piece: &[u8]) -> ArrayVec<u8, 523>
    requires { length piece.now ≤ PIECE }
    ensures { result.items ≡ encode_lower piece.now }
{
    let mut line = ArrayVec::new();
    push_hex(piece, &mut line);
    line
}

// The digits of the last piece of a command, and a newline.
fn last_line(piece: &[u8]) -> ArrayVec<u8, 523>
    requires { length piece.now ≤ PIECE }
    ensures { result.items ≡ command_line piece.now }
{
    let mut line = digits(piece);
    line.push(b'\n');
    line
}

/// Writes a line by one write, and hands it on.
pub fn hand_on<K: Sink>(line: &[u8], sink: &mut K) -> Result<(), WriteFailed>
    ensures ok { K.tells → OnOk result ((K.state sink.new).written ≡ (K.state sink.old).written ++ line.now) }
    ensures err { K.tells → OnErr result ((n : ℕ) × ((K.state sink.new).written ≡ (K.state sink.old).written ++ take n line.now)) }
    ensures handed_on { K.tells → OnOk result ((K.state sink.new).handed_on ≡ (K.state sink.new).written) }
    ensures flushes { OnOk result ((K.state sink.new).flushes ≡ next_count (K.state sink.old).flushes) }
    ensures cause { HasCause (K.state sink.old).faults (K.state sink.new).faults result }
{
    sink.write_all(line)?;
    sink.flush()
}

/// Writes a command as one line of hexadecimal digits, and hands it on: by one write, but for a command that is longer than any short one.
pub fn write_command<K: Sink>(command: &[u8], sink: &mut K) -> Result<(), WriteFailed>
    ensures ok { K.tells → OnOk result ((K.state sink.new).written ≡ (K.state sink.old).written ++ command_line command.now) }
    ensures err { K.tells → OnErr result ((n : ℕ) × ((K.state sink.new).written ≡ (K.state sink.old).written ++ take n (command_line command.now))) }
    ensures handed_on { K.tells → OnOk result ((K.state sink.new).handed_on ≡ (K.state sink.new).written) }
    ensures cause { HasCause (K.state sink.old).faults (K.state sink.new).faults result }
{
    let mut rest = command;
    while rest.len() > PIECE {
        let (piece, after) = rest.split_at(PIECE);
        sink.write_all(&digits(piece))?;
        rest = after;
    }
    hand_on(&last_line(rest), sink)
}

/// Writes a reset, and hands it on.
pub fn write_reset<K: Sink>(sink: &mut K) -> Result<(), WriteFailed>
    ensures ok { K.tells → OnOk result ((K.state sink.new).written ≡ (K.state sink.old).written ++ reset_line) }
    ensures err { K.tells → OnErr result ((n : ℕ) × ((K.state sink.new).written ≡ (K.state sink.old).written ++ take n reset_line)) }
    ensures handed_on { K.tells → OnOk result ((K.state sink.new).handed_on ≡ (K.state sink.new).written) }
    ensures cause { HasCause (K.state sink.old).faults (K.state sink.new).faults result }
{
    hand_on(RESET, sink)
}
