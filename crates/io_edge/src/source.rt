//! What bytes come from.

ghost use Rattle.std.specs.Prelude.{◌≡◌, ◌<◌, ◌≤◌, ◌++◌, [], length, take, Ok, IfOk, OnErr};
ghost use Rattle.faults.specs.Faults.{HasCause};
ghost use Rattle.io_edge.specs.Streams.{SourceState};

/// A read was refused, and nothing was taken.
#[derive(Clone, Copy, Debug, PartialEq, Eq)]
pub struct ReadFailed;

/// A stream of bytes that counts its faults. What it tells of its bytes is optional.
pub trait Source {
    // A fact where what is left is known, and `⊥` where it is not.
    ghost tells: { Type 0 };

    // What contracts see of it.
    ghost state: { Self → SourceState };

    /// Takes the next bytes, puts them in front of the buffer, and answers how many they are. It answers 0 only
    /// at the end. The buffer is not empty.
    fn read_some(&mut self, buf: &mut [u8]) -> Result<usize, ReadFailed>
        requires room { 0 < length buf.old }
        ensures bound { IfOk result (λ count. count ≤ length buf.new) }
        ensures bytes { tells → IfOk result (λ count. (state self.old).left ≡ take count buf.new ++ (state self.new).left) }
        ensures end { tells → result ≡ Ok 0 → (state self.new).left ≡ [] }
        ensures err { tells → OnErr result ((state self.new).left ≡ (state self.old).left) }
        ensures cause { HasCause ((state self.old).faults) ((state self.new).faults) result };
}
