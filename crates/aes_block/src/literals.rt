//! The numbers that clauses read from the code, each against its literal.

ghost use Rattle.std.specs.Prelude.{◌≡◌};

use crate::key_size::{Bits128, Bits192, Bits256, KeySize};

/// How many bytes the keys of each size have.
pub fn constants()
    ensures bits_128 { ⟦<Bits128 as KeySize>⟧.BYTES ≡ 16 }
    ensures bits_192 { ⟦<Bits192 as KeySize>⟧.BYTES ≡ 24 }
    ensures bits_256 { ⟦<Bits256 as KeySize>⟧.BYTES ≡ 32 }
{}
