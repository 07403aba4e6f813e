//! The numbers that definitions read from the code, each against its literal.

ghost use Rattle.std.specs.Prelude.{◌≡◌};
ghost use Rattle.io_edge.specs.declared.line.TheConstants.{HELD_LIMIT, INPUT_LIMIT, LINE_LIMIT};

/// How many bytes of an input are taken, how many are held, and how many a line has, at most.
pub fn constants()
    ensures input_limit { INPUT_LIMIT ≡ 67108864 }
    ensures held_limit { HELD_LIMIT ≡ 16384 }
    ensures line_limit { LINE_LIMIT ≡ 522 }
{}
