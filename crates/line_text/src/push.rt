//! A line of text in a buffer, word by word.

ghost use Rattle.std.specs.Prelude.{◌≡◌, ◌≤◌, ◌+◌, ◌*◌, ◌++◌, length, decimal};
ghost use Rattle.arrayvec.specs.ArrayVec.{array_vec_len};
ghost use Rattle.hex.specs.Hex.{encode_lower};

use arrayvec::ArrayVec;
use itoa::Buffer;

/// How many bytes become digits at once. Few, since the room for their digits is set to zeros first.
const PIECE: usize = 32;

/// Appends bytes as they are.
pub fn push_word<const N: usize>(word: &[u8], line: &mut ArrayVec<u8, N>)
    requires room { array_vec_len line.old + length word.now ≤ N }
    ensures written { line.new.items ≡ line.old.items ++ word.now }
    ensures size { array_vec_len line.new ≡ array_vec_len line.old + length word.now }
{
    line.try_extend_from_slice(word).unwrap();
}

// Appends few bytes in hexadecimal digits.
fn push_piece<const N: usize>(piece: &[u8], line: &mut ArrayVec<u8, N>)
    requires few { length piece.now ≤ PIECE }
    requires room { array_vec_len line.old + 2 * length piece.now ≤ N }
    ensures written { line.new.items ≡ line.old.items ++ encode_lower piece.now }
    ensures size { array_vec_len line.new ≡ array_vec_len line.old + 2 * length piece.now }
{
    let mut digits = [0; 2 * PIECE];
    let count = 2 * piece.len();
    let _ = hex::encode_to_slice(piece, &mut digits[..count]);
    push_word(&digits[..count], line);
}

/// Appends bytes in hexadecimal digits.
pub fn push_hex<const N: usize>(bytes: &[u8], line: &mut ArrayVec<u8, N>)
    requires room { array_vec_len line.old + 2 * length bytes.now ≤ N }
    ensures written { line.new.items ≡ line.old.items ++ encode_lower bytes.now }
    ensures size { array_vec_len line.new ≡ array_vec_len line.old + 2 * length bytes.now }
{
    let mut rest = bytes;
    while !rest.is_empty() {
        let (piece, after) = rest.split_at(rest.len().min(PIECE));
        push_piece(piece, line);
        rest = after;
    }
}

/// Appends a number in decimal digits.
pub fn push_decimal<const N: usize>(number: usize, line: &mut ArrayVec<u8, N>)
    requires room { array_vec_len line.old + 40 ≤ N }
    ensures written { line.new.items ≡ line.old.items ++ decimal number }
    ensures size { array_vec_len line.new ≤ array_vec_len line.old + 40 }
{
    let mut digits = Buffer::new();
    push_word(digits.format(number).as_bytes(), line);
}
