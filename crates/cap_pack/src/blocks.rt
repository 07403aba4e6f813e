//! The blocks of a CAP file.

ghost use Rattle.std.specs.Prelude.{◌≡◌, ◌*◌, ◌≤◌, drop, length, take};
ghost use Rattle.script_tool.specs.Load.{block_element};
ghost use Rattle.script_tool.specs.Loading.{block_count};
ghost use Rattle.cap_pack.specs.Pack.{block_size};
ghost use Rattle.cap_pack.specs.declared.limit.TheConstants.{CAP_LIMIT};

use crate::limit::CAP_LIMIT;
use arrayvec::ArrayVec;
use script_tool::{Piece, part, tag_and_length};

/// How many bytes a block has, but for the last one.
const BLOCK_SIZE: usize = 239;

/// How many blocks the bytes make.
pub fn count(bytes: &[u8]) -> usize
    requires { length bytes.now ≤ CAP_LIMIT }
    ensures count { result ≡ block_count block_size (block_element bytes.now) }
    ensures few { result ≤ 138 }
{
    let header = tag_and_length(bytes.len() as u16);
    (header.len() + bytes.len()).div_ceil(BLOCK_SIZE)
}

/// The block with this number, counted from 0.
pub fn block(bytes: &[u8], number: usize) -> Piece
    requires short { length bytes.now ≤ CAP_LIMIT }
    requires few { number ≤ 138 }
    ensures block { result.items ≡ take block_size (drop (number * block_size) (block_element bytes.now)) }
    ensures size { length result.items ≤ block_size }
{
    let header = tag_and_length(bytes.len() as u16);
    let sent = number * BLOCK_SIZE;
    let front = part(&header, sent, BLOCK_SIZE);
    let back = part(
        bytes,
        sent.saturating_sub(header.len()),
        BLOCK_SIZE - front.len(),
    );
    let mut block = ArrayVec::new();
    block.try_extend_from_slice(front).unwrap();
    block.try_extend_from_slice(back).unwrap();
    block
}
