//! The blocks of an Executable Load File (GlobalPlatform Card Specification 2.3.1, 11.6).

ghost use Rattle.std.specs.Prelude.{◌≡◌, ◌∷◌};
ghost use Rattle.script_lines.specs.Prelude.{apdu_of, block_command, length_field};

use apdu_core::Command;
use arrayvec::ArrayVec;

/// The tag of a Load File Data Block of so many bytes, and the length.
pub fn tag_and_length(size: u16) -> ArrayVec<u8, 4>
    ensures { result.items ≡ 0xC4 ∷ length_field size }
{
    let [high, low] = size.to_be_bytes();
    let mut header = ArrayVec::new();
    header.push(0xc4);
    if size < 0x80 {
        header.push(low);
    } else if size < 0x100 {
        header.push(0x81);
        header.push(low);
    } else {
        header.push(0x82);
        header.push(high);
        header.push(low);
    }
    header
}

/// LOAD of a block.
pub fn load_block(last: bool, number: u8, block: &[u8]) -> Command<'_>
    ensures { apdu_of result ≡ block_command last number block.now }
{
    Command {
        class: 0x80,
        ins: 0xe8,
        p1: if last { 0x80 } else { 0x00 },
        p2: number,
        body: block,
        le: None,
    }
}
