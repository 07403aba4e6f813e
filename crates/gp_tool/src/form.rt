//! The forms of a line.

ghost use Rattle.std.specs.Prelude.{◌≡◌, ◌≤◌, ◌<◌, ◌*◌, ℕ, List, length, take, IfSome, Ok, MatchOption};
ghost use Rattle.gp_tool.specs.Prelude.{FitsRoom, IsForCard, SpellsInputs, decode_of, inputs_of};

use crate::bytes::is_same;
use io_edge::LINE_LIMIT;
use script_tool::says_nothing;

/// How many bytes a line can spell, at most.
pub const COMMAND_LIMIT: usize = LINE_LIMIT / 2;

/// What a line says.
#[derive(Clone, Copy)]
pub enum Form {
    /// Nothing: it is blank or a comment.
    Nothing,
    /// Power off and on.
    Reset,
    /// A command of so many bytes.
    Command(usize),
}

/// Decodes hexadecimal digits into the front of `bytes`, and answers how many bytes they are.
pub fn decode(line: &[u8], bytes: &mut [u8; COMMAND_LIMIT]) -> Option<usize>
    requires { length line.now ≤ LINE_LIMIT }
    ensures { MatchOption result ((out : List ℕ) → decode_of line.now ≡ Ok out → ⊥)
        (λ count. (2 * count ≡ length line.now) × (decode_of line.now ≡ Ok (take count bytes.new))) }
{
    let count = line.len() / 2;
    match hex::decode_to_slice(line, &mut bytes[..count]) {
        Ok(()) => Some(count),
        Err(_) => None,
    }
}

/// What a line says, with the bytes of a command in the front of `bytes`, or nothing where it is malformed.
pub fn read_form(line: &[u8], bytes: &mut [u8; COMMAND_LIMIT]) -> Option<Form>
    requires { length line.now ≤ LINE_LIMIT }
    ensures spelled { MatchOption result (IsForCard line.now → ⊥) (λ form. SpellsInputs line.now (inputs_of form bytes.new)) }
    ensures fits { IfSome result FitsRoom }
{
    if says_nothing(line) {
        return Some(Form::Nothing);
    }
    if is_same(line, b"reset") {
        return Some(Form::Reset);
    }
    let count = decode(line, bytes)?;
    Some(Form::Command(count))
}
