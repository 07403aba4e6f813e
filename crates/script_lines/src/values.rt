//! The values of words in hexadecimal digits (this profile's own).

ghost use Rattle.std.specs.Prelude.{◌≤◌, ℕ, List, length, take, IfSome, MatchOption};
ghost use Rattle.script_lines.specs.Words.{Reads, SpellsAid, SpellsByte, SpellsLevel, SpellsSome, SpellsStatus, SpellsUpTo};

use apdu_core::Status;
use arrayvec::ArrayVec;
use card_types::{Aid, Level};

// Fills the room with the bytes of a word that spells so many.
fn decode(word: &[u8], room: &mut [u8]) -> Option<()>
    ensures { MatchOption result ((bytes : List ℕ) → SpellsSome (length room.old) word.now bytes → ⊥) (λ _. SpellsSome (length room.old) word.now room.new) }
{
    match hex::decode_to_slice(word, room) {
        Ok(()) => Some(()),
        Err(_) => None,
    }
}

/// `N` bytes.
#[tactic(auto, unfolding(crate::specs::Words::SpellsSome))]
pub fn array<const N: usize>(word: &[u8]) -> Option<[u8; N]>
    ensures { Reads (SpellsSome N word.now) result }
{
    let mut bytes = [0; N];
    decode(word, &mut bytes)?;
    Some(bytes)
}

/// One byte at least, and at most `N`, in the front of `room`: how many they are.
#[tactic(auto, unfolding(crate::specs::Words::SpellsSome, crate::specs::Words::SpellsUpTo))]
pub fn front<const N: usize>(word: &[u8], room: &mut [u8; N]) -> Option<usize>
    ensures spelled { MatchOption result ((bytes : List ℕ) → SpellsUpTo N word.now bytes → ⊥) (λ count. SpellsUpTo N word.now (take count room.new)) }
    ensures within { IfSome result (λ count. count ≤ N) }
{
    let count = word.len() / 2;
    if count < 1 || count > N {
        return None;
    }
    decode(word, &mut room[..count])?;
    Some(count)
}

/// One byte at least, and at most `N`.
#[tactic(auto, unfolding(crate::specs::Words::SpellsUpTo))]
pub fn bytes<const N: usize>(word: &[u8]) -> Option<ArrayVec<u8, N>>
    ensures { Reads (λ bytes. SpellsUpTo N word.now bytes.items) result }
{
    let mut room = [0; N];
    let count = front(word, &mut room)?;
    let mut bytes = ArrayVec::new();
    bytes.try_extend_from_slice(&room[..count]).ok()?;
    Some(bytes)
}

/// The byte that two digits spell.
#[tactic(auto, unfolding(crate::specs::Words::SpellsSome, crate::specs::Words::SpellsByte))]
pub fn byte(word: &[u8]) -> Option<u8>
    ensures { Reads (SpellsByte word.now) result }
{
    match array::<1>(word) {
        Some(bytes) => Some(bytes[0]),
        None => None,
    }
}

/// The security level whose code two digits spell.
#[tactic(auto, unfolding(crate::specs::Words::SpellsByte))]
pub fn level(word: &[u8]) -> Option<Level>
    ensures { Reads (SpellsLevel word.now) result }
{
    let code = byte(word)?;
    Level::from_code(code)
}

/// The status word that four digits spell.
#[tactic(auto, unfolding(crate::specs::Words::SpellsStatus, crate::specs::Words::SpellsSome))]
pub fn status(word: &[u8]) -> Option<Status>
    ensures { Reads (SpellsStatus word.now) result }
{
    let bytes = array(word)?;
    Some(Status(u16::from_be_bytes(bytes)))
}

/// An AID.
#[tactic(auto, unfolding(crate::specs::Words::SpellsAid, crate::specs::Words::SpellsUpTo))]
pub fn aid(word: &[u8]) -> Option<Aid>
    ensures { Reads (SpellsAid word.now) result }
{
    let bytes: ArrayVec<u8, 16> = bytes(word)?;
    Aid::new(&bytes)
}
