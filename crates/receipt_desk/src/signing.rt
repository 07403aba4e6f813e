//! Commands to approve.

ghost use Rattle.receipt_desk.specs.Lines.{SaysSign, SpellsSomeOrNone};
ghost use Rattle.script_tool.specs.Words.{Reads, remaining_words};

use arrayvec::ArrayVec;
use script_tool::values::{byte, bytes};
use script_tool::words::Words;

/// A command to approve: its P1 and P2, and the bytes of its data field before the token.
#[derive(Drop)]
pub struct Signing {
    pub p1: u8,
    pub p2: u8,
    pub before: ArrayVec<u8, 255>,
}

/// `-` for none, or bytes of which there are `N` at most.
#[tactic(auto, unfolding(crate::specs::Lines::SpellsSomeOrNone))]
pub fn bytes_or_none<const N: usize>(word: &[u8]) -> Option<ArrayVec<u8, N>>
    ensures { Reads (λ bytes. SpellsSomeOrNone N word.now bytes.items) result }
{
    if word == b"-".as_slice() {
        return Some(ArrayVec::new());
    }
    bytes(word)
}

/// Reads `P1 P2 HEX` or `P1 P2 -`, the words after `sign`.
pub fn read(mut words: Words<'_>) -> Option<Signing>
    ensures { Reads (SaysSign (remaining_words words.entry)) result }
{
    let p1 = byte(words.take()?)?;
    let p2 = byte(words.take()?)?;
    let before = bytes_or_none(words.last()?)?;
    Some(Signing { p1, p2, before })
}
