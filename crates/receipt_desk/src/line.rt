//! What a line says to a desk.

ghost use Rattle.receipt_desk.specs.Lines.{SaysDesk, SaysFrom, SaysKey, SaysUnique, SaysWords, SpellsNumber};
ghost use Rattle.script_tool.specs.Words.{Reads, remaining_words};

use crate::receipted::{self, Receipted};
use crate::signing::{self, Signing, bytes_or_none};
use arrayvec::ArrayVec;
use script_tool::values::array;
use script_tool::words::Words;
use script_tool::{Key, key, says_nothing};

/// What a line says.
#[derive(Drop)]
pub enum DeskLine {
    /// Nothing: it is blank or a comment.
    Nothing,

    /// The key of later tokens and receipts.
    Key(Key),

    /// The unique data of the card.
    Unique(ArrayVec<u8, 20>),

    /// The number of the last receipt.
    From(u16),

    /// A command to approve.
    Sign(Signing),

    /// A receipt to judge.
    Receipt(Receipted),
}

// The number that four digits spell.
#[tactic(auto, unfolding(crate::specs::Lines::SpellsNumber, script_lines::specs::Words::SpellsSome))]
fn number(word: &[u8]) -> Option<u16>
    ensures { Reads (SpellsNumber word.now) result }
{
    let bytes = array(word)?;
    Some(u16::from_be_bytes(bytes))
}

// The key of `key HEX`.
fn read_key(words: Words<'_>) -> Option<Key>
    ensures { Reads (SaysKey (remaining_words words.entry)) result }
{
    let key = key(words.last()?)?;
    Some(key)
}

// The bytes of `unique HEX` or `unique -`.
fn read_unique(words: Words<'_>) -> Option<ArrayVec<u8, 20>>
    ensures { Reads (λ bytes. SaysUnique (remaining_words words.entry) bytes.items) result }
{
    let bytes = bytes_or_none(words.last()?)?;
    Some(bytes)
}

// The number of `from NNNN`.
fn read_from(words: Words<'_>) -> Option<u16>
    ensures { Reads (SaysFrom (remaining_words words.entry)) result }
{
    let number = number(words.last()?)?;
    Some(number)
}

// What the words of a line say that says something. The first one, the verb, tells which form it may have.
fn read_words(mut words: Words<'_>) -> Option<DeskLine>
    ensures { Reads (SaysWords (remaining_words words.entry)) result }
{
    let verb = words.take()?;
    if verb == b"receipt".as_slice() {
        receipted::read(words).map(DeskLine::Receipt)
    } else if verb == b"key".as_slice() {
        read_key(words).map(DeskLine::Key)
    } else if verb == b"unique".as_slice() {
        read_unique(words).map(DeskLine::Unique)
    } else if verb == b"from".as_slice() {
        read_from(words).map(DeskLine::From)
    } else if verb == b"sign".as_slice() {
        signing::read(words).map(DeskLine::Sign)
    } else {
        None
    }
}

impl DeskLine {
    /// What a text says, or nothing where it is malformed.
    pub fn read(text: &[u8]) -> Option<DeskLine>
        ensures { Reads (SaysDesk text.now) result }
    {
        if says_nothing(text) {
            return Some(DeskLine::Nothing);
        }
        read_words(Words::new(text))
    }
}
