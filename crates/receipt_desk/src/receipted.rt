//! Receipts to judge.

ghost use Rattle.receipt_desk.specs.Lines.{SaysReceipt};
ghost use Rattle.script_tool.specs.Words.{Reads, remaining_words};

use crate::aids::{self, Aids};
use arrayvec::ArrayVec;
use script_tool::values::bytes;
use script_tool::words::Words;

/// The data field of a reply, and what its command was about.
#[derive(Drop)]
pub struct Receipted {
    pub reply: ArrayVec<u8, 48>,
    pub aids: Aids,
}

/// Reads `HEX AID [AID [AID]]`, the words after `receipt`.
pub fn read(mut words: Words<'_>) -> Option<Receipted>
    ensures { Reads (SaysReceipt (remaining_words words.entry)) result }
{
    let reply = bytes(words.take()?)?;
    let aids = aids::read(words)?;
    Some(Receipted { reply, aids })
}
