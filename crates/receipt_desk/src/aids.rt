//! What a command was about.

ghost use Rattle.receipt_desk.specs.Lines.{SpellAids};
ghost use Rattle.receipt_desk.specs.declared.aids.Aids.{Aids};
ghost use Rattle.script_tool.specs.Words.{Reads, remaining_words};

use card_types::Aid;
use script_tool::values::aid;
use script_tool::words::Words;

/// The AIDs of the things that a command was about, in its order.
#[derive(Drop)]
pub enum Aids {
    One(Aid),
    Two(Aid, Aid),
    Three(Aid, Aid, Aid),
}

fn one(words: Words<'_>) -> Option<Aid>
    ensures { Reads (λ aid. SpellAids (remaining_words words.entry) (Aids.One aid)) result }
{
    let only = aid(words.last()?)?;
    Some(only)
}

fn two(mut words: Words<'_>) -> Option<(Aid, Aid)>
    ensures { Reads (λ aids. SpellAids (remaining_words words.entry) (Aids.Two aids.0 aids.1)) result }
{
    let first = aid(words.take()?)?;
    let second = aid(words.last()?)?;
    Some((first, second))
}

fn three(mut words: Words<'_>) -> Option<(Aid, Aid, Aid)>
    ensures { Reads (λ aids. SpellAids (remaining_words words.entry) (Aids.Three aids.0 aids.1 aids.2)) result }
{
    let first = aid(words.take()?)?;
    let second = aid(words.take()?)?;
    let third = aid(words.last()?)?;
    Some((first, second, third))
}

/// Reads `AID`, `AID AID` or `AID AID AID`.
pub fn read(words: Words<'_>) -> Option<Aids>
    ensures { Reads (SpellAids (remaining_words words.entry)) result }
{
    if let Some(only) = one(words) {
        return Some(Aids::One(only));
    }
    if let Some((first, second)) = two(words) {
        return Some(Aids::Two(first, second));
    }
    if let Some((first, second, third)) = three(words) {
        return Some(Aids::Three(first, second, third));
    }
    None
}
