//! The lines that send commands to the card (this profile's own).

ghost use Rattle.std.specs.Prelude.{◌≡◌, ◌∷◌, MatchOption};
ghost use Rattle.script_lines.specs.Prelude.{Reads, SaysExchange, SaysSent, remaining_words, sent_as, verb_word};
ghost use Rattle.script_lines.specs.declared.exchange.Exchange.{Exchange};
ghost use Rattle.script_lines.specs.declared.verb.Verb.TheVariants.{Send};

use crate::deletion::{self, Deletion};
use crate::extradition::{self, Extradition};
use crate::install::{self, Installation};
use crate::life::{self, LifeChange};
use crate::line::ScriptLine;
use crate::listing::{self, Listing};
use crate::load_file::{self, LoadFile};
use crate::opening::{self, Opening};
use crate::plain::{self, Plain};
use crate::put_key::{self, Putting};
use crate::verb::Verb;
use crate::words::Words;
use crate::{octets, selectable};
use arrayvec::ArrayVec;
use card_types::Aid;

/// What a line sends to the card.
#[derive(Drop)]
pub enum Exchange {
    /// SELECT, with an AID or without.
    Select(Option<Aid>),

    /// Bytes as they are.
    Raw(ArrayVec<u8, 258>),

    /// INITIALIZE UPDATE and EXTERNAL AUTHENTICATE.
    Open(Opening),

    /// A command in the session.
    Send(Plain),

    /// A command in the session with the lowest bit of its first MAC byte turned.
    Bad(Plain),

    /// INSTALL for install, and make selectable.
    Install(Installation),

    /// INSTALL for make selectable.
    Selectable(Aid),

    /// INSTALL for extradition.
    Extradite(Extradition),

    /// INSTALL for load, and LOAD of each block.
    Load(LoadFile),

    /// DELETE of an object.
    Delete(Deletion),

    /// PUT KEY.
    PutKey(Putting),

    /// STORE DATA of one block, with its data.
    Store(ArrayVec<u8, 258>),

    /// SET STATUS.
    Life(LifeChange),

    /// GET STATUS for the first objects.
    List(Listing),

    /// GET STATUS for the next objects.
    More(Listing),
}

// Reads the words after a verb. It is out of line, so that a line which sends a command sets no other form's values to zeros.
#[inline(never)]
fn form(verb: Verb, words: Words<'_>) -> Option<Exchange>
    ensures { Reads (SaysExchange (verb_word verb ∷ remaining_words words.entry)) result }
{
    match verb {
        Verb::Select => life::may_name(words).map(Exchange::Select),
        Verb::Raw => octets::read(words).map(Exchange::Raw),
        Verb::Open => opening::read(words).map(Exchange::Open),
        Verb::Send => plain::read(words).map(Exchange::Send),
        Verb::Bad => plain::read(words).map(Exchange::Bad),
        Verb::Install => install::read(words).map(Exchange::Install),
        Verb::Selectable => selectable::read(words).map(Exchange::Selectable),
        Verb::Extradite => extradition::read(words).map(Exchange::Extradite),
        Verb::Load => load_file::read(words).map(Exchange::Load),
        Verb::Delete => deletion::read(words).map(Exchange::Delete),
        Verb::PutKey => put_key::read(words).map(Exchange::PutKey),
        Verb::Store => octets::read(words).map(Exchange::Store),
        Verb::Life => life::read(words).map(Exchange::Life),
        Verb::List => listing::read(words).map(Exchange::List),
        Verb::More => listing::read(words).map(Exchange::More),
    }
}

// What a line sends, quietly or not.
fn sent(quiet: bool, exchange: Exchange) -> ScriptLine
    ensures { result ≡ sent_as quiet exchange }
{
    if quiet {
        ScriptLine::Quiet(exchange)
    } else {
        ScriptLine::Exchange(exchange)
    }
}

// Makes `line` what the words after `send` say.
#[inline(never)]
fn send(words: Words<'_>, quiet: bool, line: &mut ScriptLine) -> Option<()>
    ensures { MatchOption result ((e : Exchange) → SaysExchange (verb_word Send ∷ remaining_words words.entry) e → ⊥) (λ _. SaysSent quiet (verb_word Send ∷ remaining_words words.entry) line.new) }
{
    let mut command = Plain::new();
    command.read(words)?;
    *line = sent(quiet, Exchange::Send(command));
    Some(())
}

// Makes `line` what the words after a verb say.
#[inline(never)]
fn other(verb: Verb, words: Words<'_>, quiet: bool, line: &mut ScriptLine) -> Option<()>
    ensures { MatchOption result ((e : Exchange) → SaysExchange (verb_word verb ∷ remaining_words words.entry) e → ⊥) (λ _. SaysSent quiet (verb_word verb ∷ remaining_words words.entry) line.new) }
{
    *line = sent(quiet, form(verb, words)?);
    Some(())
}

/// Makes `line` what a line that sends commands says, quietly or not. Its first word tells which form it may have. Most send one command of a
/// session, which is asked for first; each value that is handed on would be copied.
pub fn read(mut words: Words<'_>, quiet: bool, line: &mut ScriptLine) -> Option<()>
    ensures { MatchOption result ((e : Exchange) → SaysExchange (remaining_words words.entry) e → ⊥) (λ _. SaysSent quiet (remaining_words words.entry) line.new) }
{
    match Verb::read(words.take()?)? {
        Verb::Send => send(words, quiet, line),
        verb => other(verb, words, quiet, line),
    }
}
