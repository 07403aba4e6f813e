//! Commands to send in a session (GlobalPlatform Amendment D, 6.2).

ghost use Rattle.std.specs.Prelude.{◌≡◌, ◌↔◌, [], IsTrue, MatchOption};
ghost use Rattle.script_lines.specs.Prelude.{IsPlain, Reads, SaysSend, SpellsPlain, apdu_of, command_of_plain, remaining_words};
ghost use Rattle.script_lines.specs.declared.plain.Plain.{Plain};

use crate::values::front;
use crate::words::Words;
use apdu_core::Command;
use tokens_receipts::DataField;

/// A short command of class 80, without Le.
#[derive(Drop)]
pub struct Plain {
    pub ins: u8,
    pub p1: u8,
    pub p2: u8,
    pub body: DataField,
}

// Whether a command of this class has no secure messaging and is for the basic channel.
fn is_unprotected(class: u8) -> bool
    ensures { IsTrue result ↔ (class ≡ 0x80) }
{
    class == 0x80
}

impl Plain {
    /// A command to read into, without a data field.
    pub fn new() -> Plain
        ensures { result.body.items ≡ [] }
    {
        Plain {
            ins: 0x00,
            p1: 0x00,
            p2: 0x00,
            body: DataField::new(),
        }
    }

    /// The command.
    pub fn command(&self) -> Command<'_>
        ensures { apdu_of result ≡ command_of_plain self.now }
    {
        Command {
            class: 0x80,
            ins: self.ins,
            p1: self.p1,
            p2: self.p2,
            body: &self.body,
            le: None,
        }
    }

    // Becomes the command that the bytes are.
    fn fill(&mut self, bytes: &[u8]) -> Option<()>
        ensures { MatchOption result ((value : Plain) → IsPlain bytes.now value → ⊥) (λ _. IsPlain bytes.now self.new) }
    {
        match Command::read(bytes) {
            Ok(command) => {
                if !is_unprotected(command.class) {
                    return None;
                }
                self.ins = command.ins;
                self.p1 = command.p1;
                self.p2 = command.p2;
                self.body.clear();
                self.body.try_extend_from_slice(command.body).ok()
            }
            Err(_) => None,
        }
    }

    // Becomes the command that a word spells.
    fn spelled(&mut self, word: &[u8]) -> Option<()>
        ensures { MatchOption result ((value : Plain) → SpellsPlain word.now value → ⊥) (λ _. SpellsPlain word.now self.new) }
    {
        let mut room = [0; 261];
        let count = front(word, &mut room)?;
        self.fill(&room[..count])
    }

    /// Becomes what `HEX` says, the word after `send` or `bad`.
    pub fn read(&mut self, words: Words<'_>) -> Option<()>
        ensures { MatchOption result ((value : Plain) → SaysSend (remaining_words words.entry) value → ⊥) (λ _. SaysSend (remaining_words words.entry) self.new) }
    {
        self.spelled(words.last()?)
    }
}

/// The same, as a value.
#[inline(never)]
pub fn read(words: Words<'_>) -> Option<Plain>
    ensures { Reads (SaysSend (remaining_words words.entry)) result }
{
    let mut command = Plain::new();
    command.read(words)?;
    Some(command)
}
