//! What a line says (this profile's own).

ghost use Rattle.std.specs.Prelude.{◌≡◌, IfNone, IfSome, MatchOption};
ghost use Rattle.script_lines.specs.Prelude.{HasNoForm, SaysLine, SaysSending, is_quiet, remaining_words};
ghost use Rattle.script_lines.specs.declared.line.ScriptLine.{ScriptLine};

use crate::control::{self, Control};
use crate::exchange::{self, Exchange};
use crate::nothing::says_nothing;
use crate::words::Words;

/// What a line says.
#[derive(Drop)]
pub enum ScriptLine {
    /// Nothing: it is blank or a comment.
    Nothing,

    /// Something that sends nothing to the card.
    Control(Control),

    /// Something to send to the card.
    Exchange(Exchange),

    /// Something to send, of whose reply the status alone is printed.
    Quiet(Exchange),
}

// Makes `line` something to send, perhaps after `- `.
fn sending(words: Words<'_>, line: &mut ScriptLine) -> Option<()>
    ensures { MatchOption result ((value : ScriptLine) → SaysSending (remaining_words words.entry) value → ⊥) (λ _. SaysSending (remaining_words words.entry) line.new) }
{
    let mut rest = words;
    match rest.fixed(b"-") {
        Some(()) => exchange::read(rest, true, line),
        None => exchange::read(words, false, line),
    }
}

impl ScriptLine {
    /// Whether it asks for the status alone.
    pub fn is_quiet(&self) -> bool
        ensures { result ≡ is_quiet self.now }
    {
        matches!(self, ScriptLine::Quiet(_))
    }

    /// Becomes what a text says, unless that is malformed.
    pub fn read(&mut self, text: &[u8]) -> Option<()>
        ensures said { IfSome result (λ _. SaysLine text.now self.new) }
        ensures none { IfNone result (HasNoForm text.now) }
    {
        if says_nothing(text) {
            *self = ScriptLine::Nothing;
            return Some(());
        }
        let words = Words::new(text);
        if let Some(control) = control::read(words) {
            *self = ScriptLine::Control(control);
            return Some(());
        }
        sending(words, self)
    }
}
