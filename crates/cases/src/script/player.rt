//! A host and a card, with a script between them.

ghost use Rattle.std.specs.Prelude.{◌≡◌, ◌⊎◌, ℕ, List, IsSome};
ghost use Rattle.cases.specs.Why.{AsksWhy};
ghost use Rattle.script_tool.specs.Line.{SaysLine};
ghost use Rattle.script_lines.specs.declared.line.ScriptLine.{ScriptLine};

use crate::script::card::CardEnd;
use crate::script::why::raw_of;
use arrayvec::ArrayVec;
use flash_core::Flash;
use io_edge::Line;
use script_tool::{Played, Text};
use std::alloc::Global;

/// A host, and a card.
#[derive(Drop)]
pub struct Player<F: Flash> {
    host: script_tool::Player,
    card: CardEnd<F>,
}

impl<F: Flash> Player<F> {
    /// With the card on a device, just powered on. Where there is none, or a call fails, it answers the device.
    pub fn over(alloc: Global, flash: F) -> Result<Player<F>, F> {
        Ok(Player {
            host: script_tool::Player::new(),
            card: CardEnd::power_on(alloc, flash)?,
        })
    }

    /// Whether the card goes on: no call on its device has failed.
    pub fn live(&self) -> bool {
        self.card.live()
    }

    /// The device.
    pub fn into_flash(self) -> F {
        self.card.into_flash()
    }

    /// What was sent last.
    pub fn sent(&self) -> &[u8] {
        self.card.sent()
    }

    /// The name of the rule that refused the command that was sent last, or `-`.
    pub fn rule_name(&self) -> &'static str {
        self.card.rule_name()
    }

    /// Does a line, and answers what it prints, or nothing where it is malformed. `why` prints what `raw` does, and after a
    /// status the rule that refused the command, or `-`.
    pub fn step(&mut self, line: &[u8]) -> Option<Text>
        ensures { IsSome result → (played : List ℕ) × ((played ≡ line.now) ⊎ AsksWhy line.now played) × (said : ScriptLine) × SaysLine played said }
    {
        let mut text = ArrayVec::new();
        let Some(raw) = raw_of(line) else {
            self.play(line, &mut text)?;
            return Some(text);
        };
        self.explain(&raw, &mut text)?;
        Some(text)
    }

    // Plays a line, and adds to the status that it prints why.
    fn explain(&mut self, line: &[u8], text: &mut Text) -> Option<()>
        ensures { IsSome result → (said : ScriptLine) × SaysLine line.now said }
    {
        if let Played::Answer(_) = self.play(line, text)? {
            self.push_rule(text);
        }
        Some(())
    }

    // Plays a line that has a form. The card always answers, so no other line stops the host.
    fn play(&mut self, line: &[u8], text: &mut Text) -> Option<Played>
        ensures { IsSome result → (said : ScriptLine) × SaysLine line.now said }
    {
        let line = Line {
            number: 1,
            text: line,
        };
        match self.host.step(&mut self.card, &line, text) {
            Ok(played) => Some(played),
            Err(_) => None,
        }
    }

    fn push_rule(&self, text: &mut Text) {
        let _fits = text.try_push(b' ');
        let _fits = text.try_extend_from_slice(self.card.rule_name().as_bytes());
    }
}
