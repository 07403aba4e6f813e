//! The card, on a device.

ghost use Rattle.std.specs.Prelude.{true};

use arrayvec::ArrayVec;
use card_core::{Card, REPLY_LIMIT};
use flash_core::Flash;
use policy_rules::Rule;
use script_tool::{CardLink, LinkFailed};
use std::alloc::Global;

/// A card that goes on until its device fails, and from then on answers nothing.
#[derive(Drop)]
pub struct CardEnd<F: Flash> {
    card: Card<F>,

    /// The last command.
    sent: ArrayVec<u8, 261>,

    /// The rule that refused it.
    rule: Option<Rule>,
}

impl<F: Flash> CardEnd<F> {
    /// The card on a device, just powered on. Where there is none, or a call fails, it answers the device.
    pub fn power_on(alloc: Global, flash: F) -> Result<CardEnd<F>, F> {
        match Card::power_on(alloc, flash) {
            Ok(card) => Ok(CardEnd {
                card,
                sent: ArrayVec::new(),
                rule: None,
            }),
            Err(refused) => Err(refused.flash),
        }
    }

    /// The last command that was sent.
    pub fn sent(&self) -> &[u8] {
        &self.sent
    }

    /// The name of the rule that refused the last command, or `-`.
    pub fn rule_name(&self) -> &'static str {
        match &self.rule {
            Some(rule) => rule.name(),
            None => "-",
        }
    }

    /// Whether no call on the device has failed.
    pub fn live(&self) -> bool {
        self.card.live()
    }

    /// The device.
    pub fn into_flash(self) -> F {
        self.card.into_flash()
    }

    // Keeps a command.
    fn keep(&mut self, command: &[u8]) {
        self.sent.clear();
        let _fits = self.sent.try_extend_from_slice(command);
    }

    // Answers a command, and keeps the rule that refused it.
    fn answer(&mut self, command: &[u8], reply: &mut ArrayVec<u8, REPLY_LIMIT>) {
        reply.clear();
        self.rule = None;
        if self.card.live() {
            if let Ok(rule) = self.card.process(command, reply) {
                self.rule = rule;
            }
        }
    }
}

// It does not tell what the card stands for. A card that has failed is one without an answer, so the link never fails.
impl<F: Flash> CardLink for CardEnd<F> {
    ghost stands = { λ _ _. ⊥ };

    ghost came = { λ _ _ _ _. ⊥ };

    ghost conveyed = { λ _ _ _. ⊥ };

    ghost refused = { λ _ _ _ _. ⊥ };

    ghost up = { λ _. true };

    ghost faults = { λ _. 0 };

    fn send(
        &mut self,
        command: &[u8],
        reply: &mut ArrayVec<u8, REPLY_LIMIT>,
    ) -> Result<(), LinkFailed> {
        self.keep(command);
        self.answer(command, reply);
        Ok(())
    }

    fn reset(&mut self) {
        if self.card.live() {
            self.card.reset();
        }
    }
}
