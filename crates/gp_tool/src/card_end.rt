//! A card at the end of a link.

ghost use Rattle.gp_tool.specs.Prelude.{CardRepresents, Comes};

use crate::command::give_command;
use arrayvec::ArrayVec;
use card_core::{Card, REPLY_LIMIT};
use flash_core::{Flash, FlashFailed};
use script_tool::{CardLink, LinkFailed};

/// A card, and how many commands it has answered.
#[derive(Drop)]
pub struct CardEnd<F: Flash> {
    pub card: Card<F>,
    pub done: u32,
}

impl<F: Flash> CardLink for CardEnd<F> {
    ghost stands = { λ end state. CardRepresents F.Flash end.card state };

    ghost came = { λ start end first inputs. Comes F.Flash (record { card = start.card; done = start.done }) (record { card = end.card; done = end.done }) first inputs end.card.live };

    ghost conveyed = { λ _ _ _. Unit {0} };

    ghost refused = { λ _ _ _ _. Unit {0} };

    ghost up = { λ end. end.card.live };

    ghost faults = { λ end. F.faults end.card.flash };

    fn send(
        &mut self,
        command: &[u8],
        reply: &mut ArrayVec<u8, REPLY_LIMIT>,
    ) -> Result<(), LinkFailed> {
        match give_command(&mut self.card, &mut self.done, command, reply) {
            Ok(_) => Ok(()),
            Err(FlashFailed) => Err(LinkFailed),
        }
    }

    fn reset(&mut self) {
        self.card.reset();
    }
}
