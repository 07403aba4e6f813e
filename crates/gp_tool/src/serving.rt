//! The call that serves a card.

ghost use Rattle.std.specs.Prelude.{◌≡◌, ◌≢◌, ◌≤◌, true};
ghost use Rattle.gp_tool.specs.Prelude.{CardRepresents, IsDoneStatus, NoFault, ServesCard, State, around, powered_on};
ghost use Rattle.gp_tool.specs.Verbs.{IsGoodInput};

use crate::card_end::CardEnd;
use crate::run::run;
use crate::verb::Verb;
use card_core::Card;
use flash_core::Flash;
use io_edge::{Sink, Source};

/// How a card was served, and the card.
#[derive(Drop)]
pub struct Served<F: Flash> {
    /// The status of a program that ends so.
    pub status: u8,

    /// How many commands the card has answered.
    pub done: u32,
    pub card: Card<F>,
}

/// Takes the power of a card away and gives it back, and gives it the lines of the source as the verb has them. The sink is
/// flushed once at the end.
///
/// The statuses are those of `gp`, without 1, 4 and 7.
pub fn serve<S: Source, K: Sink, F: Flash>(
    verb: Verb,
    mut card: Card<F>,
    source: &mut S,
    sink: &mut K,
) -> Served<F>
    requires live { card.live ≡ true }
    // The status is that of an ending, which says what was read, written and handed on, what the device holds, and for
    // which state the card stands.
    ensures run { (state : State) → CardRepresents F.Flash card state
        → ServesCard verb S.Source K.Sink F.Flash (CardRepresents F.Flash result.card) (powered_on state.registry) result.status result.done
        (around source.old sink.old card.flash) (around source.new sink.new result.card.flash) }

    // No status of words, of a card that was not powered on, or of want of memory.
    ensures never { (result.status ≢ 1) × (result.status ≢ 4) × (result.status ≢ 7) }

    // Where each line has a form, the input is short enough and nothing fails, all is done.
    ensures complete { (state : State) → CardRepresents F.Flash card state → S.tells → IsGoodInput verb (S.state source.old).left
        → NoFault S.Source K.Sink F.Flash (around source.old sink.old card.flash) (around source.new sink.new result.card.flash) → IsDoneStatus verb result.status }

    // The card may be served again, unless the device failed.
    ensures live { result.status ≢ 3 → result.card.live ≡ true }
    ensures later { F.faults card.flash ≤ F.faults result.card.flash }
{
    card.reset();
    let mut end = CardEnd { card, done: 0 };
    let ending = run(verb, &mut end, source, sink);
    let CardEnd { card, done } = end;
    Served {
        status: ending.status(),
        done,
        card,
    }
}
