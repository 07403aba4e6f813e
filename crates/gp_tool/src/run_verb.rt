//! The verbs over lines.

ghost use Rattle.std.specs.Prelude.{◌≡◌, ◌≢◌, ◌⊎◌, ◌≤◌};
ghost use Rattle.gp_tool.specs.Prelude.{Completes, EndsRun, HoldsCard, around, refusal_status};

use crate::ended::Ended;
use crate::serving::serve;
use crate::verb::Verb;
use card_core::{Card, PowerCause, PowerError};
use flash_core::Flash;
use io_edge::{Sink, Source};
use std::alloc::Global;

/// The status where a card is not powered on.
pub fn refusal(cause: &PowerCause) -> u8
    ensures { result ≡ refusal_status cause.now }
{
    match cause {
        PowerCause::Memory(_) => 7,
        PowerCause::FlashFailed => 3,
        PowerCause::NotACard => 4,
    }
}

/// Powers the card on, and gives it the lines of the source.
pub fn run_verb<S: Source, K: Sink, F: Flash>(
    alloc: Global,
    verb: Verb,
    source: &mut S,
    sink: &mut K,
    flash: F,
) -> Ended<F>
    ensures memory { result.status ≡ 7 → (source.new ≡ source.old) × (sink.new ≡ sink.old) × (result.flash ≡ flash) × (result.done ≡ 0) }
    ensures run { result.status ≢ 7 → EndsRun verb S.Source K.Sink F.Flash result.status result.done
        (around source.old sink.old flash) (around source.new sink.new result.flash) }
    ensures no_card { F.tells → (HoldsCard F.Flash flash → ⊥) → (result.status ≡ 3) ⊎ (result.status ≡ 4) ⊎ (result.status ≡ 7) }
    ensures complete { Completes verb S.Source K.Sink F.Flash result.status (around source.old sink.old flash) (around source.new sink.new result.flash) }
    ensures later { F.faults flash ≤ F.faults result.flash }
{
    match Card::power_on(alloc, flash) {
        Ok(card) => {
            let served = serve(verb, card, source, sink);
            Ended {
                status: served.status,
                done: served.done,
                flash: served.card.into_flash(),
            }
        }
        Err(refused) => Ended {
            status: refusal(&refused.cause),
            done: 0,
            flash: refused.flash,
        },
    }
}
