//! The verbs that show a card: `show` and `access`.

ghost use Rattle.std.specs.Prelude.{◌≡◌, ◌≢◌, ◌⊎◌, ◌≤◌, true, IfErr, OnErr, OnOk};
ghost use Rattle.gp_tool.specs.Prelude.{CardRepresents, EndCause, EndsShow, Flushes, HoldsCard, LeavesOnly, Reopens, Rose, ShowCause, ShowEnds, State, WritesFront, WritesWhole, around};

use crate::ended::Ended;
use crate::rights::write_rights;
use crate::run::flush_at_end;
use crate::run_verb::refusal;
use crate::show::{ShowFault, show};
use crate::view::View;
use card_core::Card;
use flash_core::Flash;
use io_edge::Sink;
use line_runs::Ending;
use std::alloc::Global;

// Writes what there is on a card.
fn write_view<K: Sink, F: Flash>(
    view: View,
    card: &mut Card<F>,
    sink: &mut K,
) -> Result<(), ShowFault>
    requires live { card.old.live ≡ true }
    ensures written { (state : State) → CardRepresents F.Flash card.old state
        → OnOk result (WritesWhole view (F.tells × K.tells) state.registry (K.state sink.old) (K.state sink.new)) }
    ensures part { (state : State) → CardRepresents F.Flash card.old state
        → OnErr result (WritesFront view (F.tells × K.tells) state.registry (K.state sink.old) (K.state sink.new)) }
    // Power lost at any moment leaves the registry.
    ensures moments { F.tells → (state : State) → CardRepresents F.Flash card.old state
        → LeavesOnly F.Flash card.old.flash card.new.flash (λ outcome. Reopens outcome state.registry) }
    ensures pages { F.tells → F.pages card.new.flash ≡ F.pages card.old.flash }
    ensures flushes { (K.state sink.new).flushes ≡ (K.state sink.old).flushes }
    ensures later { F.faults card.old.flash ≤ F.faults card.new.flash }
    ensures later_writes { (K.state sink.old).faults ≤ (K.state sink.new).faults }
    ensures quiet { OnOk result ((K.state sink.new).faults ≡ (K.state sink.old).faults) }
    ensures cause { IfErr result (ShowCause (F.faults card.old.flash) (F.faults card.new.flash) (K.state sink.old).faults (K.state sink.new).faults) }
{
    match view {
        View::Registry => show(card, sink),
        View::Rights => {
            write_rights(card.tables(), sink)?;
            Ok(())
        }
    }
}

// Shows a card, and hands on what was written.
fn show_card<K: Sink, F: Flash>(view: View, card: &mut Card<F>, sink: &mut K) -> Ending
    requires live { card.old.live ≡ true }
    ensures cause { EndCause result (around 0 (K.state sink.old).faults (F.faults card.old.flash)) (around 0 (K.state sink.new).faults (F.faults card.new.flash)) }
    ensures flushes { Flushes K.tells result (K.state sink.old) (K.state sink.new) }
    ensures ends { (state : State) → CardRepresents F.Flash card.old state
        → ShowEnds view (F.tells × K.tells) state.registry result (K.state sink.old) (K.state sink.new) }
    ensures moments { F.tells → (state : State) → CardRepresents F.Flash card.old state
        → LeavesOnly F.Flash card.old.flash card.new.flash (λ outcome. Reopens outcome state.registry) }
    ensures pages { F.tells → F.pages card.new.flash ≡ F.pages card.old.flash }
    ensures later { F.faults card.old.flash ≤ F.faults card.new.flash }
{
    let ending = match write_view(view, card, sink) {
        Ok(()) => Ending::Finished,
        Err(ShowFault::Flash) => Ending::Failed,
        Err(ShowFault::Write) => Ending::WriteFault,
    };
    flush_at_end(ending, sink)
}

/// Powers the card on, and shows it.
pub fn show_verb<K: Sink, F: Flash>(alloc: Global, view: View, sink: &mut K, flash: F) -> Ended<F>
    ensures memory { result.status ≡ 7 → (sink.new ≡ sink.old) × (result.flash ≡ flash) × (result.done ≡ 0) }
    ensures show { result.status ≢ 7 → EndsShow view K.Sink F.Flash result.status result.done (around tt sink.old flash) (around tt sink.new result.flash) }
    ensures no_card { F.tells → (HoldsCard F.Flash flash → ⊥) → (result.status ≡ 3) ⊎ (result.status ≡ 4) ⊎ (result.status ≡ 7) }
    ensures complete { F.tells → HoldsCard F.Flash flash
        → (Rose (K.state sink.old).faults (K.state sink.new).faults → ⊥) → (Rose (F.faults flash) (F.faults result.flash) → ⊥) → (result.status ≡ 0) ⊎ (result.status ≡ 7) }
    ensures later { F.faults flash ≤ F.faults result.flash }
{
    match Card::power_on(alloc, flash) {
        Ok(mut card) => {
            let ending = show_card(view, &mut card, sink);
            Ended {
                status: ending.status(),
                done: 0,
                flash: card.into_flash(),
            }
        }
        Err(refused) => Ended {
            status: refusal(&refused.cause),
            done: 0,
            flash: refused.flash,
        },
    }
}
