//! The verb `mill`.

ghost use Rattle.std.specs.Prelude.{◌≡◌, ◌≢◌, ◌≤◌, ◌⊎◌, true};
ghost use Rattle.gp_tool.specs.Prelude.{CardRepresents, EndCause, EndsMill, Flushes, IsFactoryCard, IsNotMilled, MillEnds, MillsCard, Rose, State, around};

use crate::card_end::CardEnd;
use crate::ended::Ended;
use crate::mill::mill_lines;
use crate::run::flush_at_end;
use crate::run_verb::refusal;
use crate::summary::{spell_counter, write_summary};
use crate::workload::Workload;
use card_core::{Card, format};
use flash_core::Flash;
use io_edge::Sink;
use line_runs::Ending;
use std::alloc::Global;

// Gives a card the lines of a workload, and writes their summary.
fn mill_card<K: Sink, F: Flash>(work: Workload, end: &mut CardEnd<F>, sink: &mut K) -> Ending
    requires live { end.old.card.live ≡ true }
    requires none { end.old.done ≡ 0 }
    requires few { work.rounds ≤ 10_000 }
    ensures ends { (first : State) → CardRepresents F.Flash end.old.card first
        → MillEnds F.Flash K.tells work end.old.card.flash first result end.new.card.flash end.new.done (K.state sink.old) (K.state sink.new) }
    ensures flushes { Flushes K.tells result (K.state sink.old) (K.state sink.new) }
    ensures cause { EndCause result (around 0 (K.state sink.old).faults (F.faults end.old.card.flash)) (around 0 (K.state sink.new).faults (F.faults end.new.card.flash)) }
    ensures later { F.faults end.old.card.flash ≤ F.faults end.new.card.flash }
{
    let ending = match mill_lines(work, end) {
        Ok(tally) => {
            let counter = spell_counter(end.card.tables());
            match write_summary(work, tally, &counter, sink) {
                Ok(()) => Ending::Finished,
                Err(_) => Ending::WriteFault,
            }
        }
        Err(_) => Ending::Failed,
    };
    flush_at_end(ending, sink)
}

// Powers on the card as it leaves the factory, and plays the workload on it.
fn mill_factory_card<K: Sink, F: Flash>(
    alloc: Global,
    work: Workload,
    sink: &mut K,
    flash: F,
) -> Ended<F>
    requires factory { IsFactoryCard F.Flash flash }
    requires few { work.rounds ≤ 10_000 }
    ensures memory { result.status ≡ 7 → (sink.new ≡ sink.old) × (result.done ≡ 0) × (result.flash ≡ flash) }
    ensures mill { result.status ≢ 7 → MillsCard work K.Sink F.Flash result.status result.done (around tt sink.old flash) (around tt sink.new result.flash)
        ⊎ (IsNotMilled F.Flash result.status result.done flash result.flash × (sink.new ≡ sink.old)) }
    ensures complete { F.tells → (Rose (K.state sink.old).faults (K.state sink.new).faults → ⊥) → (Rose (F.faults flash) (F.faults result.flash) → ⊥)
        → (result.status ≡ 0) ⊎ (result.status ≡ 7) }
    ensures later { F.faults flash ≤ F.faults result.flash }
{
    match Card::power_on(alloc, flash) {
        Ok(card) => {
            let mut end = CardEnd { card, done: 0 };
            let ending = mill_card(work, &mut end, sink);
            let CardEnd { card, done } = end;
            Ended {
                status: ending.status(),
                done,
                flash: card.into_flash(),
            }
        }
        Err(refused) => Ended {
            status: refusal(&refused.cause),
            done: 0,
            flash: refused.flash,
        },
    }
}

/// Makes the device the card as it leaves the factory, plays the lines of a workload on it, and writes their summary.
pub fn mill_verb<K: Sink, F: Flash>(
    alloc: Global,
    work: Workload,
    sink: &mut K,
    mut flash: F,
) -> Ended<F>
    requires few { work.rounds ≤ 10_000 }
    ensures memory { result.status ≡ 7 → (sink.new ≡ sink.old) × (result.done ≡ 0) × IsFactoryCard F.Flash result.flash }
    ensures mill { result.status ≢ 7 → EndsMill work K.Sink F.Flash result.status result.done (around tt sink.old flash) (around tt sink.new result.flash) }
    ensures complete { F.tells → (Rose (K.state sink.old).faults (K.state sink.new).faults → ⊥) → (Rose (F.faults flash) (F.faults result.flash) → ⊥)
        → (result.status ≡ 0) ⊎ (result.status ≡ 7) }
    ensures later { F.faults flash ≤ F.faults result.flash }
{
    match format(&mut flash) {
        Ok(()) => mill_factory_card(alloc, work, sink, flash),
        Err(_) => Ended {
            status: flush_at_end(Ending::Failed, sink).status(),
            done: 0,
            flash,
        },
    }
}
