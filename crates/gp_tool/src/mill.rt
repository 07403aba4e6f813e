//! The lines of a workload over a card.

ghost use Rattle.std.specs.Prelude.{◌≡◌, ◌≤◌, ◌<◌, ◌+◌, ◌^◌, IfOk, OnOk, OnErr, true, false};
ghost use Rattle.gp_tool.specs.Prelude.{BreaksLine, BreaksScript, CardRepresents, Host, IsScript, LinePlace, Milled, MillsLine, PlaysSome, RepresentsHost, Rose, State, standing};

use crate::card_end::CardEnd;
use crate::play::{PrintedLine, fill_line, has_printed};
use crate::step_card::step_card;
use crate::tally::Tally;
use crate::workload::Workload;
use arrayvec::ArrayVec;
use flash_core::Flash;
use io_edge::{LINE_LIMIT, Line};
use script_tool::{LinkFailed, Mill, Player, Text};

// Plays a line of a workload, and counts its text.
fn mill_line<F: Flash>(
    line: &[u8],
    end: &mut CardEnd<F>,
    player: &mut Player,
    tally: &mut Tally,
) -> Result<(), LinkFailed>
    requires live { end.old.card.live ≡ true }
    requires form { IsScript line.now }
    requires room { tally.old.success + tally.old.other < 2 ^ 32 }
    ensures played { (place : LinePlace Host) → CardRepresents F.Flash end.old.card place.state → RepresentsHost player.old place.memory
        → OnOk result (MillsLine F.Flash line.now end.old end.new player.old player.new tally.old tally.new place) }
    ensures broken { (place : LinePlace Host) → CardRepresents F.Flash end.old.card place.state → RepresentsHost player.old place.memory
        → OnErr result (BreaksLine (BreaksScript line.now) F.Flash (standing end.old player.old false) (standing end.new player.new false) place) }
    ensures few { tally.new.success + tally.new.other ≤ tally.old.success + tally.old.other + 1 }
    ensures live { OnOk result (end.new.card.live ≡ true) }
    ensures cause { OnErr result (Rose (F.faults end.old.card.flash) (F.faults end.new.card.flash)) }
    ensures later { F.faults end.old.card.flash ≤ F.faults end.new.card.flash }
{
    let mut printed = Text::new();
    let line = Line {
        number: 1,
        text: line,
    };
    match step_card(&line, end, player, &mut printed) {
        Ok(played) => {
            if has_printed(played) {
                let mut text = PrintedLine::new();
                fill_line(&printed, &mut text);
                tally.count(&text);
            }
            Ok(())
        }
        // Each line of a workload has a form, so it is the link that failed.
        Err(_) => Err(LinkFailed),
    }
}

/// Plays the lines of a workload, and counts their texts.
pub fn mill_lines<F: Flash>(work: Workload, end: &mut CardEnd<F>) -> Result<Tally, LinkFailed>
    requires live { end.old.card.live ≡ true }
    requires none { end.old.done ≡ 0 }
    requires few { work.rounds ≤ 10_000 }
    ensures milled { (first : State) → CardRepresents F.Flash end.old.card first → IfOk result (Milled F.Flash work first end.old.card.flash end.new) }
    ensures broken { (first : State) → CardRepresents F.Flash end.old.card first → OnErr result (PlaysSome F.Flash work end.old.card.flash first end.new.card.flash end.new.done) }
    ensures live { OnOk result (end.new.card.live ≡ true) }
    ensures cause { OnErr result (Rose (F.faults end.old.card.flash) (F.faults end.new.card.flash)) }
    ensures later { F.faults end.old.card.flash ≤ F.faults end.new.card.flash }
{
    let mut mill = Mill::new(work.seed, work.rounds);
    let mut player = Player::new();
    let mut tally = Tally {
        success: 0,
        other: 0,
    };
    let mut line = ArrayVec::<u8, LINE_LIMIT>::new();
    while mill.next_line(&mut line) {
        mill_line(&line, end, &mut player, &mut tally)?;
    }
    Ok(tally)
}
