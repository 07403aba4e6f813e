//! A line that a host plays over a card.

ghost use Rattle.std.specs.Prelude.{◌≡◌, ◌≤◌, ◌⊎◌, ◌↔◌, ℕ, true, Err, OnOk};
ghost use Rattle.gp_tool.specs.Prelude.{CardRepresents, HasNoForm, Host, RepresentsHost, Rose, SaysLine, State, StepsCard, counting};
ghost use Rattle.script_lines.specs.declared.line.ScriptLine.{ScriptLine};

use crate::card_end::CardEnd;
use flash_core::Flash;
use io_edge::Line;
use script_tool::{Played, Player, StepStop, Text};

/// Plays a line over a card. `text` becomes what the line prints, without a newline.
pub fn step_card<F: Flash>(
    line: &Line<'_>,
    end: &mut CardEnd<F>,
    player: &mut Player,
    text: &mut Text,
) -> Result<Played, StepStop>
    requires live { end.old.card.live ≡ true }
    ensures form { (n : ℕ) → (result ≡ Err (StepStop.Form n)) ↔ (n ≡ line.now.number) × HasNoForm line.now.text.now }
    ensures said { HasNoForm line.now.text.now ⊎ ((said : ScriptLine) × SaysLine line.now.text.now said) }
    ensures refused { HasNoForm line.now.text.now → (player.new ≡ player.old) × (end.new ≡ end.old) }
    ensures played { (host : Host) (state : State) (said : ScriptLine) → RepresentsHost player.old host → CardRepresents F.Flash end.old.card state
        → SaysLine line.now.text.now said → StepsCard F.Flash (counting end.old) (counting end.new) host state said player.new text.new.items result }
    ensures live { OnOk result (end.new.card.live ≡ true) }
    ensures cause { result ≡ Err StepStop.LinkFailed → Rose (F.faults end.old.card.flash) (F.faults end.new.card.flash) }
    ensures later { F.faults end.old.card.flash ≤ F.faults end.new.card.flash }
{
    player.step(end, line, text)
}
