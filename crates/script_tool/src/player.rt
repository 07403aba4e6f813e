//! A host that plays the lines of a script (this profile's own).

ghost use Rattle.std.specs.Prelude.{◌≡◌, ◌≤◌, ◌↔◌, ◌⊎◌, ℕ, true, OnOk};
ghost use Rattle.script_tool.specs.Prelude.{HasNoForm, Host, RepresentsHost, Rose, SaysLine, StepPlays, first_host, printed_of, remembering, status_printed};
ghost use Rattle.script_lines.specs.declared.line.ScriptLine.{ScriptLine};

use crate::host_state::HostState;
use crate::link::CardLink;
use crate::played::{Played, StepStop};
use crate::playing::play;
use crate::printout::{Printout, Text};
use crate::wire::Wire;
use io_edge::Line;
use script_lines::ScriptLine;
use std::marker::Model;

/// A host that plays lines: the channel, the static keys, the tokens, a session for each channel, and the status that was
/// printed last. It takes no memory.
#[derive(Drop)]
pub struct Player {
    host: HostState,
    wire: Wire,
}

// Contracts see what is kept of the host.
impl Model for Player {
    ghost use Rattle.script_tool.specs.declared.host_state.HostState.{HostState};

    ghost Value = { HostState };

    ghost view = { λ player. player.host };
}

impl Player {
    /// A host with the keys of the factory card, that makes no tokens and has no session.
    pub fn new() -> Player
        ensures { RepresentsHost result first_host }
    {
        Player {
            host: HostState::new(),
            wire: Wire::new(),
        }
    }

    // Remembers the status that is printed.
    fn remember(&mut self, printout: &Printout)
        ensures { (host : Host) → RepresentsHost self.old host → RepresentsHost self.new (remembering (status_printed (printed_of printout.now)) host) }
    {
        if let Some(status) = printout.status() {
            self.host.last = Some(status);
        }
    }

    /// Plays a line over a link to a card. `text` becomes what the line prints, without a newline.
    ///
    /// `Form` has the number of a line that is malformed: nothing was sent. After `LinkFailed` the link is not up any more, and
    /// nothing is known of the host.
    pub fn step<L: CardLink>(
        &mut self,
        link: &mut L,
        line: &Line<'_>,
        text: &mut Text,
    ) -> Result<Played, StepStop>
        requires up { L.up link.old ≡ true }

        // A malformed line: nothing is sent, and all stays as it is.
        ensures form { (n : ℕ) → (result ≡ Err (StepStop.Form n)) ↔ (n ≡ line.now.number) × HasNoForm line.now.text.now }
        ensures said { HasNoForm line.now.text.now ⊎ ((said : ScriptLine) × SaysLine line.now.text.now said) }
        ensures refused { HasNoForm line.now.text.now → (self.new ≡ self.old) × (link.new ≡ link.old) × (text.new ≡ text.old) }

        // Any other line: what was sent and printed, by the replies.
        ensures played { (host : Host) (said : ScriptLine) → RepresentsHost self.old host → SaysLine line.now.text.now said
            → StepPlays L.CardLink link.old link.new host said self.new text.new.items result }
        ensures up { OnOk result (L.up link.new ≡ true) }
        ensures cause { result ≡ Err StepStop.LinkFailed → Rose (L.faults link.old) (L.faults link.new) }
        ensures later { L.faults link.old ≤ L.faults link.new }
    {
        let mut said = ScriptLine::Nothing;
        let Some(()) = said.read(line.text) else {
            return Err(StepStop::Form(line.number));
        };
        let played = play(&mut self.host, &mut self.wire, link, &said);
        match &played {
            Err(_) => Err(StepStop::LinkFailed),
            Ok(printout) => {
                self.remember(printout);
                printout.write(said.is_quiet(), text);
                Ok(printout.kind())
            }
        }
    }
}
