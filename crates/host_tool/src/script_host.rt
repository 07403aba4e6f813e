//! A host that takes the lines of a script.

ghost use Rattle.std.specs.Prelude.{◌≡◌, ◌≢◌, ◌||◌, ◌++◌, ◌∷◌, [], true, false, None, IfSome};
ghost use Rattle.faults.specs.Faults.{next_count};
ghost use Rattle.host_tool.specs.Fault.{fault_text};
ghost use Rattle.script_tool.specs.Kinds.{is_difference_kind};
ghost use Rattle.host_tool.specs.Link.{unread};
ghost use Rattle.host_tool.specs.Takes.{host_taker};
ghost use Rattle.script_tool.specs.Host.{first_host};
ghost use Rattle.script_tool.specs.Kept.{RepresentsHost};

use crate::fault::LinkFault;
use crate::line_link::LineLink;
use io_edge::{Line, Sink, Source};
use line_runs::{LineTaker, Taking, Text};
use script_tool::{Played, Player, StepStop};
use std::marker::Model;

/// A host that plays the lines of a script over a link, and whether a status differed from the one that a line wants.
#[derive(Drop)]
pub struct ScriptHost<S: Source, K: Sink> {
    player: Player,
    link: LineLink<S, K>,
    printed: script_tool::Text,
    differs: bool,
    faults: u64,
}

impl<S: Source, K: Sink> Model for ScriptHost<S, K> {
    ghost use Rattle.host_tool.specs.Takes.{Hosting};

    ghost Value = { Hosting S K };

    ghost view = { λ h. record { kept = h.player; link = h.link; differs = h.differs; faults = h.faults } };
}

impl<S: Source, K: Sink> ScriptHost<S, K> {
    /// A new host, over a link over which nothing has gone yet.
    pub fn new(replies: S, commands: K) -> ScriptHost<S, K>
        ensures host { RepresentsHost result.kept first_host }
        ensures link { result.link ≡ record { replies = replies; reading = unread; commands = commands; why = None; up = true; faults = 0 } }
        ensures differs { result.differs ≡ false }
        ensures faults { result.faults ≡ 0 }
    {
        ScriptHost {
            player: Player::new(),
            link: LineLink::new(replies, commands),
            printed: script_tool::Text::new(),
            differs: false,
            faults: 0,
        }
    }

    /// Whether a status differed.
    pub fn differs(&self) -> bool
        ensures { result ≡ self.now.differs }
    {
        self.differs
    }

    /// Why a command or a reset has failed, if one has.
    pub fn why(&self) -> Option<LinkFault>
        ensures { result ≡ self.now.link.why }
    {
        self.link.why()
    }

    /// The streams.
    pub fn into_streams(self) -> (S, K)
        ensures { result ≡ (self.link.replies, self.link.commands) }
    {
        self.link.into_streams()
    }
}

// What a line has printed, and a newline, or nothing.
fn write_printed(played: Played, printed: &script_tool::Text, text: &mut Text)
    requires empty { text.old.items ≡ [] }
    ensures some { played ≢ Played.Quiet → text.new.items ≡ printed.now.items ++ 10 ∷ [] }
    ensures none { played ≡ Played.Quiet → text.new.items ≡ [] }
{
    if !matches!(played, Played::Quiet) {
        text.try_extend_from_slice(printed).unwrap();
        text.push(b'\n');
    }
}

// Replaces what `text` holds by why no answer came.
fn write_fault(why: Option<LinkFault>, text: &mut Text)
    ensures { IfSome why (λ fault. text.new.items ≡ fault_text fault) }
{
    if let Some(fault) = why {
        fault.write(text);
    }
}

impl<S: Source, K: Sink> ScriptHost<S, K> {
    // Fails in a line.
    fn fail(&mut self, text: &mut Text) -> Taking
        ensures failed { result ≡ Taking.Failed }
        ensures counted { self.new ≡ record self.old { faults = next_count self.old.faults } }
        ensures text { IfSome self.old.link.why (λ fault. text.new.items ≡ fault_text fault) }
    {
        write_fault(self.link.why(), text);
        self.faults = self.faults.saturating_add(1);
        Taking::Failed
    }
}

// Whether a status has differed, after a line that printed this.
fn differs_by(differs: bool, played: Played) -> bool
    ensures { result ≡ (differs || is_difference_kind played) }
{
    differs || matches!(played, Played::WantDiffers)
}

impl<S: Source, K: Sink> LineTaker for ScriptHost<S, K> {
    ghost does = { host_taker S.Source K.Sink };

    fn take_line(&mut self, line: &[u8], text: &mut Text) -> Taking {
        text.clear();
        if !self.link.up() {
            return self.fail(text);
        }
        let line = Line {
            number: 1,
            text: line,
        };
        match self.player.step(&mut self.link, &line, &mut self.printed) {
            Ok(played) => match self.link.why() {
                Some(_) => self.fail(text),
                None => {
                    self.differs = differs_by(self.differs, played);
                    write_printed(played, &self.printed, text);
                    Taking::Taken
                }
            },
            Err(StepStop::Form(_)) => Taking::NoForm,
            Err(StepStop::LinkFailed) => self.fail(text),
        }
    }
}
