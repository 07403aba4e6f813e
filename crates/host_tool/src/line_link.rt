//! A link over a pair of streams.

ghost use Rattle.std.specs.Prelude.{◌≡◌, true, false, None, Some};
ghost use Rattle.faults.specs.Faults.{next_count};
ghost use Rattle.host_tool.specs.Conveyed.{Conveyed, Unanswered};
ghost use Rattle.host_tool.specs.Link.{sides_of, unread};

use crate::asking::ask;
use crate::command_line::write_reset;
use crate::fault::LinkFault;
use crate::reply_line::Reply;
use io_edge::{Lines, Sink, Source};
use script_tool::{CardLink, LinkFailed};
use std::marker::Model;

/// A card at the other end of two streams: a line goes out for each command and each reset, and a line comes in for each reply.
#[derive(Drop)]
pub struct LineLink<S: Source, K: Sink> {
    replies: S,
    lines: Lines,
    commands: K,
    why: Option<LinkFault>,
    up: bool,
    faults: u64,
}

impl<S: Source, K: Sink> Model for LineLink<S, K> {
    ghost use Rattle.std.specs.Prelude.{◌≡◌, true, None};
    ghost use Rattle.host_tool.specs.Link.{Linked};

    ghost Value = { Linked S K };

    ghost view = { λ l. record { replies = l.replies; reading = l.lines; commands = l.commands; why = l.why; up = l.up; faults = l.faults } };

    ghost invariant = { λ l. l.up ≡ true → l.lines.stop ≡ None };
}

impl<S: Source, K: Sink> LineLink<S, K> {
    /// A link over which nothing has gone yet.
    pub fn new(replies: S, commands: K) -> LineLink<S, K>
        ensures { result ≡ record { replies = replies; reading = unread; commands = commands; why = None; up = true; faults = 0 } }
    {
        LineLink {
            replies,
            lines: Lines::new(),
            commands,
            why: None,
            up: true,
            faults: 0,
        }
    }

    /// Whether no command has failed.
    pub fn up(&self) -> bool
        ensures { result ≡ self.now.up }
    {
        self.up
    }

    /// Why a command or a reset has failed, if one has.
    pub fn why(&self) -> Option<LinkFault>
        ensures { result ≡ self.now.why }
    {
        self.why
    }

    /// The streams.
    pub fn into_streams(self) -> (S, K)
        ensures { result ≡ (self.replies, self.commands) }
    {
        (self.replies, self.commands)
    }

    // Keeps why a command has failed.
    fn fail(&mut self, fault: LinkFault) -> LinkFailed
        ensures { self.new ≡ record self.old { why = Some fault; up = false; faults = next_count self.old.faults } }
    {
        self.why = Some(fault);
        self.up = false;
        self.faults = self.faults.saturating_add(1);
        LinkFailed
    }
}

// It does not tell what the card stands for.
impl<S: Source, K: Sink> CardLink for LineLink<S, K> {
    ghost stands = { λ _ _. ⊥ };

    ghost came = { λ _ _ _ _. ⊥ };

    ghost conveyed = { λ start now events. Conveyed S.tells K.tells (sides_of S.Source K.Sink start) (sides_of S.Source K.Sink now) now.why events };

    ghost refused = { λ start now events command. Unanswered S.tells K.tells (sides_of S.Source K.Sink start) (sides_of S.Source K.Sink now) now.why events command };

    ghost up = { λ link. link.up };

    ghost faults = { λ link. link.faults };

    fn send(&mut self, command: &[u8], reply: &mut Reply) -> Result<(), LinkFailed> {
        match self.why {
            Some(fault) => Err(self.fail(fault)),
            None => match ask(
                command,
                &mut self.replies,
                &mut self.lines,
                &mut self.commands,
                reply,
            ) {
                Ok(()) => Ok(()),
                Err(fault) => {
                    self.up = false;
                    Err(self.fail(fault))
                }
            },
        }
    }

    fn reset(&mut self) {
        match self.why {
            Some(_) => {}
            None => match write_reset(&mut self.commands) {
                Ok(()) => {}
                Err(_) => self.why = Some(LinkFault::WriteFault),
            },
        }
    }
}
