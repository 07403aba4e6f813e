//! The commands that lines send in the session of the channel (GlobalPlatform Amendment D, 6.2).

ghost use Rattle.std.specs.Prelude.{◌≡◌, true, false, OnOk};
ghost use Rattle.script_tool.specs.Prelude.{Apdu, HasCause, Host, Plays, RepresentsHost, changing_life, command_of_plain, deleting, extraditing, installing, listing_command, making_selectable, playing_put_key, sending, storing};

use crate::host_state::HostState;
use crate::in_session::send;
use crate::link::{CardLink, LinkFailed};
use crate::printout::Printout;
use crate::wire::Wire;
use crate::word::Word;
use apdu_core::Command;
use card_types::Aid;
use script_lines::{
    Deletion, Extradition, Installation, LifeChange, Listing, Plain, Putting, Tokens, selectable,
};

/// What a host makes a plain command of, with its tokens.
pub trait ToCommand {
    ghost use Rattle.script_lines.specs.declared.tokens.Tokens.{Tokens};

    ghost apdu: { Tokens → Self → Apdu };

    fn to_command(&self, tokens: &Tokens) -> Plain
        ensures { command_of_plain result ≡ apdu tokens.now self.now };
}

impl ToCommand for Installation {
    ghost apdu = { installing };

    fn to_command(&self, tokens: &Tokens) -> Plain {
        self.command(tokens)
    }
}

impl ToCommand for Extradition {
    ghost apdu = { extraditing };

    fn to_command(&self, tokens: &Tokens) -> Plain {
        self.command(tokens)
    }
}

impl ToCommand for Deletion {
    ghost apdu = { deleting };

    fn to_command(&self, tokens: &Tokens) -> Plain {
        self.command(tokens)
    }
}

impl ToCommand for LifeChange {
    ghost apdu = { λ _ change. changing_life change };

    fn to_command(&self, _: &Tokens) -> Plain {
        self.command()
    }
}

/// An application to make selectable.
#[derive(Clone, Copy)]
pub struct Selectable<'a> {
    pub aid: &'a Aid,
}

impl ToCommand for Selectable<'_> {
    ghost apdu = { λ tokens s. making_selectable tokens s.aid.now };

    fn to_command(&self, tokens: &Tokens) -> Plain {
        selectable::command(self.aid, tokens)
    }
}

/// A GET STATUS with this P2.
#[derive(Clone, Copy)]
pub struct Listed<'a> {
    pub listing: &'a Listing,
    pub p2: u8,
}

impl ToCommand for Listed<'_> {
    ghost apdu = { λ _ l. listing_command l.p2 l.listing.now };

    fn to_command(&self, _: &Tokens) -> Plain {
        self.listing.command(self.p2)
    }
}

/// Sends a plain command. It is out of line, as the others are: what they make is set to zeros where they are called.
#[inline(never)]
pub fn send_one<L: CardLink>(
    host: &mut HostState,
    wire: &mut Wire,
    link: &mut L,
    bad: bool,
    command: &Plain,
) -> Result<Printout, LinkFailed>
    requires up { L.up link.old ≡ true }
    ensures played { (whole : Host) (wanted : Apdu) → RepresentsHost host.old whole → command_of_plain command.now ≡ wanted
        → Plays L.CardLink link.old link.new (sending bad whole wanted) host.new result }
    ensures up { OnOk result (L.up link.new ≡ true) }
    ensures cause { HasCause (L.faults link.old) (L.faults link.new) result }
{
    send(host, wire, link, bad, &command.command())
}

/// STORE DATA of one block.
#[inline(never)]
pub fn store<L: CardLink>(
    host: &mut HostState,
    wire: &mut Wire,
    link: &mut L,
    field: &[u8],
) -> Result<Printout, LinkFailed>
    requires up { L.up link.old ≡ true }
    ensures played { (whole : Host) → RepresentsHost host.old whole
        → Plays L.CardLink link.old link.new (sending false whole (storing field.now)) host.new result }
    ensures up { OnOk result (L.up link.new ≡ true) }
    ensures cause { HasCause (L.faults link.old) (L.faults link.new) result }
{
    let command = Command {
        class: 0x80,
        ins: 0xe2,
        p1: 0x90,
        p2: 0x00,
        body: field,
        le: None,
    };
    send(host, wire, link, false, &command)
}

/// PUT KEY of keys that are enciphered under the Key-DEK of the session.
#[inline(never)]
pub fn put_key<L: CardLink>(
    host: &mut HostState,
    wire: &mut Wire,
    link: &mut L,
    putting: &Putting,
) -> Result<Printout, LinkFailed>
    requires up { L.up link.old ≡ true }
    ensures played { (whole : Host) → RepresentsHost host.old whole
        → Plays L.CardLink link.old link.new (playing_put_key whole putting.now) host.new result }
    ensures up { OnOk result (L.up link.new ≡ true) }
    ensures cause { HasCause (L.faults link.old) (L.faults link.new) result }
{
    let Some(session) = host.sessions.on(host.channel) else {
        return Ok(Printout::Said(Word::NoSession));
    };
    let command = session.put_key(putting);
    send(host, wire, link, false, &command.command())
}

/// Sends the command that the host makes.
#[inline(never)]
pub fn send_made<L: CardLink, C: ToCommand>(
    host: &mut HostState,
    wire: &mut Wire,
    link: &mut L,
    made_of: &C,
) -> Result<Printout, LinkFailed>
    requires up { L.up link.old ≡ true }
    ensures played { (whole : Host) → RepresentsHost host.old whole
        → Plays L.CardLink link.old link.new (sending false whole (C.apdu whole.tokens made_of.now)) host.new result }
    ensures up { OnOk result (L.up link.new ≡ true) }
    ensures cause { HasCause (L.faults link.old) (L.faults link.new) result }
{
    let command = made_of.to_command(&host.tokens);
    send_one(host, wire, link, false, &command)
}
