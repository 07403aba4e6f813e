//! Commands in a session (GlobalPlatform Amendment D, 6.2).

ghost use Rattle.std.specs.Prelude.{◌≡◌, ◌≤◌, Some, true, length, OnOk};
ghost use Rattle.script_tool.specs.Prelude.{Continues, HasCause, Host, RepresentsHost, Rest, Session, apdu_of, awaiting, for_session, protecting, with_bad_mac, with_own};

use crate::host_state::HostState;
use crate::link::{CardLink, LinkFailed};
use crate::printout::Printout;
use crate::wire::Wire;
use apdu_core::Command;
use arrayvec::ArrayVec;

// Turns the lowest bit of the first byte of the C-MAC, which is the last eight bytes, where the command is to be bad.
fn spoil(bad: bool, command: &mut ArrayVec<u8, 261>)
    ensures { 8 ≤ length command.old.items → command.new.items ≡ with_bad_mac bad command.old.items }
{
    if bad && command.len() >= 8 {
        let first = command.len() - 8;
        command.as_mut_slice()[first] ^= 1;
    }
}

// Sends what was protected in the session of the host's channel, and reads the reply. A reply that can't be read ends the session.
fn exchange<L: CardLink>(
    host: &mut HostState,
    wire: &mut Wire,
    link: &mut L,
) -> Result<Printout, LinkFailed>
    requires up { L.up link.old ≡ true }
    ensures goes_on { (whole : Host) (sent : Session) (rest : Rest) → RepresentsHost host.old (with_own (Some sent) whole)
        → Continues L.CardLink link.old link.new (awaiting whole sent wire.old.sent.items rest) rest host.new result }
    ensures up { OnOk result (L.up link.new ≡ true) }
    ensures cause { HasCause (L.faults link.old) (L.faults link.new) result }
{
    wire.transmit(link)?;
    let mut field = ArrayVec::new();
    match host.sessions.unwrap(host.channel, &wire.reply, &mut field) {
        Ok(status) => Ok(Printout::Reply(field, status)),
        Err(word) => Ok(Printout::Said(word)),
    }
}

/// Sends a command in the session of the host's channel.
pub fn send<L: CardLink>(
    host: &mut HostState,
    wire: &mut Wire,
    link: &mut L,
    bad: bool,
    command: &Command<'_>,
) -> Result<Printout, LinkFailed>
    requires up { L.up link.old ≡ true }
    ensures goes_on { (whole : Host) (rest : Rest) → RepresentsHost host.old whole
        → Continues L.CardLink link.old link.new (for_session whole (λ kept. protecting whole kept bad (apdu_of command.now) rest)) rest host.new result }
    ensures up { OnOk result (L.up link.new ≡ true) }
    ensures cause { HasCause (L.faults link.old) (L.faults link.new) result }
{
    if let Err(word) = host.sessions.wrap(host.channel, command, &mut wire.sent) {
        return Ok(Printout::Said(word));
    }
    spoil(bad, &mut wire.sent);
    exchange(host, wire, link)
}
