//! Commands that are sent as they are (ISO/IEC 7816-4:2013, chapter 5).

ghost use Rattle.std.specs.Prelude.{◌≡◌, ◌≤◌, ℕ, List, true, length, OnOk, None, MatchOption, if◌then◌else◌};
ghost use Rattle.script_tool.specs.Prelude.{Continues, HasCause, Host, IsReadInPlain, Plays, RepresentsHost, Talk, channel_number, command_bytes, has_selected, playing_raw, playing_select, printed_of, selecting, send_in_plain, status_printed, with_own};
ghost use Rattle.script_tool.specs.declared.host_state.HostState.{HostState};

use crate::host_state::HostState;
use crate::link::{CardLink, LinkFailed};
use crate::printout::{DONE, Printout};
use crate::wire::Wire;
use crate::word::Word;
use apdu_core::{Command, Reply, Status};
use arrayvec::ArrayVec;
use card_types::Aid;
use script_lines::Channel;

/// A card that is locked has selected what was named.
const LOCKED: Status = Status(0x6283);

// What a reply says in plain.
fn plain_reply(reply: &[u8]) -> Printout
    requires { length reply.now ≤ 258 }
    ensures { IsReadInPlain reply.now (printed_of result) }
{
    let Ok(Reply { body, status }) = Reply::read(reply) else {
        return Printout::Said(Word::Short);
    };
    let mut field = ArrayVec::new();
    field.try_extend_from_slice(body).unwrap();
    Printout::Reply(field, status)
}

/// Sends a command, and reads the reply.
pub fn send_plain<L: CardLink>(wire: &mut Wire, link: &mut L) -> Result<Printout, LinkFailed>
    requires up { L.up link.old ≡ true }
    ensures goes_on { (host : HostState) (whole : Host) (rest : Host → List ℕ → ℕ → Talk) → RepresentsHost host whole
        → Continues L.CardLink link.old link.new (send_in_plain whole wire.old.sent.items rest) rest host result }
    ensures up { OnOk result (L.up link.new ≡ true) }
    ensures cause { HasCause (L.faults link.old) (L.faults link.new) result }
{
    wire.transmit(link)?;
    Ok(plain_reply(&wire.reply))
}

/// Sends bytes.
#[inline(never)]
pub fn raw<L: CardLink>(wire: &mut Wire, link: &mut L, bytes: &[u8]) -> Result<Printout, LinkFailed>
    requires up { L.up link.old ≡ true }
    requires short { length bytes.now ≤ 261 }
    ensures played { (host : HostState) (whole : Host) → RepresentsHost host whole
        → Plays L.CardLink link.old link.new (playing_raw whole bytes.now) host result }
    ensures up { OnOk result (L.up link.new ≡ true) }
    ensures cause { HasCause (L.faults link.old) (L.faults link.new) result }
{
    wire.sent.clear();
    wire.sent.try_extend_from_slice(bytes).unwrap();
    send_plain(wire, link)
}

// SELECT by AID, or of the Issuer Security Domain.
fn write_select(channel: Channel, aid: &Option<Aid>, out: &mut ArrayVec<u8, 261>)
    ensures { out.new.items ≡ command_bytes (selecting (channel_number channel) aid.now) }
{
    let body = match aid {
        Some(aid) => aid.as_bytes(),
        None => &[],
    };
    let command = Command {
        class: channel.number(),
        ins: 0xa4,
        p1: 0x04,
        p2: 0x00,
        body,
        le: None,
    };
    command.write(out);
}

// Ends the session of the channel, where something was selected.
fn end_if_selected(host: &mut HostState, printout: &Printout)
    ensures { MatchOption (status_printed (printed_of printout.now)) (host.new ≡ host.old) (λ status. (whole : Host) → RepresentsHost host.old whole
        → RepresentsHost host.new (if has_selected status.0 then with_own None whole else whole)) }
{
    if let Some(DONE | LOCKED) = printout.status() {
        host.sessions.end(host.channel);
    }
}

/// Selects an application, which ends the session of the channel.
#[inline(never)]
pub fn select<L: CardLink>(
    host: &mut HostState,
    wire: &mut Wire,
    link: &mut L,
    aid: &Option<Aid>,
) -> Result<Printout, LinkFailed>
    requires up { L.up link.old ≡ true }
    ensures played { (whole : Host) → RepresentsHost host.old whole
        → Plays L.CardLink link.old link.new (playing_select whole aid.now) host.new result }
    ensures up { OnOk result (L.up link.new ≡ true) }
    ensures cause { HasCause (L.faults link.old) (L.faults link.new) result }
{
    write_select(host.channel, aid, &mut wire.sent);
    let printout = send_plain(wire, link)?;
    end_if_selected(host, &printout);
    Ok(printout)
}
