//! Sessions that are opened (GlobalPlatform Amendment D, 7.1.1, 7.1.2).

ghost use Rattle.std.specs.Prelude.{◌≡◌, true, length, OnOk};
ghost use Rattle.script_tool.specs.Prelude.{HasCause, Host, Offer, Plays, RepresentsHost, RepresentsSession, Short, after_authenticate, channel_number, playing_open, send_in_plain, session_from, updating, with_field};
ghost use Rattle.script_lines.specs.declared.opening.Opening.{Opening};
ghost use Rattle.script_tool.specs.Opening as standard;

use crate::aes_session::AesSession;
use crate::host_state::HostState;
use crate::in_plain::send_plain;
use crate::link::{CardLink, LinkFailed};
use crate::printout::{DONE, Printout};
use crate::wire::Wire;
use crate::word::Word;
use apdu_core::{Command, on_channel};
use arrayvec::ArrayVec;
use scp03_host::BeginRefusal;
use script_lines::{Channel, Opening};

/// Opens a session on the host's channel.
#[inline(never)]
pub fn open<L: CardLink>(
    host: &mut HostState,
    wire: &mut Wire,
    link: &mut L,
    opening: &Opening,
) -> Result<Printout, LinkFailed>
    requires up { L.up link.old ≡ true }
    ensures played { (whole : Host) → RepresentsHost host.old whole → Plays L.CardLink link.old link.new (playing_open whole opening.now) host.new result }
    ensures up { OnOk result (L.up link.new ≡ true) }
    ensures cause { HasCause (L.faults link.old) (L.faults link.new) result }
{
    write_update(host.channel, opening, &mut wire.sent);
    match send_plain(wire, link)? {
        Printout::Reply(field, status) => {
            if status == DONE {
                host.sessions.end(host.channel);
                answer_update(host, wire, link, opening, &field)
            } else {
                Ok(Printout::Reply(ArrayVec::new(), status))
            }
        }
        other => Ok(other),
    }
}

// Replaces what `out` holds by INITIALIZE UPDATE.
fn write_update(channel: Channel, opening: &Opening, out: &mut ArrayVec<u8, 261>)
    ensures { Short (updating (channel_number channel) opening.now) out.new.items }
{
    let command = Command {
        class: on_channel(0x80, channel.number()),
        ins: 0x50,
        p1: opening.version,
        p2: 0x00,
        body: &opening.challenge,
        le: None,
    };
    command.write(out);
}

// Checks the card cryptogram in the data field of the reply to INITIALIZE UPDATE, and answers by EXTERNAL AUTHENTICATE.
fn answer_update<L: CardLink>(
    host: &mut HostState,
    wire: &mut Wire,
    link: &mut L,
    opening: &Opening,
    field: &[u8],
) -> Result<Printout, LinkFailed>
    requires up { L.up link.old ≡ true }
    ensures played { (whole : Host) → RepresentsHost host.old whole
        → Plays L.CardLink link.old link.new (with_field whole opening.now field.now) host.new result }
    ensures up { OnOk result (L.up link.new ≡ true) }
    ensures cause { HasCause (L.faults link.old) (L.faults link.new) result }
{
    let channel = host.channel.number();
    match AesSession::begin(&host.keys, opening, field, channel, &mut wire.sent) {
        Ok(session) => authenticate(host, wire, link, session, counter_in(field)),
        Err(BeginRefusal::Short) => Ok(Printout::Said(Word::Short)),
        Err(BeginRefusal::CardCryptogram) => Ok(Printout::Cryptogram(counter_in(field))),
    }
}

// The sequence counter.
fn counter_in(field: &[u8]) -> [u8; 3]
    requires { length field.now ≡ 32 }
    ensures { result ≡ standard.counter_in field.now }
{
    let mut counter = [0; 3];
    counter.copy_from_slice(&field[29..]);
    counter
}

// Sends EXTERNAL AUTHENTICATE, and puts the session on the host's channel where the card accepts it.
fn authenticate<L: CardLink>(
    host: &mut HostState,
    wire: &mut Wire,
    link: &mut L,
    session: AesSession,
    counter: [u8; 3],
) -> Result<Printout, LinkFailed>
    requires up { L.up link.old ≡ true }
    ensures played { (whole : Host) (o : Opening) (offer : Offer) → RepresentsHost host.old whole → RepresentsSession session (session_from offer o.level)
        → Plays L.CardLink link.old link.new (send_in_plain whole wire.old.sent.items (after_authenticate o offer counter)) host.new result }
    ensures up { OnOk result (L.up link.new ≡ true) }
    ensures cause { HasCause (L.faults link.old) (L.faults link.new) result }
{
    match send_plain(wire, link)? {
        Printout::Reply(_, status) => {
            if status == DONE {
                host.sessions.put(host.channel, session);
            }
            Ok(Printout::Opened(counter, status))
        }
        other => Ok(other),
    }
}
