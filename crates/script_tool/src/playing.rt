//! What is done with a line that has a form (this profile's own).

ghost use Rattle.std.specs.Prelude.{◌≡◌, ℕ, List, true, false, OnOk};
ghost use Rattle.script_tool.specs.Prelude.{FitsBlocks, HasCause, Host, IsPlayed, Plays, RepresentsHost, SaysLine, playing, playing_control, playing_exchange, printed_of, wanting};

use crate::commands::{Listed, Selectable, put_key, send_made, send_one, store};
use crate::host_state::HostState;
use crate::in_plain::{raw, select};
use crate::link::{CardLink, LinkFailed};
use crate::loading::load;
use crate::printout::Printout;
use crate::session_opening::open;
use crate::wire::Wire;
use apdu_core::Status;
use script_lines::{Control, Exchange, ScriptLine};

/// P2 of GET STATUS, for the first objects and for the next ones.
const FIRST: u8 = 0x02;

const NEXT: u8 = 0x03;

// Sends what a line sends, and prints what it prints.
fn play_exchange<L: CardLink>(
    host: &mut HostState,
    wire: &mut Wire,
    link: &mut L,
    exchange: &Exchange,
) -> Result<Printout, LinkFailed>
    requires up { L.up link.old ≡ true }
    requires fits { FitsBlocks exchange.now }
    ensures played { (whole : Host) → RepresentsHost host.old whole
        → Plays L.CardLink link.old link.new (playing_exchange whole exchange.now) host.new result }
    ensures up { OnOk result (L.up link.new ≡ true) }
    ensures cause { HasCause (L.faults link.old) (L.faults link.new) result }
{
    match exchange {
        Exchange::Select(aid) => select(host, wire, link, aid),
        Exchange::Raw(bytes) => raw(wire, link, bytes),
        Exchange::Open(opening) => open(host, wire, link, opening),
        Exchange::Load(file) => load(host, wire, link, file),
        Exchange::PutKey(putting) => put_key(host, wire, link, putting),
        Exchange::Store(field) => store(host, wire, link, field),
        Exchange::Send(command) => send_one(host, wire, link, false, command),
        Exchange::Bad(command) => send_one(host, wire, link, true, command),
        Exchange::Install(installation) => send_made(host, wire, link, installation),
        Exchange::Selectable(aid) => send_made(host, wire, link, &Selectable { aid }),
        Exchange::Extradite(extradition) => send_made(host, wire, link, extradition),
        Exchange::Delete(deletion) => send_made(host, wire, link, deletion),
        Exchange::Life(change) => send_made(host, wire, link, change),
        Exchange::List(listing) => send_made(host, wire, link, &Listed { listing, p2: FIRST }),
        Exchange::More(listing) => send_made(host, wire, link, &Listed { listing, p2: NEXT }),
    }
}

// Whether a status is the one that was printed last.
fn wanted(last: Option<Status>, want: Status) -> Printout
    ensures { printed_of result ≡ wanting last want.0 }
{
    match last {
        Some(got) if got == want => Printout::Nothing,
        _ => Printout::Differs(want, last),
    }
}

// Does what a line asks for that sends nothing.
fn obey<L: CardLink>(host: &mut HostState, link: &mut L, control: &Control) -> Printout
    requires up { L.up link.old ≡ true }
    ensures played { (whole : Host) → RepresentsHost host.old whole
        → IsPlayed L.CardLink link.old link.new (playing_control whole control.now) (printed_of result) host.new }
    ensures up { L.up link.new ≡ true }
    ensures quiet { L.faults link.new ≡ L.faults link.old }
{
    match control {
        Control::Want(status) => wanted(host.last, *status),
        Control::Channel(channel) => {
            host.channel = *channel;
            Printout::Nothing
        }
        Control::Keys(keys) => {
            host.keys = *keys;
            Printout::Nothing
        }
        Control::Tokens(tokens) => {
            host.tokens = *tokens;
            Printout::Nothing
        }
        Control::Reset => {
            link.reset();
            host.reset();
            Printout::Nothing
        }
    }
}

/// Plays a line that has a form.
pub fn play<L: CardLink>(
    host: &mut HostState,
    wire: &mut Wire,
    link: &mut L,
    said: &ScriptLine,
) -> Result<Printout, LinkFailed>
    requires up { L.up link.old ≡ true }
    requires form { (text : List ℕ) × SaysLine text said.now }
    ensures played { (whole : Host) → RepresentsHost host.old whole
        → Plays L.CardLink link.old link.new (playing whole said.now) host.new result }
    ensures up { OnOk result (L.up link.new ≡ true) }
    ensures cause { HasCause (L.faults link.old) (L.faults link.new) result }
{
    match said {
        ScriptLine::Nothing => Ok(Printout::Nothing),
        ScriptLine::Control(control) => Ok(obey(host, link, control)),
        ScriptLine::Exchange(exchange) | ScriptLine::Quiet(exchange) => {
            play_exchange(host, wire, link, exchange)
        }
    }
}
