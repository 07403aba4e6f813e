//! Executable Load Files, loaded block by block (GlobalPlatform Card Specification 2.3.1, 11.5.2.3.1, 11.6).

ghost use Rattle.std.specs.Prelude.{◌≡◌, ◌↔◌, ◌≤◌, Some, true, length, IsTrue, OnOk};
ghost use Rattle.script_tool.specs.Prelude.{ContinuesWith, HasCause, Host, Plays, RepresentsHost, Talk, content_bytes, loading_all, playing_load, printed_of, status_printed};
ghost use Rattle.script_lines.specs.Load as standard;
ghost use Rattle.script_tool.specs.declared.printout.TheConstants.{DONE};

use crate::host_state::HostState;
use crate::in_session::send;
use crate::link::{CardLink, LinkFailed};
use crate::printout::{DONE, Printout};
use crate::wire::Wire;
use crate::word::Word;
use apdu_core::Command;
use script_lines::{LoadFile, load_block};

// Whether the status is 9000.
fn is_done(printout: &Printout) -> bool
    ensures { IsTrue result ↔ (status_printed (printed_of printout.now) ≡ Some DONE) }
{
    printout.status() == Some(DONE)
}

// Goes on after what INSTALL for load printed: sends the blocks, of so many bytes, up to the first reply that is not 9000.
fn send_blocks<L: CardLink>(
    host: &mut HostState,
    wire: &mut Wire,
    link: &mut L,
    file: &LoadFile,
    size: usize,
    installed: Printout,
) -> Result<Printout, LinkFailed>
    requires up { L.up link.old ≡ true }
    requires fits { length (content_bytes file.now.content) ≤ 60_000 }
    requires some { 239 ≤ size }
    requires most { size ≤ 247 }
    ensures played { (before : L) (talk : Talk)
        → ContinuesWith L.CardLink before link.old talk (loading_all size file.now) host.old (printed_of installed)
        → Plays L.CardLink before link.new talk host.new result }
    ensures up { OnOk result (L.up link.new ≡ true) }
    ensures cause { HasCause (L.faults link.old) (L.faults link.new) result }
{
    let mut last = installed;
    let count = file.len().div_ceil(size);
    for number in 0..count {
        if !is_done(&last) {
            return Ok(last);
        }
        let block = file.block(number * size, size);
        let command = load_block(number + 1 == count, number as u8, &block);
        last = send(host, wire, link, false, &command)?;
    }
    Ok(last)
}

/// Sends INSTALL for load, and LOAD of each block, up to the first reply that is not 9000.
#[inline(never)]
pub fn load<L: CardLink>(
    host: &mut HostState,
    wire: &mut Wire,
    link: &mut L,
    file: &LoadFile,
) -> Result<Printout, LinkFailed>
    requires up { L.up link.old ≡ true }
    requires fits { length (content_bytes file.now.content) ≤ 60_000 }
    ensures played { (whole : Host) → RepresentsHost host.old whole → Plays L.CardLink link.old link.new (playing_load whole file.now) host.new result }
    ensures up { OnOk result (L.up link.new ≡ true) }
    ensures cause { HasCause (L.faults link.old) (L.faults link.new) result }
{
    let Some(session) = host.sessions.on(host.channel) else {
        return Ok(Printout::Said(Word::NoSession));
    };
    let size = session.room();
    let install = file.install(&host.tokens);
    let installed = send(host, wire, link, false, &install.command())?;
    send_blocks(host, wire, link, file, size, installed)
}
