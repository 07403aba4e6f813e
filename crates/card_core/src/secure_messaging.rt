//! Secure messaging: what a protected command is in plain, and the reply to it (GlobalPlatform Amendment D, 6.2).

ghost use Rattle.std.specs.Prelude.{◌≡◌, ◌≤◌, length, IfOk, OnOk};
ghost use Rattle.card_core.specs.Prelude.{IsInSession, OpensAs, RepresentsSecureChannel, SecureChannel, Secured, Session, apdu_of, array_vec_len, session_reply};
ghost use Rattle.scp03_card.specs.declared.close.TheConstants.{DATA_LIMIT};

use crate::channel_session::ChannelSession;
use crate::reply::Reply;
use apdu_core::{Command, Status};
use policy_rules::RuleG;
use scp03_card::OpenRefusal;

/// Opens a protected command: its plain data field is in the front of `plain` then, and its length is answered. A wrong
/// C-MAC or padding ends the session.
pub fn open_command(
    held: &mut ChannelSession,
    command: &Command<'_>,
    plain: &mut [u8; 255],
) -> Result<usize, RuleG>
    requires { length command.now.body.now ≤ 255 }
    ensures opens { (secure_channel : SecureChannel) → RepresentsSecureChannel held.old secure_channel → OpensAs (apdu_of command.now) secure_channel held.old held.new plain.new result }
    ensures short { IfOk result (λ count. count ≤ 255) }
    ensures secured { OnOk result (IsInSession held.new) }
{
    let ChannelSession::Secured(session) = held else {
        return Err(RuleG::G6);
    };
    match session.open_command(command, plain) {
        Ok(count) => Ok(count),
        Err(OpenRefusal::Mac) => {
            held.end();
            Err(RuleG::G7)
        }
        Err(OpenRefusal::Padding) => {
            held.end();
            Err(RuleG::G8)
        }
    }
}

/// Closes the reply to a protected command, in the session of its channel.
pub fn close_reply(held: &mut ChannelSession, status: Status, reply: &mut Reply)
    requires secured { IsInSession held.old }
    requires room { array_vec_len reply.old ≤ DATA_LIMIT }
    ensures closed { (session : Session) → RepresentsSecureChannel held.old (Secured session) → reply.new.items ≡ session_reply session reply.old.items status.0 }
    ensures same { held.new ≡ held.old }
{
    if let ChannelSession::Secured(session) = held {
        session.close_reply(reply, status);
    }
}
