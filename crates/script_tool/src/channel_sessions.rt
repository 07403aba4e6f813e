//! The sessions of a host (GlobalPlatform Amendment D, chapter 5).

ghost use Rattle.std.specs.Prelude.{◌≡◌, ◌↔◌, ◌<◌, ◌≤◌, None, Some, length, IfErr, IfOk, IsErr, OnErr, OnOk};
ghost use Rattle.apdu_core.specs.ClassBytes.{IsBasicChannel};
ghost use Rattle.script_tool.specs.Prelude.{MayBeSession, RefusesAs, Session, Short, Unwraps, apdu_of, channel_number, having_sent, kept_on, no_kept, room_for, with_kept, wrapped_command};
ghost use Rattle.script_tool.specs.declared.word.Word.TheVariants.{NoSession, TooLong as TooLongWord};

use crate::aes_session::AesSession;
use crate::word::Word;
use apdu_core::{Command, Status};
use arrayvec::ArrayVec;
use scp03_host::TooLong;
use script_lines::Channel;

/// A session for each logical channel that has one.
#[derive(Drop)]
pub struct ChannelSessions {
    pub basic: Option<AesSession>,
    pub first: Option<AesSession>,
    pub second: Option<AesSession>,
    pub third: Option<AesSession>,
}

// Protects a command in the session that is kept, if one is.
fn wrap_in(
    kept: &mut Option<AesSession>,
    plain: &Command<'_>,
    channel: u8,
    out: &mut ArrayVec<u8, 261>,
) -> Result<(), Word>
    requires { IsBasicChannel channel }
    ensures none { kept.old ≡ None → result ≡ Err NoSession }
    ensures sent { (session : Session) → MayBeSession kept.old (Some session)
        → OnOk result (Short (wrapped_command session (apdu_of plain.now) channel) out.new.items) }
    ensures accepted { (session : Session) → MayBeSession kept.old (Some session)
        → OnOk result (MayBeSession kept.new (Some (having_sent session (apdu_of plain.now)))) }
    ensures too_long { (session : Session) → MayBeSession kept.old (Some session)
        → IsErr result ↔ (room_for session.level < length plain.now.body.now) }
    ensures word { (session : Session) → MayBeSession kept.old (Some session) → IfErr result (λ word. word ≡ TooLongWord) }
    ensures unchanged { OnErr result ((kept.new ≡ kept.old) × (out.new ≡ out.old)) }
{
    match kept {
        None => Err(Word::NoSession),
        Some(session) => match session.wrap(plain, channel, out) {
            Ok(()) => Ok(()),
            Err(TooLong) => Err(Word::TooLong),
        },
    }
}

// Drops what is kept. Where nothing is, nothing is written. It is out of line, so that its callers have a small stack frame.
#[inline(never)]
fn drop_kept(kept: &mut Option<AesSession>)
    ensures { kept.new ≡ None }
{
    if kept.is_some() {
        *kept = None;
    }
}

// Reads the reply in the session that is kept, if one is. A reply that can't be read ends it.
fn unwrap_in(
    kept: &mut Option<AesSession>,
    reply: &[u8],
    out: &mut ArrayVec<u8, 256>,
) -> Result<Status, Word>
    requires { length reply.now ≤ 258 }
    ensures none { kept.old ≡ None → result ≡ Err NoSession }
    ensures unwrapped { (session : Session) → MayBeSession kept.old (Some session) → IfOk result (λ status. Unwraps session reply.now out.new.items status.0) }
    ensures refused { (session : Session) → MayBeSession kept.old (Some session) → IfErr result (RefusesAs session reply.now) }
    ensures stays { OnOk result (kept.new ≡ kept.old) }
    ensures ended { OnErr result (kept.new ≡ None) }
{
    let read = match kept {
        None => return Err(Word::NoSession),
        Some(session) => session.unwrap(reply, out),
    };
    match read {
        Ok(status) => Ok(status),
        Err(refusal) => {
            drop_kept(kept);
            Err(Word::of_refusal(refusal))
        }
    }
}

impl ChannelSessions {
    /// No session on any channel.
    pub fn new() -> ChannelSessions
        ensures { result ≡ no_kept }
    {
        ChannelSessions {
            basic: None,
            first: None,
            second: None,
            third: None,
        }
    }

    /// The session of a channel.
    pub fn on(&self, channel: Channel) -> &Option<AesSession>
        ensures { result.now ≡ kept_on channel self.now }
    {
        match channel {
            Channel::Basic => &self.basic,
            Channel::First => &self.first,
            Channel::Second => &self.second,
            Channel::Third => &self.third,
        }
    }

    /// Protects a command in the session of a channel, as `HostSession::wrap` does.
    pub fn wrap(
        &mut self,
        channel: Channel,
        plain: &Command<'_>,
        out: &mut ArrayVec<u8, 261>,
    ) -> Result<(), Word>
        ensures none { kept_on channel self.old ≡ None → result ≡ Err NoSession }
        ensures sent { (session : Session) → MayBeSession (kept_on channel self.old) (Some session)
            → OnOk result (Short (wrapped_command session (apdu_of plain.now) (channel_number channel)) out.new.items) }
        ensures accepted { (session : Session) → MayBeSession (kept_on channel self.old) (Some session)
            → OnOk result (MayBeSession (kept_on channel self.new) (Some (having_sent session (apdu_of plain.now)))) }
        ensures too_long { (session : Session) → MayBeSession (kept_on channel self.old) (Some session)
            → IsErr result ↔ (room_for session.level < length plain.now.body.now) }
        ensures word { (session : Session) → MayBeSession (kept_on channel self.old) (Some session) → IfErr result (λ word. word ≡ TooLongWord) }
        ensures others { self.new ≡ with_kept channel (kept_on channel self.new) self.old }
        ensures unchanged { OnErr result ((self.new ≡ self.old) × (out.new ≡ out.old)) }
    {
        match channel {
            Channel::Basic => wrap_in(&mut self.basic, plain, 0, out),
            Channel::First => wrap_in(&mut self.first, plain, 1, out),
            Channel::Second => wrap_in(&mut self.second, plain, 2, out),
            Channel::Third => wrap_in(&mut self.third, plain, 3, out),
        }
    }

    /// Reads the reply to it, as `HostSession::unwrap` does. A reply that can't be read ends the session.
    pub fn unwrap(
        &mut self,
        channel: Channel,
        reply: &[u8],
        out: &mut ArrayVec<u8, 256>,
    ) -> Result<Status, Word>
        requires { length reply.now ≤ 258 }
        ensures none { kept_on channel self.old ≡ None → result ≡ Err NoSession }
        ensures unwrapped { (session : Session) → MayBeSession (kept_on channel self.old) (Some session)
            → IfOk result (λ status. Unwraps session reply.now out.new.items status.0) }
        ensures refused { (session : Session) → MayBeSession (kept_on channel self.old) (Some session) → IfErr result (RefusesAs session reply.now) }
        ensures stays { OnOk result (self.new ≡ self.old) }
        ensures ended { OnErr result (self.new ≡ with_kept channel None self.old) }
    {
        match channel {
            Channel::Basic => unwrap_in(&mut self.basic, reply, out),
            Channel::First => unwrap_in(&mut self.first, reply, out),
            Channel::Second => unwrap_in(&mut self.second, reply, out),
            Channel::Third => unwrap_in(&mut self.third, reply, out),
        }
    }

    /// Puts a session on a channel, in the place of the one that is there.
    pub fn put(&mut self, channel: Channel, session: AesSession)
        ensures { self.new ≡ with_kept channel (Some session) self.old }
    {
        let session = Some(session);
        match channel {
            Channel::Basic => self.basic = session,
            Channel::First => self.first = session,
            Channel::Second => self.second = session,
            Channel::Third => self.third = session,
        }
    }

    /// Drops the session of a channel.
    pub fn end(&mut self, channel: Channel)
        ensures { self.new ≡ with_kept channel None self.old }
    {
        match channel {
            Channel::Basic => drop_kept(&mut self.basic),
            Channel::First => drop_kept(&mut self.first),
            Channel::Second => drop_kept(&mut self.second),
            Channel::Third => drop_kept(&mut self.third),
        }
    }
}
