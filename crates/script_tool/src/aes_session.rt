//! A session of the host, under keys of any length (GlobalPlatform Amendment D, 6.2).

ghost use Rattle.std.specs.Prelude.{◌≡◌, ◌↔◌, ◌<◌, ◌≤◌, ℕ, List, length, IfOk, IsErr, OnOk, OnErr};
ghost use Rattle.apdu_core.specs.ClassBytes.{IsBasicChannel};
ghost use Rattle.script_tool.specs.Prelude.{HasRightMac, IsTooShort, RepresentsSession, Short, Unwraps, apdu_of, command_of_plain, having_sent, putting_keys, room_for, wrapped_command};
ghost use Rattle.scp03_card.specs.Session as model;

use aes_block::{Aes128, Aes192, Aes256};
use apdu_core::{Command, Status};
use arrayvec::ArrayVec;
use card_types::Level;
use scp03_card::has_c_decryption;
use scp03_host::{HostSession, ReplyRefusal, TooLong};
use script_lines::{OfSize, Plain, Putting};
use std::marker::Model;

/// A session that the host has begun, whichever length its keys have.
#[derive(Drop)]
pub struct AesSession {
    pub(crate) kind: OfSize<HostSession<Aes128>, HostSession<Aes192>, HostSession<Aes256>>,
}

// Contracts see the session, and not the kind.
impl Model for AesSession {
    ghost use Rattle.scp03_card.specs.Kept.{KeptSession};
    ghost use Rattle.script_tool.specs.KeptSession.{session_inside};

    ghost Value = { KeptSession };

    ghost view = { λ s. session_inside s.kind };
}

impl AesSession {
    // Its security level.
    fn level(&self) -> Level
        ensures { (session : model.Session) → RepresentsSession self.now session → result ≡ session.level }
    {
        match &self.kind {
            OfSize::Aes128(session) => session.level(),
            OfSize::Aes192(session) => session.level(),
            OfSize::Aes256(session) => session.level(),
        }
    }

    /// How many bytes a plain data field may have.
    pub fn room(&self) -> usize
        ensures room { (session : model.Session) → RepresentsSession self.now session → result ≡ room_for session.level }
        ensures some { 239 ≤ result }
        ensures most { result ≤ 247 }
    {
        if has_c_decryption(self.level()) {
            239
        } else {
            247
        }
    }

    /// Protects a command, as `HostSession::wrap` does.
    pub fn wrap(
        &mut self,
        plain: &Command<'_>,
        channel: u8,
        out: &mut ArrayVec<u8, 261>,
    ) -> Result<(), TooLong>
        requires { IsBasicChannel channel }
        ensures sent { (session : model.Session) → RepresentsSession self.old session
            → OnOk result (Short (wrapped_command session (apdu_of plain.now) channel) out.new.items) }
        ensures accepted { (session : model.Session) → RepresentsSession self.old session → OnOk result (RepresentsSession self.new (having_sent session (apdu_of plain.now))) }
        ensures too_long { (session : model.Session) → RepresentsSession self.old session
            → IsErr result ↔ (room_for session.level < length plain.now.body.now) }
        ensures unchanged { OnErr result ((self.new ≡ self.old) × (out.new ≡ out.old)) }
    {
        match &mut self.kind {
            OfSize::Aes128(session) => session.wrap(plain, channel, out),
            OfSize::Aes192(session) => session.wrap(plain, channel, out),
            OfSize::Aes256(session) => session.wrap(plain, channel, out),
        }
    }

    /// Reads the reply to it, as `HostSession::unwrap` does.
    pub fn unwrap(
        &mut self,
        reply: &[u8],
        out: &mut ArrayVec<u8, 256>,
    ) -> Result<Status, ReplyRefusal>
        requires { length reply.now ≤ 258 }
        ensures unwrapped { (session : model.Session) → RepresentsSession self.old session → IfOk result (λ status. Unwraps session reply.now out.new.items status.0) }
        ensures short { (session : model.Session) → RepresentsSession self.old session → (result ≡ Err ReplyRefusal.Short) ↔ IsTooShort session reply.now }
        ensures mac { (session : model.Session) → RepresentsSession self.old session
            → (result ≡ Err ReplyRefusal.Mac) ↔ (IsTooShort session reply.now → ⊥) × (HasRightMac session reply.now → ⊥) }
        ensures padding { (session : model.Session) → RepresentsSession self.old session
            → (result ≡ Err ReplyRefusal.Padding) ↔ (IsTooShort session reply.now → ⊥) × HasRightMac session reply.now
            × ((body : List ℕ) (status : ℕ) → Unwraps session reply.now body status → ⊥) }
        ensures unchanged { self.new ≡ self.old }
        ensures back { (session : model.Session) (body : List ℕ) (status : ℕ) → RepresentsSession self.old session → Unwraps session reply.now body status
            → (result ≡ Ok (record { 0 = status })) × (out.new.items ≡ body) }
    {
        match &mut self.kind {
            OfSize::Aes128(session) => session.unwrap(reply, out),
            OfSize::Aes192(session) => session.unwrap(reply, out),
            OfSize::Aes256(session) => session.unwrap(reply, out),
        }
    }

    /// PUT KEY of these keys, enciphered under the session's Key-DEK.
    pub fn put_key(&self, putting: &Putting) -> Plain
        ensures { (session : model.Session) → RepresentsSession self.now session → command_of_plain result ≡ putting_keys session.offer.dek putting.now }
    {
        match &self.kind {
            OfSize::Aes128(session) => putting.command(session.dek()),
            OfSize::Aes192(session) => putting.command(session.dek()),
            OfSize::Aes256(session) => putting.command(session.dek()),
        }
    }
}
