//! A session under keys of any length (GlobalPlatform Amendment D, 6.2).

ghost use Rattle.std.specs.Prelude.{◌≡◌, ℕ, ◌+◌, ◌≤◌, ◌↔◌, IsTrue, List, length, take, IfOk, OnOk, OnErr};
ghost use Rattle.card_core.specs.Prelude.{Gives, IsAuthentic, IsKeyLength, IsKeySent, Opens, RepresentsSession, accepting, apdu_of, array_vec_len, check_value, field_of, sealed_size, sent_key, session_reply};
ghost use Rattle.scp03_card.specs.Session as model;
ghost use Rattle.scp03_card.specs.declared.close.TheConstants.{DATA_LIMIT};

use crate::aes_kind::AesKind;
use crate::opened_key::{OpenedKey, open_key};
use crate::reply::Reply;
use aes_block::{Aes128, Aes192, Aes256};
use apdu_core::{Command, Status};
use policy_rules::SealedKey;
use scp03_card::{OpenRefusal, Session};
use std::marker::Model;

/// A session under keys of a key set, whichever length these have.
#[derive(Drop)]
pub struct AesSession {
    pub(crate) kind: AesKind<Session<Aes128>, Session<Aes192>, Session<Aes256>>,
}

// Contracts see the session, and not the kind.
impl Model for AesSession {
    ghost use Rattle.scp03_card.specs.Kept.{KeptSession};
    ghost use Rattle.card_core.specs.AesKinds.{kept_under};

    ghost Value = { KeptSession };

    ghost view = { λ s. kept_under s.kind };
}

impl AesSession {
    /// Accepts a protected command, as `Session::open_command` does.
    pub fn open_command(
        &mut self,
        command: &Command<'_>,
        plain: &mut [u8; 255],
    ) -> Result<usize, OpenRefusal>
        requires { length command.now.body.now ≤ 255 }
        ensures opened { (session : model.Session) → RepresentsSession self.old session → IfOk result (λ n. Opens session (apdu_of command.now) (take n plain.new)) }
        ensures accepted { (session : model.Session) → RepresentsSession self.old session → OnOk result (RepresentsSession self.new (accepting session (apdu_of command.now))) }
        ensures length { IfOk result (λ n. n + 8 ≤ length command.now.body.now) }
        ensures mac { (session : model.Session) → RepresentsSession self.old session → result ≡ Err OpenRefusal.Mac → IsAuthentic session (apdu_of command.now) → ⊥ }
        ensures padding { (session : model.Session) → RepresentsSession self.old session → result ≡ Err OpenRefusal.Padding
            → (p : List ℕ) → Gives (accepting session (apdu_of command.now)) (field_of (apdu_of command.now)) p → ⊥ }
        ensures padding_alone { (session : model.Session) → RepresentsSession self.old session → result ≡ Err OpenRefusal.Padding → IsAuthentic session (apdu_of command.now) }
        ensures unchanged { OnErr result (self.new ≡ self.old) }

        // What opens is opened.
        ensures back { (session : model.Session) (p : List ℕ) → RepresentsSession self.old session → Opens session (apdu_of command.now) p
            → (n : ℕ) × (result ≡ Ok n) × (take n plain.new ≡ p) }
    {
        match &mut self.kind {
            AesKind::Aes128(session) => session.open_command(command, plain),
            AesKind::Aes192(session) => session.open_command(command, plain),
            AesKind::Aes256(session) => session.open_command(command, plain),
        }
    }

    /// Makes the whole reply to the command that was opened last, as `Session::close_reply` does.
    pub fn close_reply(&mut self, reply: &mut Reply, status: Status)
        requires { array_vec_len reply.old ≤ DATA_LIMIT }
        ensures protected { (session : model.Session) → RepresentsSession self.old session → reply.new.items ≡ session_reply session reply.old.items status.0 }
        ensures unchanged { self.new ≡ self.old }
    {
        match &mut self.kind {
            AesKind::Aes128(session) => session.close_reply(reply, status),
            AesKind::Aes192(session) => session.close_reply(reply, status),
            AesKind::Aes256(session) => session.close_reply(reply, status),
        }
    }

    /// The key that was sent under the static Key-DEK.
    pub fn open_key(&self, sent: &SealedKey<'_>) -> OpenedKey
        requires size { IsKeyLength sent.now.len }
        requires sealed { length sent.now.sealed.now ≡ sealed_size sent.now.len }
        ensures key { (session : model.Session) → RepresentsSession self.now session → IsKeySent session.offer.dek (sent_key sent.now) result.bytes.items }
        ensures length { length result.bytes.items ≡ sent.now.len }
        ensures fits { IsTrue result.fits ↔ (check_value result.bytes.items ≡ sent.now.check.now) }
    {
        match &self.kind {
            AesKind::Aes128(session) => open_key(session.dek(), sent),
            AesKind::Aes192(session) => open_key(session.dek(), sent),
            AesKind::Aes256(session) => open_key(session.dek(), sent),
        }
    }
}
