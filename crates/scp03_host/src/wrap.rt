//! Protected commands (GlobalPlatform Amendment D, 6.2.4, 6.2.6).

ghost use Rattle.std.specs.Prelude.{◌≡◌, ◌↔◌, ◌+◌, ◌<◌, ◌≤◌, length, take, IsErr, OnOk, OnErr};
ghost use Rattle.apdu_core.specs.Apdu.{Short, apdu_of};
ghost use Rattle.apdu_core.specs.ClassBytes.{IsBasicChannel};
ghost use Rattle.scp03_card.specs.Kept.{HasSessionKeys, RepresentsSession};
ghost use Rattle.scp03_card.specs.Session as model;
ghost use Rattle.scp03_card.specs.Session.{chain_of};
ghost use Rattle.scp03_host.specs.Wrapped as standard;
ghost use Rattle.scp03_host.specs.Wrapped.{having_sent, next_message, sent_field, wrapped_command};

use crate::host_session::HostSession;
use crate::refusals::TooLong;
use aes_block::BlockKey;
use apdu_core::{Command, on_channel};
use arrayvec::ArrayVec;
use card_types::Level;
use scp03_card::{SessionKeys, has_c_decryption};

impl<K: BlockKey> HostSession<K> {
    /// Replaces what `out` holds by the protected command to send on the channel. Of the plain command the
    /// class and Le are not sent.
    pub fn wrap(
        &mut self,
        plain: &Command<'_>,
        channel: u8,
        out: &mut ArrayVec<u8, 261>,
    ) -> Result<(), TooLong>
        requires { IsBasicChannel channel }
        ensures sent { (session : model.Session) → RepresentsSession self.old session
            → OnOk result (Short (wrapped_command session (apdu_of plain.now) channel) out.new.items) }
        ensures accepted { (session : model.Session) → RepresentsSession self.old session → OnOk result (RepresentsSession self.new (having_sent session (apdu_of plain.now))) }
        ensures too_long { (session : model.Session) → RepresentsSession self.old session
            → IsErr result ↔ (standard.room_for session.level < length plain.now.body.now) }
        ensures unchanged { OnErr result ((self.new ≡ self.old) × (out.new ≡ out.old)) }
    {
        if plain.body.len() > room_for(self.level) {
            return Err(TooLong);
        }
        let mut body = [0; 255];
        let number = self.number.wrapping_add(1);
        let len = write_field(&self.keys, self.level, number, plain.body, &mut body);
        let chain = self.chain_after(plain, &body[..len]);
        body[len..len + 8].copy_from_slice(&chain[..8]);
        let command = Command {
            class: on_channel(0x84, channel),
            ins: plain.ins,
            p1: plain.p1,
            p2: plain.p2,
            body: &body[..len + 8],
            le: None,
        };
        command.write(out);
        self.chain = chain;
        self.number = number;
        Ok(())
    }

    // The chaining value after the command with this data field.
    fn chain_after(&self, plain: &Command<'_>, field: &[u8]) -> [u8; 16]
        requires { length field.now ≤ 247 }
        ensures { (session : model.Session) → RepresentsSession self.now session → field.now ≡ sent_field session plain.now.body.now
            → result ≡ chain_of (having_sent session (apdu_of plain.now)) }
    {
        let header = [0x84, plain.ins, plain.p1, plain.p2, field.len() as u8 + 8];
        self.keys.chain_after(&self.chain, &header, field)
    }
}

/// How many bytes a plain data field may have at this level.
fn room_for(level: Level) -> usize
    ensures { result ≡ standard.room_for level }
{
    if has_c_decryption(level) { 239 } else { 247 }
}

// Writes the data field to the front of `body` as it is sent, in the message with this number, and answers its length.
fn write_field<K: BlockKey>(
    keys: &SessionKeys<K>,
    level: Level,
    number: u128,
    field: &[u8],
    body: &mut [u8; 255],
) -> usize
    requires { length field.now ≤ standard.room_for level }
    ensures field { (session : model.Session) → HasSessionKeys keys.now session.offer → level ≡ session.level → number ≡ next_message session
        → take result body.new ≡ sent_field session field.now }
    ensures length { result ≤ 247 }
{
    let len = field.len();
    body[..len].copy_from_slice(field);
    if field.is_empty() || !has_c_decryption(level) {
        return len;
    }
    keys.seal(&number.to_be_bytes(), body, len)
}
