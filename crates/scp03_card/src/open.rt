//! Protected commands (GlobalPlatform Amendment D, 6.2.4, 6.2.6).

ghost use Rattle.std.specs.Prelude.{◌≡◌, ℕ, ◌+◌, ◌≤◌, List, length, take, IfOk, OnOk, OnErr, IfSome, IfNone};
ghost use Rattle.apdu_core.specs.Apdu.{apdu_of};
ghost use Rattle.scp03_card.specs.Kept.{HasSessionKeys, RepresentsSession};
ghost use Rattle.scp03_card.specs.Opens.{Gives, IsAuthentic, Opens, accepting, field_of};
ghost use Rattle.scp03_card.specs.Session as model;
ghost use Rattle.scp03_card.specs.Session.{chain_of, message, with_message};

use crate::eight_bytes::same;
use crate::levels::has_c_decryption;
use crate::refusals::OpenRefusal;
use crate::session::Session;
use crate::session_keys::SessionKeys;
use aes_block::BlockKey;
use apdu_core::{Command, off_channel};
use card_types::Level;

impl<K: BlockKey> Session<K> {
    /// Accepts a protected command, and answers how many bytes its plain data field has. These are
    /// the first of `plain`, which after a refusal holds nothing to go by.
    pub fn open_command(
        &mut self,
        command: &Command<'_>,
        plain: &mut [u8; 255],
    ) -> Result<usize, OpenRefusal>
        requires { length command.now.body.now ≤ 255 }
        ensures opened { (session : model.Session) → RepresentsSession self.old session → IfOk result (λ n. Opens session (apdu_of command.now) (take n plain.new)) }
        ensures accepted { (session : model.Session) → RepresentsSession self.old session → OnOk result (RepresentsSession self.new (accepting session (apdu_of command.now))) }
        ensures length { IfOk result (λ n. n + 8 ≤ length command.now.body.now) }
        ensures mac { (session : model.Session) → RepresentsSession self.old session → result ≡ Err OpenRefusal.Mac → IsAuthentic session (apdu_of command.now) → ⊥ }
        ensures padding { (session : model.Session) → RepresentsSession self.old session → result ≡ Err OpenRefusal.Padding
            → (p : List ℕ) → Gives (accepting session (apdu_of command.now)) (field_of (apdu_of command.now)) p → ⊥ }
        ensures padding_alone { (session : model.Session) → RepresentsSession self.old session → result ≡ Err OpenRefusal.Padding → IsAuthentic session (apdu_of command.now) }
        ensures unchanged { OnErr result (self.new ≡ self.old) }

        // What opens is opened.
        ensures back { (session : model.Session) (p : List ℕ) → RepresentsSession self.old session → Opens session (apdu_of command.now) p
            → (n : ℕ) × (result ≡ Ok n) × (take n plain.new ≡ p) }
    {
        let field = sent_field(command);
        let chain = self.chain_after(command, field);
        if !same(&command.body[field.len()..], &chain[..8]) {
            return Err(OpenRefusal::Mac);
        }
        let number = self.number.wrapping_add(1);
        let Some(len) = plain_field(&self.keys, self.level, number, field, plain) else {
            return Err(OpenRefusal::Padding);
        };
        self.chain = chain;
        self.number = number;
        Ok(len)
    }

    // The chaining value after a command with this data field.
    fn chain_after(&self, command: &Command<'_>, field: &[u8]) -> [u8; 16]
        requires { length field.now ≤ 247 }
        ensures { (session : model.Session) → RepresentsSession self.now session
            → result ≡ chain_of (with_message session (message (apdu_of command.now) field.now)) }
    {
        let header = [
            off_channel(command.class),
            command.ins,
            command.p1,
            command.p2,
            field.len() as u8 + 8,
        ];
        self.keys.chain_after(&self.chain, &header, field)
    }
}

// The data field as it was sent, without the C-MAC.
fn sent_field<'a>(command: &Command<'a>) -> &'a [u8]
    ensures { result.now ≡ field_of (apdu_of command.now) }
{
    &command.body[..command.body.len().saturating_sub(8)]
}

// Writes what the data field of the command with this number gives to the front of `plain`.
fn plain_field<K: BlockKey>(
    keys: &SessionKeys<K>,
    level: Level,
    number: u128,
    field: &[u8],
    plain: &mut [u8; 255],
) -> Option<usize>
    requires { length field.now ≤ 255 }
    ensures some { (session : model.Session) → HasSessionKeys keys.now session.offer → level ≡ session.level → number ≡ model.message_number session
        → IfSome result (λ n. Gives session field.now (take n plain.new)) }
    ensures none { (session : model.Session) → HasSessionKeys keys.now session.offer → level ≡ session.level → number ≡ model.message_number session
        → IfNone result ((p : List ℕ) → Gives session field.now p → ⊥) }
    ensures length { IfSome result (λ n. n ≤ length field.now) }
{
    let len = field.len();
    plain[..len].copy_from_slice(field);
    decipher(keys, level, number, &mut plain[..len])
}

// Deciphers a data field in place: `field` is the data field at entry.
fn decipher<K: BlockKey>(
    keys: &SessionKeys<K>,
    level: Level,
    number: u128,
    field: &mut [u8],
) -> Option<usize>
    ensures some { (session : model.Session) → HasSessionKeys keys.now session.offer → level ≡ session.level → number ≡ model.message_number session
        → IfSome result (λ n. Gives session field.old (take n field.new)) }
    ensures none { (session : model.Session) → HasSessionKeys keys.now session.offer → level ≡ session.level → number ≡ model.message_number session
        → IfNone result ((p : List ℕ) → Gives session field.old p → ⊥) }
    ensures length { IfSome result (λ n. n ≤ length field.old) }
{
    if field.is_empty() || !has_c_decryption(level) {
        return Some(field.len());
    }
    let Ok(len) = keys.unseal(&number.to_be_bytes(), field) else {
        return None;
    };
    Some(len)
}
