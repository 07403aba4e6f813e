//! Replies to protected commands (GlobalPlatform Amendment D, 6.2.5, 6.2.7).

ghost use Rattle.std.specs.Prelude.{◌≡◌, ◌+◌, ◌≤◌, ◌++◌, length};
ghost use Rattle.aes_block.specs.Cipher.{cipher};
ghost use Rattle.arrayvec.specs.ArrayVec.{array_vec_len};
ghost use Rattle.cmac_kdf.specs.Cbc.{sealed};
ghost use Rattle.scp03_card.specs.Kept.{RepresentsSession};
ghost use Rattle.scp03_card.specs.Protected.{reply_field, session_reply};
ghost use Rattle.scp03_card.specs.Session as model;
ghost use Rattle.scp03_card.specs.declared.close.TheConstants.{DATA_LIMIT};

use crate::levels::{has_r_encryption, has_r_mac};
use crate::session::Session;
use crate::session_keys::SessionKeys;
use crate::status::is_success_or_warning;
use aes_block::BlockKey;
use apdu_core::Status;
use arrayvec::ArrayVec;
use cmac_kdf::padded_len;

/// How many bytes of data a reply has, at most. Padded, with its R-MAC and its status word, it then fits 258 bytes.
pub const DATA_LIMIT: usize = 239;

impl<K: BlockKey> Session<K> {
    /// Makes the whole reply to the command that was opened last. At entry `reply` is its plain data
    /// field.
    pub fn close_reply(&mut self, reply: &mut ArrayVec<u8, 258>, status: Status)
        requires { array_vec_len reply.old ≤ DATA_LIMIT }
        ensures protected { (session : model.Session) → RepresentsSession self.old session → reply.new.items ≡ session_reply session reply.old.items status.0 }
        ensures unchanged { self.new ≡ self.old }
    {
        let sw = status.to_bytes();
        if !has_r_mac(self.level) {
            append(reply, &sw);
            return;
        }
        if !is_success_or_warning(status) {
            reply.clear();
            append(reply, &sw);
            return;
        }
        self.encipher(reply);
        let mac = self.keys.reply_mac(&self.chain, reply, &sw);
        append(reply, &mac[..8]);
        append(reply, &sw);
    }

    // At the level that asks for it, enciphers a data field that is not empty.
    fn encipher(&self, reply: &mut ArrayVec<u8, 258>)
        requires { array_vec_len reply.old ≤ DATA_LIMIT }
        ensures field { (session : model.Session) → RepresentsSession self.now session → reply.new.items ≡ reply_field session reply.old.items }
        ensures room { array_vec_len reply.new ≤ 240 }
    {
        if reply.is_empty() || !has_r_encryption(self.level) {
            return;
        }
        let mut counter = self.number.to_be_bytes();
        counter[0] = 0x80;
        seal_whole(&self.keys, &counter, reply);
    }
}

// Pads the whole of `reply`, and enciphers it.
fn seal_whole<K: BlockKey>(keys: &SessionKeys<K>, counter: &[u8; 16], reply: &mut ArrayVec<u8, 258>)
    requires { array_vec_len reply.old ≤ DATA_LIMIT }
    ensures sealed { reply.new.items ≡ sealed keys.now.enc (cipher keys.now.enc counter.now) reply.old.items }
    ensures room { array_vec_len reply.new ≤ 240 }
{
    let len = reply.len();
    let padding = padded_len(len) - len;
    append(reply, &[0; 16][..padding]);
    keys.seal(counter, reply.as_mut_slice(), len);
}

fn append(reply: &mut ArrayVec<u8, 258>, bytes: &[u8])
    requires { array_vec_len reply.old + length bytes.now ≤ 258 }
    ensures items { reply.new.items ≡ reply.old.items ++ bytes.now }
    ensures length { array_vec_len reply.new ≡ array_vec_len reply.old + length bytes.now }
{
    reply.try_extend_from_slice(bytes).unwrap();
}
