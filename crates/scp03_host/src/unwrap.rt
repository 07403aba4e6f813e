//! Replies to protected commands (GlobalPlatform Amendment D, 6.2.5, 6.2.7).

ghost use Rattle.std.specs.Prelude.{◌≡◌, ◌↔◌, ℕ, ◌+◌, ◌≤◌, List, [], ◌++◌, length, take, IsTrue, IfOk, IfSome, IfNone, OnErr};
ghost use Rattle.arrayvec.specs.ArrayVec.{array_vec_len};
ghost use Rattle.cmac_kdf.specs.Blocks.{IsBytes};
ghost use Rattle.scp03_card.specs.Kept.{RepresentsSession};
ghost use Rattle.scp03_card.specs.Levels as standard;
ghost use Rattle.scp03_card.specs.Protected.{r_mac, reply_field};
ghost use Rattle.scp03_card.specs.Session as model;
ghost use Rattle.scp03_host.specs.Unwrapped.{HasRightMac, IsTooShort, Unwraps};

use crate::host_session::HostSession;
use crate::refusals::ReplyRefusal;
use aes_block::BlockKey;
use apdu_core::{Reply, Status};
use arrayvec::ArrayVec;
use scp03_card::{has_r_encryption, has_r_mac, is_success_or_warning};

impl<K: BlockKey> HostSession<K> {
    /// Reads the reply to the command that was wrapped last, and answers its status. `out` becomes the plain
    /// data field; after a refusal it is empty.
    pub fn unwrap(
        &mut self,
        reply: &[u8],
        out: &mut ArrayVec<u8, 256>,
    ) -> Result<Status, ReplyRefusal>
        requires { length reply.now ≤ 258 }
        ensures unwrapped { (session : model.Session) → RepresentsSession self.old session → IfOk result (λ status. Unwraps session reply.now out.new.items status.0) }
        ensures short { (session : model.Session) → RepresentsSession self.old session → (result ≡ Err ReplyRefusal.Short) ↔ IsTooShort session reply.now }
        ensures mac { (session : model.Session) → RepresentsSession self.old session
            → (result ≡ Err ReplyRefusal.Mac) ↔ (IsTooShort session reply.now → ⊥) × (HasRightMac session reply.now → ⊥) }
        ensures padding { (session : model.Session) → RepresentsSession self.old session
            → (result ≡ Err ReplyRefusal.Padding) ↔ (IsTooShort session reply.now → ⊥) × HasRightMac session reply.now
            × ((body : List ℕ) (status : ℕ) → Unwraps session reply.now body status → ⊥) }
        ensures empty { OnErr result (out.new.items ≡ []) }
        ensures unchanged { self.new ≡ self.old }

        // What a card answered is unwrapped.
        ensures back { (session : model.Session) (body : List ℕ) (status : ℕ) → RepresentsSession self.old session → Unwraps session reply.now body status
            → (result ≡ Ok (record { 0 = status })) × (out.new.items ≡ body) }
    {
        out.clear();
        let Ok(Reply { body, status }) = Reply::read(reply) else {
            return Err(ReplyRefusal::Short);
        };
        if !self.has_r_mac() {
            append(out, body);
            return Ok(status);
        }
        if !is_success_or_warning(status) {
            return if body.is_empty() {
                Ok(status)
            } else {
                Err(ReplyRefusal::Padding)
            };
        }
        if body.len() < 8 {
            return Err(ReplyRefusal::Short);
        }
        let (field, mac) = body.split_at(body.len() - 8);
        if !self.is_right_mac(field, mac, status) {
            return Err(ReplyRefusal::Mac);
        }
        let Some(()) = self.plain_field(field, out) else {
            return Err(ReplyRefusal::Padding);
        };
        Ok(status)
    }

    // Replies have an R-MAC.
    fn has_r_mac(&self) -> bool
        ensures { (session : model.Session) → RepresentsSession self.now session → result ≡ standard.has_r_mac session.level }
    {
        has_r_mac(self.level)
    }

    // They are enciphered.
    fn has_r_encryption(&self) -> bool
        ensures { (session : model.Session) → RepresentsSession self.now session → result ≡ standard.has_r_encryption session.level }
    {
        has_r_encryption(self.level)
    }

    // Whether these eight bytes are the R-MAC of the data field as sent and of the status.
    fn is_right_mac(&self, field: &[u8], mac: &[u8], status: Status) -> bool
        requires { length mac.now ≡ 8 }
        ensures { (session : model.Session) → RepresentsSession self.now session → IsTrue result ↔ (mac.now ≡ r_mac session field.now status.0) }
    {
        let right = self.keys.reply_mac(&self.chain, field, &status.to_bytes());
        mac == &right[..8]
    }

    // Makes `out`, which is empty, what the data field of the reply gives, in place. It stays empty where there is no such field.
    fn plain_field(&self, field: &[u8], out: &mut ArrayVec<u8, 256>) -> Option<()>
        requires short { length field.now ≤ 256 }
        requires empty { out.old.items ≡ [] }
        ensures some { (session : model.Session) → RepresentsSession self.now session
            → IfSome result (λ _. (reply_field session out.new.items ≡ field.now) × IsBytes out.new.items) }
        ensures none { (session : model.Session) → RepresentsSession self.now session
            → IfNone result ((p : List ℕ) → IsBytes p → reply_field session p ≡ field.now → ⊥) }
        ensures empty { IfNone result (out.new.items ≡ []) }
    {
        append(out, field);
        match self.decipher(out.as_mut_slice()) {
            Some(len) => {
                out.truncate(len);
                Some(())
            }
            None => {
                out.clear();
                None
            }
        }
    }

    // Deciphers the data field of a reply in place: `field` is the data field at entry.
    fn decipher(&self, field: &mut [u8]) -> Option<usize>
        ensures some { (session : model.Session) → RepresentsSession self.now session
            → IfSome result (λ n. (reply_field session (take n field.new) ≡ field.old) × IsBytes (take n field.new)) }
        ensures none { (session : model.Session) → RepresentsSession self.now session
            → IfNone result ((p : List ℕ) → IsBytes p → reply_field session p ≡ field.old → ⊥) }
        ensures length { IfSome result (λ n. n ≤ length field.old) }
    {
        if field.is_empty() || !self.has_r_encryption() {
            return Some(field.len());
        }
        let mut counter = self.number.to_be_bytes();
        counter[0] = 0x80;
        match self.keys.unseal(&counter, field) {
            Ok(len) if len > 0 => Some(len),
            _ => None,
        }
    }
}

fn append(out: &mut ArrayVec<u8, 256>, bytes: &[u8])
    requires { array_vec_len out.old + length bytes.now ≤ 256 }
    ensures { out.new.items ≡ out.old.items ++ bytes.now }
{
    out.try_extend_from_slice(bytes).unwrap();
}
