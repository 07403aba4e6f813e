//! What card and host compute alike for each message (GlobalPlatform Amendment D, 6.2.4 to 6.2.7).

ghost use Rattle.std.specs.Prelude.{◌≡◌, ℕ, ◌≤◌, List, ◌++◌, length, take, IfOk, OnErr};
ghost use Rattle.aes_block.specs.Cipher.{cipher};
ghost use Rattle.cmac_kdf.specs.Blocks.{IsBytes, padded_length};
ghost use Rattle.cmac_kdf.specs.Cbc.{sealed};
ghost use Rattle.cmac_kdf.specs.Cmac.{cmac};
ghost use Rattle.scp03_card.specs.Kept.{HasSessionKeys};
ghost use Rattle.scp03_card.specs.Offer as model;
ghost use Rattle.scp03_card.specs.Offer.{host_cryptogram};
ghost use Rattle.scp03_card.specs.Session.{chain_of, session_from};

use crate::session_keys::SessionKeys;
use aes_block::BlockKey;
use card_types::Level;
use cmac_kdf::{BadPadding, cbc_seal, cbc_unseal};

impl<K: BlockKey> SessionKeys<K> {
    /// The MAC chaining value after a message: under S-MAC, of the value before, of the header with
    /// Lc, and of the data field as sent (6.2.4).
    pub fn chain_after(&self, chain: &[u8; 16], header: &[u8; 5], field: &[u8]) -> [u8; 16]
        ensures { result ≡ cmac self.now.mac (chain.now ++ header.now ++ field.now) }
    {
        let mut state = self.mac.start();
        self.mac.feed(&mut state, chain);
        self.mac.feed(&mut state, header);
        self.mac.feed(&mut state, field);
        self.mac.finish(&state)
    }

    /// The MAC chaining value after EXTERNAL AUTHENTICATE at this level, with this host cryptogram.
    pub fn first_chain(&self, level: Level, cryptogram: &[u8; 8]) -> [u8; 16]
        ensures { (offer : model.Offer) → HasSessionKeys self.now offer → cryptogram.now ≡ host_cryptogram offer
            → result ≡ chain_of (session_from offer level) }
    {
        let header = [0x84, 0x82, level.code(), 0x00, 0x10];
        self.chain_after(&[0; 16], &header, cryptogram)
    }

    /// The MAC of a reply, at its full length: under S-RMAC, of the chaining value, of the data field
    /// as sent, and of the status (6.2.5).
    pub fn reply_mac(&self, chain: &[u8; 16], field: &[u8], status: &[u8; 2]) -> [u8; 16]
        ensures { result ≡ cmac self.now.rmac (chain.now ++ field.now ++ status.now) }
    {
        let mut state = self.rmac.start();
        self.rmac.feed(&mut state, chain);
        self.rmac.feed(&mut state, field);
        self.rmac.feed(&mut state, status);
        self.rmac.finish(&state)
    }

    /// Enciphers the buffer's first `len` bytes, with the encrypted counter block as the initial
    /// chaining vector.
    pub fn seal(&self, counter: &[u8; 16], buf: &mut [u8], len: usize) -> usize
        requires { padded_length len ≤ length buf.old }
        ensures length { result ≡ padded_length len }
        ensures sealed { take result buf.new ≡ sealed self.now.enc (cipher self.now.enc counter.now) (take len buf.old) }
    {
        let mut icv = *counter;
        self.enc.seal(&mut icv);
        cbc_seal(&self.enc, &icv, buf, len)
    }

    /// Deciphers the buffer in the same way, and answers how many bytes the plain ones are.
    pub fn unseal(&self, counter: &[u8; 16], buf: &mut [u8]) -> Result<usize, BadPadding>
        ensures ok { IfOk result (λ n. sealed self.now.enc (cipher self.now.enc counter.now) (take n buf.new) ≡ buf.old) }
        ensures length { IfOk result (λ n. padded_length n ≡ length buf.old) }
        ensures refused { OnErr result ((p : List ℕ) → IsBytes p → sealed self.now.enc (cipher self.now.enc counter.now) p ≡ buf.old → ⊥) }
    {
        let mut icv = *counter;
        self.enc.seal(&mut icv);
        cbc_unseal(&self.enc, &icv, buf)
    }
}
