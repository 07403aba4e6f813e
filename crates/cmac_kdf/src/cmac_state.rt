// What is kept of a message whose CMAC is under way.

ghost use Rattle.std.specs.Prelude.{◌≡◌, ℕ, List, [], ◌++◌};
ghost use Rattle.cmac_kdf.specs.Cmac.{first_subkey, second_subkey};
ghost use Rattle.cmac_kdf.specs.Cmac as standard;
ghost use Rattle.cmac_kdf.specs.Feeding.{state_of};

use crate::chain::{absorb, absorb_blocks};
use crate::subkeys::Subkeys;
use aes_block::BlockKey;
use std::marker::Model;

/// A message that is fed to a `CmacKey` in pieces, of whatever lengths. It borrows nothing, so a
/// value can own it beside its key.
#[derive(Drop)]
pub struct CmacState {
    chain: [u8; 16],
    // The bytes after the blocks that the chaining value has taken in. A whole block stays here
    // until another byte comes, since the message's last block is treated apart.
    held: [u8; 16],
    held_len: usize,
}

impl Model for CmacState {
    ghost use Rattle.std.specs.Prelude.{◌≤◌, take};
    ghost use Rattle.cmac_kdf.specs.Feeding.{MessageState};

    ghost Value = { MessageState };

    ghost view = { λ s. record {
      chain = s.chain;
      held = take s.held_len s.held;
    } };

    ghost invariant = { λ s. s.held_len ≤ 16 };
}

impl CmacState {
    #[inline(always)]
    pub(crate) fn start() -> CmacState
        ensures { (key : List ℕ) → result ≡ state_of key [] }
    {
        CmacState {
            chain: [0; 16],
            held: [0; 16],
            held_len: 0,
        }
    }

    pub(crate) fn feed<K: BlockKey>(&mut self, key: &K, bytes: &[u8])
        ensures { (m : List ℕ) → self.old ≡ state_of (K.key_bytes key.now) m
            → self.new ≡ state_of (K.key_bytes key.now) (m ++ bytes.now) }
    {
        let room = 16 - self.held_len;
        if bytes.len() <= room {
            self.held[self.held_len..self.held_len + bytes.len()].copy_from_slice(bytes);
            self.held_len += bytes.len();
            return;
        }
        self.held[self.held_len..].copy_from_slice(&bytes[..room]);
        absorb(key, &mut self.chain, &self.held);
        let last = room + (bytes.len() - room - 1) / 16 * 16;
        absorb_blocks(key, &mut self.chain, &bytes[room..last]);
        let tail = &bytes[last..];
        self.held[..tail.len()].copy_from_slice(tail);
        self.held_len = tail.len();
    }

    #[inline]
    pub(crate) fn finish<K: BlockKey>(&self, key: &K, subkeys: &Subkeys) -> [u8; 16]
        requires first { subkeys.now.first ≡ first_subkey (K.key_bytes key.now) }
        requires second { subkeys.now.second ≡ second_subkey (K.key_bytes key.now) }
        ensures { (m : List ℕ) → self.now ≡ state_of (K.key_bytes key.now) m
            → result ≡ standard.cmac (K.key_bytes key.now) m }
    {
        let mut chain = self.chain;
        absorb(key, &mut chain, &subkeys.mask(&self.held[..self.held_len]));
        chain
    }
}
