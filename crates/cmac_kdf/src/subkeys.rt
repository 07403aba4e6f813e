// The subkeys of CMAC (NIST SP 800-38B, 6.1), and the last block under them.

ghost use Rattle.std.specs.Prelude.{◌≡◌, ℕ, ◌≤◌, List, length};
ghost use Rattle.cmac_kdf.specs.Cmac.{first_subkey, second_subkey, last_block};

use crate::block::{block_at, doubled, xor_block};
use crate::padding::padded_block;
use aes_block::BlockKey;

/// K1, for a whole last block, and K2, for a cut one.
#[derive(Clone, Copy)]
pub struct Subkeys {
    pub first: [u8; 16],
    pub second: [u8; 16],
}

impl Subkeys {
    pub fn of<K: BlockKey>(key: &K) -> Subkeys
        ensures first { result.first ≡ first_subkey (K.key_bytes key.now) }
        ensures second { result.second ≡ second_subkey (K.key_bytes key.now) }
    {
        let mut block = [0; 16];
        key.seal(&mut block);
        let first = doubled(&block);
        Subkeys {
            first,
            second: doubled(&first),
        }
    }

    /// The message's last block, of at most sixteen bytes, under its subkey.
    #[inline(always)]
    pub fn mask(&self, last: &[u8]) -> [u8; 16]
        requires { length last.now ≤ 16 }
        ensures { (key : List ℕ) → self.now.first ≡ first_subkey key → self.now.second ≡ second_subkey key
            → result ≡ last_block key last.now }
    {
        if last.len() == 16 {
            let mut block = self.first;
            xor_block(&mut block, &block_at(last, 0));
            block
        } else {
            let mut block = self.second;
            xor_block(&mut block, &padded_block(last));
            block
        }
    }
}
