ghost use Rattle.std.specs.Prelude.{◌≡◌, ℕ, ◌*◌, ◌<◌, ◌≤◌, List, [], ◌++◌, length};
ghost use Rattle.cmac_kdf.specs.Cmac as standard;
ghost use Rattle.cmac_kdf.specs.Derivation.{kdf};
ghost use Rattle.cmac_kdf.specs.Feeding.{state_of};

use crate::cmac_state::CmacState;
use crate::derivation::derive_under;
use crate::subkeys::Subkeys;
use crate::whole::code_of;
use aes_block::BlockKey;
use std::marker::Model;

/// A key for CMAC with its subkeys, which are made once (NIST SP 800-38B, 6.1).
///
/// Contracts see it as the bytes of the block cipher's key.
#[derive(Drop)]
pub struct CmacKey<K: BlockKey> {
    key: K,
    subkeys: Subkeys,
}

impl<K: BlockKey> Model for CmacKey<K> {
    ghost use Rattle.std.specs.Prelude.{◌≡◌, ℕ, List};
    ghost use Rattle.cmac_kdf.specs.Cmac.{first_subkey, second_subkey};

    ghost Value = { List ℕ };

    ghost view = { λ k. K.key_bytes k.key };

    ghost invariant = { λ k. (k.subkeys.first ≡ first_subkey (K.key_bytes k.key)) × (k.subkeys.second ≡ second_subkey (K.key_bytes k.key)) };
}

impl<K: BlockKey> CmacKey<K> {
    /// Makes the subkeys.
    #[inline(always)]
    pub fn new(key: K) -> CmacKey<K>
        ensures { result ≡ K.key_bytes key }
    {
        let subkeys = Subkeys::of(&key);
        CmacKey { key, subkeys }
    }

    /// The CMAC of a message, at its full length (NIST SP 800-38B, 6.2).
    pub fn cmac(&self, message: &[u8]) -> [u8; 16]
        ensures { result ≡ standard.cmac self.now message.now }
    {
        code_of(&self.key, &self.subkeys, message)
    }

    /// The empty message, to be fed.
    pub fn start(&self) -> CmacState
        ensures { result ≡ state_of self.now [] }
    {
        CmacState::start()
    }

    /// Adds bytes to the end of a message that was started under this key.
    pub fn feed(&self, state: &mut CmacState, bytes: &[u8])
        ensures { (m : List ℕ) → state.old ≡ state_of self.now m → state.new ≡ state_of self.now (m ++ bytes.now) }
    {
        state.feed(&self.key, bytes);
    }

    /// The CMAC of all that was fed so far, at its full length.
    pub fn finish(&self, state: &CmacState) -> [u8; 16]
        ensures { (m : List ℕ) → state.now ≡ state_of self.now m → result ≡ standard.cmac self.now m }
    {
        state.finish(&self.key, &self.subkeys)
    }

    /// What `derive` gives with this key: fills `out`, of 1 to 32 bytes, for a context of at most 32.
    pub fn derive(&self, constant: u8, context: &[u8], out: &mut [u8])
        requires some { 0 < length out.old }
        requires most { length out.old ≤ 32 }
        requires short_context { length context.now ≤ 32 }
        ensures { out.new ≡ kdf self.now constant (8 * length out.old) context.now }
    {
        derive_under(&self.key, &self.subkeys, constant, context, out);
    }
}
