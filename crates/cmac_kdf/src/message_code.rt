// CMAC (NIST SP 800-38B) under a key that is lent.

ghost use Rattle.std.specs.Prelude.{◌≡◌, ℕ, List, [], ◌++◌};
ghost use Rattle.cmac_kdf.specs.Cmac as standard;
ghost use Rattle.cmac_kdf.specs.Feeding.{mac_of};

use crate::cmac_state::CmacState;
use crate::subkeys::Subkeys;
use crate::whole::code_of;
use aes_block::BlockKey;
use std::marker::Model;

/// A CMAC whose message comes in pieces, of whatever lengths.
#[derive(Drop)]
pub struct Mac<'a, K: BlockKey> {
    key: &'a K,
    state: CmacState,
}

impl<'a, K: BlockKey> Model for Mac<'a, K> {
    ghost use Rattle.cmac_kdf.specs.Feeding.{MacState};

    ghost Value = { MacState };

    ghost view = { λ m. record { key = K.key_bytes m.key.now; state = m.state } };
}

impl<'a, K: BlockKey> Mac<'a, K> {
    /// A CMAC under this key of the empty message.
    pub fn new(key: &'a K) -> Mac<'a, K>
        ensures { result ≡ mac_of (K.key_bytes key.now) [] }
    {
        Mac {
            key,
            state: CmacState::start(),
        }
    }

    /// Adds bytes to the end of the message.
    pub fn feed(&mut self, bytes: &[u8])
        ensures { (key m : List ℕ) → self.old ≡ mac_of key m → self.new ≡ mac_of key (m ++ bytes.now) }
    {
        self.state.feed(self.key, bytes);
    }

    /// The CMAC of all that was fed, at its full length.
    pub fn finish(self) -> [u8; 16]
        ensures { (key m : List ℕ) → self.entry ≡ mac_of key m → result ≡ standard.cmac key m }
    {
        self.state.finish(self.key, &Subkeys::of(self.key))
    }
}

/// The CMAC of a message, at its full length (NIST SP 800-38B, 6.2).
pub fn cmac<K: BlockKey>(key: &K, message: &[u8]) -> [u8; 16]
    ensures { result ≡ standard.cmac (K.key_bytes key.now) message.now }
{
    code_of(key, &Subkeys::of(key), message)
}
