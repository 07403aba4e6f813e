// CMAC of a message that is there whole (NIST SP 800-38B, 6.2).

ghost use Rattle.std.specs.Prelude.{◌≡◌};
ghost use Rattle.cmac_kdf.specs.Cmac.{cmac, first_subkey, second_subkey};

use crate::chain::{absorb, absorb_blocks};
use crate::subkeys::Subkeys;
use aes_block::BlockKey;

/// The CMAC of a message under a key with these subkeys.
#[inline]
pub fn code_of<K: BlockKey>(key: &K, subkeys: &Subkeys, message: &[u8]) -> [u8; 16]
    requires first { subkeys.now.first ≡ first_subkey (K.key_bytes key.now) }
    requires second { subkeys.now.second ≡ second_subkey (K.key_bytes key.now) }
    ensures { result ≡ cmac (K.key_bytes key.now) message.now }
{
    let last = message.len().saturating_sub(1) / 16 * 16;
    let mut chain = [0; 16];
    absorb_blocks(key, &mut chain, &message[..last]);
    absorb(key, &mut chain, &subkeys.mask(&message[last..]));
    chain
}
