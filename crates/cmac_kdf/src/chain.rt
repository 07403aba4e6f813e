// The chaining value of CMAC (NIST SP 800-38B, 6.2, step 6).

ghost use Rattle.std.specs.Prelude.{◌≡◌};
ghost use Rattle.aes_block.specs.Cipher.{cipher, xor_bytes};
ghost use Rattle.cmac_kdf.specs.Blocks.{blocks};
ghost use Rattle.cmac_kdf.specs.Cmac.{chained};

use crate::block::xor_block;
use aes_block::BlockKey;

/// Takes one block into the chaining value.
#[inline(always)]
pub fn absorb<K: BlockKey>(key: &K, chain: &mut [u8; 16], block: &[u8; 16])
    ensures { chain.new ≡ cipher (K.key_bytes key.now) (xor_bytes chain.old block.now) }
{
    xor_block(chain, block);
    key.seal(chain);
}

/// Takes whole blocks into the chaining value.
#[inline]
pub fn absorb_blocks<K: BlockKey>(key: &K, chain: &mut [u8; 16], bytes: &[u8])
    ensures { chain.new ≡ chained (K.key_bytes key.now) chain.old (blocks bytes.now) }
{
    let (whole, _) = bytes.as_chunks::<16>();
    for block in whole {
        absorb(key, chain, block);
    }
}
