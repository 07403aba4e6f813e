// Blocks of sixteen bytes.

ghost use Rattle.std.specs.Prelude.{◌≡◌, ◌+◌, ◌≤◌, length, take, drop};
ghost use Rattle.aes_block.specs.Cipher.{xor_bytes};
ghost use Rattle.cmac_kdf.specs.Cmac.{double};

/// Adds `with` to the block, bit by bit.
#[inline(always)]
pub fn xor_block(block: &mut [u8; 16], with: &[u8; 16])
    ensures { block.new ≡ xor_bytes block.old with.now }
{
    for i in 0..16 {
        block[i] ^= with[i];
    }
}

/// The sixteen bytes from `at` on.
#[inline(always)]
pub fn block_at(bytes: &[u8], at: usize) -> [u8; 16]
    requires { at + 16 ≤ length bytes.now }
    ensures { result ≡ take 16 (drop at bytes.now) }
{
    let mut block = [0; 16];
    block.copy_from_slice(&bytes[at..at + 16]);
    block
}

// R128 (NIST SP 800-38B, 5.3).
const FIELD_CONSTANT: u128 = 0x87;

/// The block times x in the field of the blocks (NIST SP 800-38B, 6.1). How long it takes does not
/// depend on the block.
#[inline]
pub fn doubled(block: &[u8; 16]) -> [u8; 16]
    ensures { result ≡ double block.now }
{
    let top_bit = (block[0] >> 7) as u128;
    (u128::from_be_bytes(*block) << 1 ^ top_bit * FIELD_CONSTANT).to_be_bytes()
}
