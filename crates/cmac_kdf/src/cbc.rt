// CBC (NIST SP 800-38A, 6.2), in place.

ghost use Rattle.std.specs.Prelude.{◌≡◌, ℕ, ◌%◌, ◌≤◌, List, length, take, drop, IfOk, OnErr};
ghost use Rattle.cmac_kdf.specs.Blocks.{IsBytes, padded_length};
ghost use Rattle.cmac_kdf.specs.Cbc.{cbc, sealed};

use crate::bad_padding::BadPadding;
use crate::block::{block_at, xor_block};
use crate::padding::{pad, unpadded_len};
use aes_block::BlockKey;

/// Encrypts the buffer, which is whole blocks, with no padding (NIST SP 800-38A, 6.2).
pub fn cbc_seal_blocks<K: BlockKey>(key: &K, icv: &[u8; 16], buf: &mut [u8])
    requires { length buf.old % 16 ≡ 0 }
    ensures { buf.new ≡ cbc (K.key_bytes key.now) icv.now buf.old }
{
    let mut chain = *icv;
    for i in 0..buf.len() / 16 {
        let mut block = block_at(buf, 16 * i);
        xor_block(&mut block, &chain);
        key.seal(&mut block);
        buf[16 * i..16 * i + 16].copy_from_slice(&block);
        chain = block;
    }
}

/// Decrypts the buffer, which is whole blocks: what is left is what `cbc_seal_blocks` turns into
/// the old bytes.
pub fn cbc_unseal_blocks<K: BlockKey>(key: &K, icv: &[u8; 16], buf: &mut [u8])
    requires { length buf.old % 16 ≡ 0 }
    ensures gives_back { cbc (K.key_bytes key.now) icv.now buf.new ≡ buf.old }

    // No other bytes are encrypted to these.
    ensures alone { (p : List ℕ) → IsBytes p → length p ≡ length buf.old
        → cbc (K.key_bytes key.now) icv.now p ≡ buf.old → p ≡ buf.new }
{
    let mut chain = *icv;
    for i in 0..buf.len() / 16 {
        let sealed = block_at(buf, 16 * i);
        let mut block = sealed;
        key.unseal(&mut block);
        xor_block(&mut block, &chain);
        buf[16 * i..16 * i + 16].copy_from_slice(&block);
        chain = sealed;
    }
}

/// Pads the buffer's first `len` bytes (ISO/IEC 9797-1, padding method 2) and encrypts them, and
/// answers their new length. The buffer has room for that length.
pub fn cbc_seal<K: BlockKey>(key: &K, icv: &[u8; 16], buf: &mut [u8], len: usize) -> usize
    requires { padded_length len ≤ length buf.old }
    ensures length { result ≡ padded_length len }
    ensures sealed { take result buf.new ≡ sealed (K.key_bytes key.now) icv.now (take len buf.old) }
    ensures after { drop result buf.new ≡ drop result buf.old }
{
    let end = pad(buf, len);
    cbc_seal_blocks(key, icv, &mut buf[..end]);
    end
}

/// Decrypts the buffer and strips the padding: the bytes that `cbc_seal` turned into the old ones
/// are the first ones of the buffer, as many as the answer says.
///
/// After `BadPadding` the buffer holds nothing to go by: the decrypted blocks, with their wrong
/// padding, or, where it is not whole blocks, the old bytes.
pub fn cbc_unseal<K: BlockKey>(key: &K, icv: &[u8; 16], buf: &mut [u8]) -> Result<usize, BadPadding>
    ensures ok { IfOk result (λ n.
        sealed (K.key_bytes key.now) icv.now (take n buf.new) ≡ buf.old) }
    ensures length { IfOk result (λ n. padded_length n ≡ length buf.old) }

    // No other bytes are sealed as these.
    ensures alone { IfOk result (λ n. (p : List ℕ) → IsBytes p
        → sealed (K.key_bytes key.now) icv.now p ≡ buf.old → p ≡ take n buf.new) }

    // No bytes at all are sealed as these.
    ensures refused { OnErr result ((p : List ℕ) → IsBytes p
        → sealed (K.key_bytes key.now) icv.now p ≡ buf.old → ⊥) }
    ensures decrypted { OnErr result (length buf.old % 16 ≡ 0
        → cbc (K.key_bytes key.now) icv.now buf.new ≡ buf.old) }
    ensures untouched { OnErr result ((length buf.old % 16 ≡ 0 → ⊥) → buf.new ≡ buf.old) }
{
    if buf.is_empty() || buf.len() % 16 != 0 {
        return Err(BadPadding);
    }
    cbc_unseal_blocks(key, icv, buf);
    let Some(len) = unpadded_len(buf) else {
        return Err(BadPadding);
    };
    Ok(len)
}
