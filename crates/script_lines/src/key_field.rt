//! The field of a key in PUT KEY (GlobalPlatform Card Specification 2.3.1, 11.8; Amendment D, 7.2).

ghost use Rattle.std.specs.Prelude.{◌≡◌, ◌≤◌, ◌+◌, ◌-◌, ◌++◌, length, replicate};
ghost use Rattle.script_lines.specs.Prelude.{array_vec_len, check_value, key_field, sealed_size, sent_under};

use aes_block::BlockKey;
use arrayvec::ArrayVec;
use cmac_kdf::cbc_seal_blocks;
use tokens_receipts::DataField;

// The first three bytes of the cipher of sixteen bytes 01.
fn check_value<K: BlockKey>(key: &[u8]) -> [u8; 3]
    requires { length key.now ≡ K.LEN }
    ensures { result ≡ check_value key.now }
{
    let mut block = [0x01; 16];
    K::from_key(key).seal(&mut block);
    let [first, second, third, ..] = block;
    [first, second, third]
}

// The key, with zeros to whole blocks.
fn filled(key: &[u8]) -> ArrayVec<u8, 32>
    requires { length key.now ≤ 32 }
    ensures { result.items ≡ key.now ++ replicate (sealed_size (length key.now) - length key.now) 0 }
{
    let fill = key.len().div_ceil(16) * 16 - key.len();
    let mut blocks = ArrayVec::new();
    blocks.try_extend_from_slice(key).unwrap();
    blocks.try_extend_from_slice(&[0; 16][..fill]).unwrap();
    blocks
}

// The key, enciphered under Key-DEK.
fn sealed<D: BlockKey>(dek: &D, key: &[u8]) -> ArrayVec<u8, 32>
    requires { length key.now ≤ 32 }
    ensures sealed { result.items ≡ (sent_under (D.key_bytes dek.now) key.now).sealed }
    ensures size { array_vec_len result ≡ sealed_size (length key.now) }
{
    let mut blocks = filled(key);
    cbc_seal_blocks(dek, &[0; 16], &mut blocks);
    blocks
}

/// Adds the field of a key that goes out under Key-DEK.
pub fn push_key_field<K: BlockKey, D: BlockKey>(dek: &D, key: &[u8], body: &mut DataField)
    requires length { length key.now ≡ K.LEN }
    requires room { array_vec_len body.old + 39 ≤ 255 }
    ensures added { body.new.items ≡ body.old.items ++ key_field (sent_under (D.key_bytes dek.now) key.now) }
    ensures size { array_vec_len body.new ≤ array_vec_len body.old + 39 }
{
    let sealed = sealed(dek, key);
    let sizes = [0x88, sealed.len() as u8 + 1, key.len() as u8];
    body.try_extend_from_slice(&sizes).unwrap();
    body.try_extend_from_slice(&sealed).unwrap();
    body.push(0x03);
    body.try_extend_from_slice(&check_value::<K>(key)).unwrap();
}
