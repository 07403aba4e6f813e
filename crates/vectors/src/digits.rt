//! Hexadecimal digits.

use aes_block::BlockKey;
use arrayvec::ArrayVec;

/// The bytes that hexadecimal digits write, up to `N` of them.
pub fn bytes<const N: usize>(digits: &[u8]) -> ArrayVec<u8, N> {
    let mut bytes = ArrayVec::new();
    for _ in 0..digits.len() / 2 {
        let _fits = bytes.try_push(0);
    }
    let _even = hex::decode_to_slice(digits, bytes.as_mut_slice());
    bytes
}

/// The key that hexadecimal digits write, if they are as many as it has.
pub fn key<K: BlockKey>(digits: &[u8]) -> Option<K> {
    let bytes = bytes::<32>(digits);
    if bytes.len() != K::LEN {
        return None;
    }
    Some(K::from_key(&bytes))
}
