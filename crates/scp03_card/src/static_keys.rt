//! The keys of a key set (GlobalPlatform Amendment D, 6.1).

use aes_block::BlockKey;

/// The three static keys of a key set.
#[derive(Drop)]
pub struct StaticKeys<K: BlockKey> {
    pub enc: K,
    pub mac: K,
    pub dek: K,
}
