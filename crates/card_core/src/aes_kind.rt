//! The three lengths of keys (GlobalPlatform Amendment D, chapter 6).

/// A value under AES-128, AES-192 or AES-256: under keys of 16, 24 or 32 bytes.
#[derive(Drop)]
pub enum AesKind<A, B, C> {
    Aes128(A),
    Aes192(B),
    Aes256(C),
}
