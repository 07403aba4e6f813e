//! The hash of an Executable Load File, taken as its bytes come.

ghost use Rattle.std.specs.Prelude.{◌≡◌, ◌↔◌, ◌⊎◌, ◌++◌, ℕ, [], List, IsTrue, length};
ghost use Rattle.load_session.specs.Prelude.{HaveHash, Holds, Holds256, IsFed, sha1, sha256};

use sha1::Sha1;
use sha2::{Digest, Sha256};
use std::clone::Clone;

/// The bytes so far, under the hash function that a hash of this length is from.
#[derive(Drop)]
pub(crate) enum RunningHash {
    /// No hash was given.
    Unhashed,
    OfSha1(Sha1),
    OfSha256(Sha256),
}

impl RunningHash {
    /// No bytes yet, for a hash of this length: 20 bytes are SHA-1's, and 32 SHA-256's.
    pub(crate) fn of_length(len: usize) -> RunningHash
        ensures { (hash : List ℕ) → length hash ≡ len → (len ≡ 0) ⊎ (len ≡ 20) ⊎ (len ≡ 32) → IsFed hash result [] }
    {
        match len {
            20 => RunningHash::OfSha1(Sha1::new()),
            32 => RunningHash::OfSha256(Sha256::new()),
            _ => RunningHash::Unhashed,
        }
    }

    /// Takes bytes.
    pub(crate) fn feed(&mut self, bytes: &[u8])
        ensures { (hash before : List ℕ) → IsFed hash self.old before → IsFed hash self.new (before ++ bytes.now) }
    {
        match self {
            RunningHash::Unhashed => (),
            RunningHash::OfSha1(hasher) => hasher.update(bytes),
            RunningHash::OfSha256(hasher) => hasher.update(bytes),
        }
    }

    /// Whether the bytes so far, with these after them, have the hash.
    pub(crate) fn fits(&self, bytes: &[u8], hash: &[u8]) -> bool
        ensures { (before : List ℕ) → IsFed hash.now self.now before → (IsTrue result ↔ HaveHash (before ++ bytes.now) hash.now) }
    {
        match self {
            RunningHash::Unhashed => true,
            RunningHash::OfSha1(hasher) => sha1_with(hasher, bytes).as_slice() == hash,
            RunningHash::OfSha256(hasher) => sha256_with(hasher, bytes).as_slice() == hash,
        }
    }
}

// The SHA-1 of what the hasher has taken, with these bytes after it.
fn sha1_with(hasher: &Sha1, bytes: &[u8]) -> [u8; 20]
    ensures { (before : List ℕ) → Holds hasher.now before → result ≡ sha1 (before ++ bytes.now) }
{
    let mut copy = hasher.clone().unwrap();
    copy.update(bytes);
    copy.finalize()
}

// The SHA-256 of it.
fn sha256_with(hasher: &Sha256, bytes: &[u8]) -> [u8; 32]
    ensures { (before : List ℕ) → Holds256 hasher.now before → result ≡ sha256 (before ++ bytes.now) }
{
    let mut copy = hasher.clone().unwrap();
    copy.update(bytes);
    copy.finalize()
}
