//! The bytes of a Load File, piece by piece (GlobalPlatform Card Specification 2.3.1, 11.6 and C.2).

ghost use Rattle.std.specs.Prelude.{◌≡◌, ◌≤◌, drop, length, take};
ghost use Rattle.script_lines.specs.Prelude.{content_bytes, sha1, sha256};

use crate::load_file::Content;
use arrayvec::ArrayVec;
use sha1::Sha1;
use sha2::{Digest, Sha256};

/// A piece, as long as the data field of a LOAD with a C-MAC can be.
pub type Piece = ArrayVec<u8, 247>;

/// At most `size` bytes, from a place on: as many as there are.
pub fn part(bytes: &[u8], from: usize, size: usize) -> &[u8]
    ensures { result.now ≡ take size (drop from bytes.now) }
{
    let rest = &bytes[from.min(bytes.len())..];
    &rest[..size.min(rest.len())]
}

impl Content {
    /// How many bytes it has.
    pub fn len(&self) -> usize
        ensures len { result ≡ length (content_bytes self.now) }
        ensures short { result ≤ 65_535 }
    {
        match self {
            Content::Written(bytes) => bytes.len(),
            Content::Filled(fill) => usize::from(fill.count),
        }
    }

    /// At most `size` bytes, from a place on: as many as there are.
    pub fn piece(&self, from: usize, size: usize) -> Piece
        requires { size ≤ 247 }
        ensures { result.items ≡ take size (drop from (content_bytes self.now)) }
    {
        let mut piece = ArrayVec::new();
        match self {
            Content::Written(bytes) => {
                piece
                    .try_extend_from_slice(part(bytes, from, size))
                    .unwrap();
            }
            Content::Filled(fill) => {
                let left = usize::from(fill.count).saturating_sub(from);
                let same = [fill.byte; 247];
                piece
                    .try_extend_from_slice(&same[..size.min(left)])
                    .unwrap();
            }
        }
        piece
    }

    /// SHA-1 (FIPS 180-4) of its bytes.
    pub fn sha1(&self) -> [u8; 20]
        ensures { result ≡ sha1 (content_bytes self.now) }
    {
        let mut hasher = Sha1::new();
        for index in 0..self.len().div_ceil(247) {
            hasher.update(&self.piece(247 * index, 247));
        }
        hasher.finalize()
    }

    /// SHA-256 (FIPS 180-4) of its bytes.
    pub fn sha256(&self) -> [u8; 32]
        ensures { result ≡ sha256 (content_bytes self.now) }
    {
        let mut hasher = Sha256::new();
        for index in 0..self.len().div_ceil(247) {
            hasher.update(&self.piece(247 * index, 247));
        }
        hasher.finalize()
    }
}
