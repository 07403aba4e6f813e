//! A load session.

ghost use Rattle.std.specs.Prelude.{◌≡◌, ◌⊎◌, ℕ, [], List, None, length};
ghost use Rattle.load_session.specs.Prelude.{RepresentsLoad, blocks_taken, domain_aid, load_aid, load_slot};
ghost use Rattle.card_types.specs.declared.tables.Tables.{Tables};

use crate::hash::RunningHash;
use crate::paged::PagedBytes;
use arrayvec::ArrayVec;
use card_types::Aid;

/// An Executable Load File that comes in blocks.
#[derive(Drop)]
pub struct LoadSession {
    pub(crate) aid: Aid,
    pub(crate) domain: u8,
    pub(crate) hash: ArrayVec<u8, 32>,
    pub(crate) announced: Option<u16>,
    pub(crate) hasher: RunningHash,
    pub(crate) paged: PagedBytes,
    pub(crate) blocks: u16,
}

impl LoadSession {
    /// A session of which no block has come. The domain is given by its slot, and a hash is one of SHA-1 or of SHA-256.
    pub fn begin(aid: Aid, domain: u8, hash: ArrayVec<u8, 32>) -> LoadSession
        requires { (length hash.items ≡ 0) ⊎ (length hash.items ≡ 20) ⊎ (length hash.items ≡ 32) }
        ensures stands { (page : ℕ → List ℕ) (tables : Tables) (channel : ℕ) → RepresentsLoad page tables result
            (record { channel = channel; aid = aid; domain = domain_aid tables.entries.items domain; hash = hash.items; announced = None; bytes = []; blocks = 0 }) }
        ensures blocks { blocks_taken result ≡ 0 }
        ensures name { (load_aid result ≡ aid) × (load_slot result ≡ domain) }
    {
        let hasher = RunningHash::of_length(hash.len());
        LoadSession {
            aid,
            domain,
            hash,
            announced: None,
            hasher,
            paged: PagedBytes::new(),
            blocks: 0,
        }
    }

    /// The number of the block that comes next.
    pub fn next(&self) -> u16
        ensures { result ≡ blocks_taken self.now }
    {
        self.blocks
    }
}
