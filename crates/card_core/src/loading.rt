//! The load session that a card keeps (GlobalPlatform Card Specification 2.3.1, 9.3.5 and 11.6).

ghost use Rattle.std.specs.Prelude.{◌≡◌, [], None};

use arrayvec::ArrayVec;
use load_session::{LoadSession, LoadWrite, WRITES};

/// What a card keeps of an Executable Load File that comes, and the load pages that the command at hand fills. What is kept of a load
/// session that has ended stays until the next one begins.
#[derive(Drop)]
pub struct Loading {
    pub session: Option<LoadSession>,
    pub writes: ArrayVec<LoadWrite, WRITES>,
}

impl Loading {
    /// There was no load session yet.
    pub fn new() -> Loading
        ensures session { result.session ≡ None }
        ensures writes { result.writes.items ≡ [] }
    {
        Loading {
            session: None,
            writes: ArrayVec::new(),
        }
    }
}
