//! A security domain with an act, by slots.

use crate::act::Act;

/// What the security domain in a slot may be able to do. Whether it may is another question.
#[derive(Clone, Copy, Debug)]
pub struct Candidate {
    pub domain: u8,
    pub act: Act,
}
