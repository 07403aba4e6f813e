//! What is left when the program has ended.

/// The status, and the two streams.
#[derive(Drop)]
pub struct Ended<S, K> {
    pub status: u8,
    pub replies: S,
    pub commands: K,
}
