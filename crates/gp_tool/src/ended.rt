//! What a call of the program leaves.

/// The status of the program, and what it leaves.
#[derive(Drop)]
pub struct Ended<F> {
    pub status: u8,
    /// How many commands the card has answered, at most 4,294,967,295.
    pub done: u32,
    /// The device.
    pub flash: F,
}
