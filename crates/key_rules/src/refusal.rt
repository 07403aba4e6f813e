//! Why keys are not put.

/// Why keys are not put. Where several of these hold, the first is answered.
#[derive(Clone, Copy, Debug, PartialEq, Eq)]
pub enum PutRefusal {
    /// The key version number to be replaced is not there.
    Unknown,

    /// The new key version number is there already, and is not the one replaced.
    Taken,

    /// The card would have more than 48 keys, or the domain more than 12.
    Full,
}
