//! Why a thing is not added (this profile's own).

/// Why a thing is not added. Where both hold, the first is answered.
#[derive(Clone, Copy, Debug, PartialEq, Eq)]
pub enum AddRefusal {
    /// An entry or an Executable Load File has its AID.
    Taken,

    /// The card has 32 entries, or 16 Executable Load Files.
    Full,
}
