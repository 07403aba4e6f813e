//! How long a CAP file can be.

/// How many bytes a CAP file has, at most.
pub const CAP_LIMIT: usize = 32_768;
