//! How much a card has room for. The numbers are this profile's own.

/// Entries, the Issuer Security Domain among them.
pub const ENTRIES: usize = 32;

/// Executable Load Files, that of the factory among them.
pub const FILES: usize = 16;

/// Keys on the card.
pub const KEYS: usize = 48;

/// Keys of one domain.
pub const DOMAIN_KEYS: usize = 12;

/// Data objects.
pub const OBJECTS: usize = 16;

/// Pages of 256 bytes for Executable Load Files.
pub const LOAD_PAGES: usize = 512;

/// Bytes of an Executable Load File.
pub const FILE_LIMIT: usize = 32_768;

/// The last sequence counter of a key set.
pub const COUNTER_LIMIT: u32 = 0xFF_FFFF;

/// The last receipt number of a domain.
pub const RECEIPT_LIMIT: u16 = 0xFFFF;
