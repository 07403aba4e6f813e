//! Where things have their slots among the store pages: one kind after the other, and how many bytes one slot has (this
//! profile's own).

use card_types::{ENTRIES, FILES, KEYS};

/// The slot of an entry.
pub const ENTRY_BYTES: usize = 64;

/// The first page with entries. Page 0 has the superblock.
pub const FIRST_ENTRY_PAGE: u16 = 1;

/// The slot of an Executable Load File.
pub const FILE_BYTES: usize = 256;

pub const FIRST_FILE_PAGE: u16 = FIRST_ENTRY_PAGE + (ENTRIES * ENTRY_BYTES / 256) as u16;

/// The slot of a key.
pub const KEY_BYTES: usize = 64;

pub const FIRST_KEY_PAGE: u16 = FIRST_FILE_PAGE + (FILES * FILE_BYTES / 256) as u16;

/// The slot of a data object.
pub const OBJECT_BYTES: usize = 128;

pub const FIRST_OBJECT_PAGE: u16 = FIRST_KEY_PAGE + (KEYS * KEY_BYTES / 256) as u16;
