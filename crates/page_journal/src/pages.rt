//! Which page of a device is what (this profile's own): store pages, the journal, and load pages up to the last page.

/// How many store pages there are, from page 0 on.
pub const STORE_PAGES: u16 = 45;

/// The gate: open where its first byte is `OPEN`.
pub const GATE: u16 = STORE_PAGES;

/// The descriptor.
pub const DESCRIPTOR: u16 = GATE + 1;

/// The first of the copies.
pub const COPIES: u16 = DESCRIPTOR + 1;

/// The first load page.
pub const FIRST_LOAD_PAGE: u16 = 96;
