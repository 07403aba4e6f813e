//! Pages.

/// How many pages a device has.
pub const PAGES: u16 = 608;

/// The bytes of one page.
#[derive(Clone, Copy, Debug, PartialEq, Eq)]
pub struct Page {
    pub bytes: [u8; 256],
}
