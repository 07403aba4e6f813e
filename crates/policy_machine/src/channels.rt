//! The logical channels of a card (ISO/IEC 7816-4:2013, 11.1.2).

/// How many logical channels a card has.
pub const CHANNELS: usize = 4;
