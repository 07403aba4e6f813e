/// An element: a tag and a value of bytes. Tags of two bytes have the first in the high half.
#[derive(Clone, Copy, Debug, PartialEq, Eq)]
pub struct Tlv<'a> {
    pub tag: u16,
    pub value: &'a [u8],
}

/// Why bytes don't begin with an element, and where. Places count from 0.
#[derive(Clone, Copy, Debug, PartialEq, Eq)]
pub enum TlvError {
    /// The bytes end here, before the element does.
    Short(usize),

    /// This byte can't stand in a tag field there.
    Tag(usize),

    /// The length field that begins here has none of the three forms.
    Length(usize),
}

/// The element doesn't fit.
#[derive(Clone, Copy, Debug, PartialEq, Eq)]
pub struct NoRoom;
