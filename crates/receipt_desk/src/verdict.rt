//! What a desk makes of a receipt.

/// What a desk makes of the data field of a reply that is to confirm a command. The first that applies holds, in the order `Form`,
/// `Unique`, `Number`, `Mac`.
#[derive(Clone, Copy, PartialEq)]
pub enum Verdict {
    /// It is the receipt with the next number, which is this one.
    Fits(u16),

    /// It has another form than a receipt.
    Form,

    /// It has other unique data: it is of another card.
    Unique,

    /// It has another number than the next one, or the last number was the highest one.
    Number { have: u16, want: Option<u16> },

    /// All that is right, and it is not the receipt: its MAC is another one.
    Mac,
}
