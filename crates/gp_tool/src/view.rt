//! What is shown of a card.

/// What of a card's registry is written.
#[derive(Clone, Copy, Debug, PartialEq, Eq)]
pub enum View {
    /// `show`: the registry itself.
    Registry,

    /// `access`: who may do what.
    Rights,
}
