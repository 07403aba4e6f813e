//! What a security domain may do, by slots.

use card_types::Found;

/// A deed of a security domain, by the slots of what it is about.
#[derive(Clone, Copy, Debug, PartialEq, Eq)]
pub enum Act {
    /// DELETE of a thing.
    Delete(Found),

    /// DELETE of an Executable Load File with what comes from it.
    Related(u8),

    /// SET STATUS of an entry, which locks or unlocks it.
    Lock(u8),

    /// INSTALL [for extradition] of a thing to a security domain.
    Move(Found, u8),

    /// INSTALL [for install and make selectable] from an Executable Load File.
    Install(u8),

    /// INSTALL [for load].
    Load,
}
