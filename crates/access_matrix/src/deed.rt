//! What a security domain may do, by AIDs.

use card_types::Aid;

/// A deed of a security domain.
#[derive(Clone, Copy, Debug)]
pub enum Deed {
    /// DELETE of a thing.
    Delete(Aid),

    /// DELETE of an Executable Load File with what comes from it.
    Related(Aid),

    /// SET STATUS of an entry, which locks or unlocks it.
    Lock(Aid),

    /// INSTALL [for extradition] of a thing to a security domain.
    Move(Aid, Aid),

    /// INSTALL [for install and make selectable] from an Executable Load File.
    Install(Aid),

    /// INSTALL [for load].
    Load,
}

/// A security domain, and what it may do.
#[derive(Clone, Copy, Debug)]
pub struct Right {
    pub domain: Aid,
    pub deed: Deed,
}
