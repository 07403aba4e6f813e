//! The number that definitions read from the code, against its literal.

ghost use Rattle.std.specs.Prelude.{◌≡◌};
ghost use Rattle.flash_core.specs.declared.page.TheConstants.{PAGES};

/// How many pages a device has.
pub fn constants()
    ensures pages { PAGES ≡ 608 }
{}
