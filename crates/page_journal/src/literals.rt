//! The page numbers that definitions read from the code, each against its literal.

ghost use Rattle.std.specs.Prelude.{◌≡◌};
ghost use Rattle.page_journal.specs.declared.pages.TheConstants.{COPIES, DESCRIPTOR, FIRST_LOAD_PAGE, GATE, STORE_PAGES};

/// Which page of a device is what.
pub fn constants()
    ensures store_pages { STORE_PAGES ≡ 45 }
    ensures gate { GATE ≡ 45 }
    ensures descriptor { DESCRIPTOR ≡ 46 }
    ensures copies { COPIES ≡ 47 }
    ensures first_load_page { FIRST_LOAD_PAGE ≡ 96 }
{}
