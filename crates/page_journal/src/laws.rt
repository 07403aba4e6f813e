//! A law of journals, as a function that does nothing when it runs.

ghost use Rattle.page_journal.specs.Laws.{PagesStand};

/// Each page stands at home, or in the one copy that an open journal of a valid form names for it.
pub fn pages_stand()
    ensures { PagesStand }
{}
