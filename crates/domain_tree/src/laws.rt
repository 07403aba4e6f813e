//! The laws of what is above what, also after a change of a registry, as functions that do nothing when they run.

ghost use Rattle.domain_tree.specs.Above.{AboveAdded, AboveBelowMoved, AboveChanged, AboveMoved, AboveOthersOfAdded, AboveOthersOfMoved, AboveRemoved, NoneAboveRoot};
ghost use Rattle.domain_tree.specs.LineLaws.{AboveCompared, AboveDecided, AboveFurther, AboveStays, DomainsAfterApplications, DomainsAfterChange, DomainsAfterEntry, DomainsAfterEntryAdded, DomainsAfterMove, FirstAboveDecided, LineStays, NotAboveEachOther};

/// After an entry is added.
pub fn above_added()
    ensures new { AboveAdded }
    ensures others { AboveOthersOfAdded }
{}

/// After entries are changed in neither AID nor domain.
pub fn above_changed()
    ensures { AboveChanged }
{}

/// After a thing is moved to another domain.
pub fn above_moved()
    ensures thing { AboveMoved }
    ensures root { NoneAboveRoot }
    ensures below { AboveBelowMoved }
    ensures others { AboveOthersOfMoved }
{}

/// After an entry is removed.
pub fn above_removed()
    ensures { AboveRemoved }
{}

/// Of two domains above one thing, one is above the other. What is above a domain is above all that is below the domain. No two are
/// above each other. One is above another or is not. Of the domains that fit there is a first one above a domain, or none above it fits.
pub fn lines_compared()
    ensures one_above { AboveCompared }
    ensures further { AboveFurther }
    ensures not_both { NotAboveEachOther }
    ensures decided { AboveDecided }
    ensures first { FirstAboveDecided }
{}

/// Where a thing keeps its domain, and so does each one above it, the same are above it, and its line up to its root is the same.
pub fn lines_stay()
    ensures above { AboveStays }
    ensures line { LineStays }
{}

/// A thing keeps its domain where another entry is added, moved or removed, where applications from another Executable Load File
/// are removed, and where entries are changed in neither AID nor domain.
pub fn domains_stay()
    ensures added { DomainsAfterEntryAdded }
    ensures changed { DomainsAfterChange }
    ensures moved { DomainsAfterMove }
    ensures removed { DomainsAfterEntry }
    ensures applications { DomainsAfterApplications }
{}
