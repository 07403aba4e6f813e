//! The laws of changes of a registry, as functions that do nothing when they run.

ghost use Rattle.card_types.specs.ChangeLaws.{ApplicationsRemovedKeep, CardLifeKeeps, EntryAddedKeeps, EntryRemovedKeeps, FileAddedKeeps, FileRemovedKeeps, LifeKeeps, LocksKeep, MovedKeeps, ReceiptsKeep};

/// A registry that a card may have is one still where a life cycle state, lock marks or a receipt number of entries are
/// changed, or the life cycle state of the card.
pub fn changes_keep_order()
    ensures life { LifeKeeps }
    ensures locks { LocksKeep }
    ensures receipts { ReceiptsKeep }
    ensures card_life { CardLifeKeeps }
{}

/// A registry that a card may have is one still where a thing is moved to a domain that is not below it.
pub fn moves_keep_order()
    ensures { MovedKeeps }
{}

/// A registry that a card may have is one still where an entry or an Executable Load File is added that may be.
pub fn additions_keep_order()
    ensures entry { EntryAddedKeeps }
    ensures file { FileAddedKeeps }
{}

/// A registry that a card may have is one still where an entry or an Executable Load File is removed that may be, or
/// the applications that come from one.
pub fn removals_keep_order()
    ensures entry { EntryRemovedKeeps }
    ensures applications { ApplicationsRemovedKeep }
    ensures file { FileRemovedKeeps }
{}
