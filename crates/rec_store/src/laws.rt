//! The laws of pages and of room, as functions that do nothing when they run.

ghost use Rattle.rec_store.specs.Laws.{OneRegistry, RoomStays};

/// Pages hold at most one registry.
pub fn one_registry()
    ensures { OneRegistry }
{}

/// Room for the pages that a command changes stays while it changes them.
pub fn room_stays()
    ensures { RoomStays }
{}
