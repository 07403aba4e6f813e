//! The laws of room, as functions that do nothing when they run (this profile's own).

ghost use Rattle.registry.specs.Pages.{RoomForCommand, RoomForParts};

/// With nothing staged there is room for what one command may change.
pub fn room_for_command()
    ensures { RoomForCommand }
{}

/// Room for all that one command may change is room for each part of it.
pub fn room_for_parts()
    ensures { RoomForParts }
{}
