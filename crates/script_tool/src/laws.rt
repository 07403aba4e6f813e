//! The laws of a host, as functions that do nothing when they run (this profile's own).
ghost use Rattle.script_tool.specs.Prelude.{ClosedIsSilent, FewCommands, OneTalk, RefusalsEnd};

/// From one state of the card a line comes to one end, by one list of commands.
pub fn one_talk()
    ensures { OneTalk }
{}

/// However a card answers, a line makes at most 60 commands for each of its bytes.
pub fn few_commands()
    ensures { FewCommands }
{}

/// Nothing is sent in a session after a reply that could not be opened: the session has ended with it, and a line that needs one
/// says that there is none.
pub fn closed_sessions()
    ensures ended { RefusalsEnd }
    ensures silent { ClosedIsSilent }
{}
