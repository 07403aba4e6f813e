//! The laws of sessions, as functions that do nothing when they run.

ghost use Rattle.scp03_card.specs.Laws.{FirstMessage, OnePlain, PlainFits};

/// A command gives at most one plain data field under a session, and that has no more bytes than were sent.
pub fn one_plain()
    ensures alone { OnePlain }
    ensures fits { PlainFits }
{}

/// A session begins with the message of EXTERNAL AUTHENTICATE, whatever channel it comes on.
pub fn first_message()
    ensures { FirstMessage }
{}
