//! The laws of spellings, as a function that does nothing when it runs.
ghost use Rattle.apdu_core.specs.Apdu.{OneCommand, OneSpelling};
ghost use Rattle.apdu_core.specs.Reply.{OneReply};

/// No bytes spell two commands or are two replies, and no command has two spellings.
pub fn one_spelling()
    ensures command { OneCommand }
    ensures spelling { OneSpelling }
    ensures reply { OneReply }
{}
