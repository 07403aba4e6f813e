//! The number that clauses read from the code, against its literal (this profile's own).

ghost use Rattle.std.specs.Prelude.{◌≡◌};
ghost use Rattle.card_core.specs.declared.reply.TheConstants.{REPLY_LIMIT};

/// How many bytes a reply has, at most.
pub fn constants()
    ensures reply_limit { REPLY_LIMIT ≡ 258 }
{}
