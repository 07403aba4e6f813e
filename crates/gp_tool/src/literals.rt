//! The numbers that definitions read from the code, each against its literal.

ghost use Rattle.std.specs.Prelude.{◌≡◌};
ghost use Rattle.gp_tool.specs.declared.form.TheConstants.{COMMAND_LIMIT};

/// How many bytes a line can spell, at most.
pub fn constants()
    ensures command_limit { COMMAND_LIMIT ≡ 261 }
{}
