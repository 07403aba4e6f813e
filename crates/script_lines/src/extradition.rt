//! Applications to extradite (GlobalPlatform Card Specification 2.3.1, 11.5).

ghost use Rattle.std.specs.Prelude.{◌≡◌};
ghost use Rattle.script_lines.specs.Prelude.{Reads, SaysExtradite, command_of_plain, extraditing, remaining_words};

use crate::install::install;
use crate::plain::Plain;
use crate::tokens::Tokens;
use crate::values::aid;
use crate::words::Words;
use card_types::Aid;
use tokens_receipts::five_fields;

/// An application and the security domain that it goes to.
#[derive(Clone, Copy)]
pub struct Extradition {
    pub aid: Aid,
    pub domain: Aid,
}

impl Extradition {
    /// INSTALL for extradition.
    #[inline(never)]
    pub fn command(&self, tokens: &Tokens) -> Plain
        ensures { command_of_plain result ≡ extraditing tokens.now self.now }
    {
        let fields = five_fields(self.domain.as_bytes(), &[], self.aid.as_bytes(), &[], &[]);
        install(tokens, 0x10, fields)
    }
}

/// Reads `AID DOMAIN`, the words after `extradite`.
#[inline(never)]
pub fn read(mut words: Words<'_>) -> Option<Extradition>
    ensures { Reads (SaysExtradite (remaining_words words.entry)) result }
{
    let moved = aid(words.take()?)?;
    let domain = aid(words.last()?)?;
    Some(Extradition { aid: moved, domain })
}
