//! Changes of a life cycle state (GlobalPlatform Card Specification 2.3.1, 11.10).

ghost use Rattle.std.specs.Prelude.{◌≡◌};
ghost use Rattle.script_lines.specs.Prelude.{MayName, Reads, SaysLife, changing_life, command_of_plain, remaining_words};

use crate::plain::Plain;
use crate::values::{aid, byte};
use crate::words::Words;
use card_types::Aid;
use tokens_receipts::DataField;

/// A SET STATUS: P1, P2, and the object if one is named.
#[derive(Clone, Copy)]
pub struct LifeChange {
    pub p1: u8,
    pub p2: u8,
    pub aid: Option<Aid>,
}

impl LifeChange {
    /// SET STATUS.
    #[inline(never)]
    pub fn command(&self) -> Plain
        ensures { command_of_plain result ≡ changing_life self.now }
    {
        let mut body = DataField::new();
        if let Some(aid) = &self.aid {
            body.try_extend_from_slice(aid.as_bytes()).unwrap();
        }
        Plain {
            ins: 0xf0,
            p1: self.p1,
            p2: self.p2,
            body,
        }
    }
}

/// The AID, or none where the words end.
#[inline(never)]
pub fn may_name(mut words: Words<'_>) -> Option<Option<Aid>>
    ensures { Reads (MayName (remaining_words words.entry)) result }
{
    match words.take() {
        None => Some(None),
        Some(word) => {
            let aid = aid(word)?;
            words.end()?;
            Some(Some(aid))
        }
    }
}

/// Reads `P1 P2 [AID]`, the words after `life`.
#[inline(never)]
pub fn read(mut words: Words<'_>) -> Option<LifeChange>
    ensures { Reads (SaysLife (remaining_words words.entry)) result }
{
    let p1 = byte(words.take()?)?;
    let p2 = byte(words.take()?)?;
    let aid = may_name(words)?;
    Some(LifeChange { p1, p2, aid })
}
