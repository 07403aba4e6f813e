//! The things of a registry, as words say them.

ghost use Rattle.std.specs.Prelude.{◌≡◌, ◌<◌, ◌^◌, ℕ, List, Some, IfNone, IfOk, IfSome};
ghost use Rattle.case_cards.specs.Things.{SaysCardKey, SaysEntry, SaysFile, SaysObject, SaysState};
ghost use Rattle.case_cards.specs.declared.things.FileWords.{FileWords};
ghost use Rattle.script_lines.specs.Words.{Reads, remaining_words};

use crate::case_error::CaseError;
use crate::words::{after, last_after};
use arrayvec::ArrayVec;
use script_lines::short_number;
use script_lines::values::{array, bytes};
use script_lines::words::Words;

/// An AID.
pub type Name = ArrayVec<u8, 16>;

/// life LL priv PPPPPP receipts NNNN
#[derive(Drop)]
pub struct StateWords {
    pub life: [u8; 1],
    pub privileges: [u8; 3],
    pub receipts: [u8; 2],
}

impl StateWords {
    /// Reads the words that are left.
    pub fn read(words: Words<'_>) -> Option<StateWords>
        ensures { Reads (SaysState (remaining_words words.entry)) result }
    {
        let mut words = words;
        let life = array(after(&mut words, b"life")?)?;
        let privileges = array(after(&mut words, b"priv")?)?;
        let receipts = array(last_after(words, b"receipts")?)?;
        Some(StateWords {
            life,
            privileges,
            receipts,
        })
    }
}

/// AID in DOMAIN from FILE module MODULE, and its state
#[derive(Drop)]
pub struct EntryWords {
    pub aid: Name,
    pub domain: Name,
    pub file: Name,
    pub module: Name,
    pub state: StateWords,
}

impl EntryWords {
    /// Reads the words that are left.
    pub fn read(words: Words<'_>) -> Option<EntryWords>
        ensures { Reads (SaysEntry (remaining_words words.entry)) result }
    {
        let mut words = words;
        let aid = bytes(words.take()?)?;
        let domain = bytes(after(&mut words, b"in")?)?;
        let file = bytes(after(&mut words, b"from")?)?;
        let module = bytes(after(&mut words, b"module")?)?;
        let state = StateWords::read(words)?;
        Some(EntryWords {
            aid,
            domain,
            file,
            module,
            state,
        })
    }
}

/// AID in DOMAIN bytes N, and what says where its bytes are
#[derive(Drop)]
pub struct FileWords {
    pub aid: Name,
    pub domain: Name,
    pub len: u16,
}

impl FileWords {
    /// Reads the first words of those that are left.
    pub fn read(words: &mut Words<'_>) -> Option<FileWords>
        ensures said { IfSome result (λ file. SaysFile (remaining_words words.old) file (remaining_words words.new)) }
        ensures none { IfNone result ((file : FileWords) (rest : List (List ℕ)) → file.len < 2 ^ 16 → SaysFile (remaining_words words.old) file rest → ⊥) }
    {
        let aid = bytes(words.take()?)?;
        let domain = bytes(after(words, b"in")?)?;
        let len = short_number(after(words, b"bytes")?)?;
        Some(FileWords { aid, domain, len })
    }
}

/// OWNER VV II KEY CCCCCC
#[derive(Drop)]
pub struct KeyWords {
    pub owner: Name,
    pub version: [u8; 1],
    pub identifier: [u8; 1],
    pub key: ArrayVec<u8, 32>,
    pub counter: [u8; 3],
}

impl KeyWords {
    /// Reads the words that are left.
    pub fn read(words: Words<'_>) -> Option<KeyWords>
        ensures { Reads (SaysCardKey (remaining_words words.entry)) result }
    {
        let mut words = words;
        Some(KeyWords {
            owner: bytes(words.take()?)?,
            version: array(words.take()?)?,
            identifier: array(words.take()?)?,
            key: bytes(words.take()?)?,
            counter: array(words.last()?)?,
        })
    }
}

/// OWNER TTTT VALUE
#[derive(Drop)]
pub struct ObjectWords {
    pub owner: Name,
    pub tag: [u8; 2],
    pub value: ArrayVec<u8, 120>,
}

impl ObjectWords {
    /// Reads the words that are left.
    pub fn read(words: Words<'_>) -> Option<ObjectWords>
        ensures { Reads (SaysObject (remaining_words words.entry)) result }
    {
        let mut words = words;
        Some(ObjectWords {
            owner: bytes(words.take()?)?,
            tag: array(words.take()?)?,
            value: bytes(words.last()?)?,
        })
    }
}

/// A slot that was found, in a byte.
pub fn slot_number(slot: Option<usize>) -> Result<u8, CaseError>
    ensures { IfOk result (λ at. slot ≡ Some at) }
{
    let slot = slot.ok_or(CaseError::NoRegistry)?;
    u8::try_from(slot).map_err(|_| CaseError::NoRegistry)
}
