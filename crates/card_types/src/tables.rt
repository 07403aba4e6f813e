//! The persistent state of a card, in slots.

ghost use Rattle.std.specs.Prelude.{◌≡◌, None, Some, MatchOption};
ghost use Rattle.card_types.specs.Represents.{thing_in};

use crate::aid::Aid;
use crate::card_life::CardLife;
use crate::life::LifeMark;
use crate::privileges::Privileges;
use arrayvec::ArrayVec;

/// The slot of the Issuer Security Domain among the entries.
pub const ISSUER_SLOT: u8 = 0;

/// An application or a security domain.
#[derive(Clone, Copy, Debug)]
pub struct Entry {
    pub aid: Aid,

    /// The slot of its security domain. The Issuer Security Domain is its own.
    pub domain: u8,

    /// The slot of the Executable Load File that it comes from.
    pub file: u8,

    /// The AID of its Module in that file.
    pub module: Aid,
    pub life: LifeMark,
    pub privileges: Privileges,

    /// The number of the last receipt.
    pub receipts: u16,
}

/// An Executable Load File of `len` bytes.
#[derive(Clone, Copy, Debug)]
pub struct LoadFile {
    pub aid: Aid,

    /// The slot of its security domain.
    pub domain: u8,
    pub len: u16,

    /// The numbers of the pages of 256 bytes that hold it. As many count as `len` bytes need.
    pub pages: [u16; 128],
}

/// A key of the domain in the slot `owner`.
#[derive(Drop)]
pub struct KeyRec {
    pub owner: u8,
    pub version: u8,
    pub identifier: u8,
    pub bytes: ArrayVec<u8, 32>,

    /// The sequence counter of the key set, where this is its key with key identifier 01.
    pub counter: u32,
}

/// A data object of the domain in the slot `owner`.
#[derive(Drop)]
pub struct Object {
    pub owner: u8,
    pub tag: u16,
    pub value: ArrayVec<u8, 120>,
}

/// The registry: the life cycle state of the card, and a slot for each thing that it has room for. There are
/// `ENTRIES`, `FILES`, `KEYS` and `OBJECTS` slots, in any order, and the Issuer Security
/// Domain is in `ISSUER_SLOT` of the entries.
#[derive(Drop)]
pub struct Tables {
    pub life: CardLife,
    pub entries: Vec<Option<Entry>>,
    pub files: Vec<Option<LoadFile>>,
    pub keys: Vec<Option<KeyRec>>,
    pub objects: Vec<Option<Object>>,
}

/// What a slot holds, where it holds something.
pub fn in_slot<T>(slots: &[Option<T>], slot: u8) -> Option<&T>
    ensures { MatchOption result (thing_in slots.now slot ≡ None) (λ thing. thing_in slots.now slot ≡ Some thing.now) }
{
    match slots.get(usize::from(slot)) {
        Some(Some(thing)) => Some(thing),
        _ => None,
    }
}
