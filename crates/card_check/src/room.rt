//! The slots that there are, and what is in the first ones.

ghost use Rattle.std.specs.Prelude.{◌↔◌, IsTrue, MatchOption};
ghost use Rattle.card_check.specs.CardSlots.{IsFactoryLoadFile, IsIssuerEntry};
ghost use Rattle.card_types.specs.Represents.{HasSlots, thing_in};

use card_types::{
    ENTRIES, Entry, FACTORY_FILE, FACTORY_MODULE, FILES, ISSUER, ISSUER_SLOT, KEYS, Life, LoadFile,
    OBJECTS, Tables, in_slot,
};

/// The slot of the factory's Executable Load File.
pub const FACTORY_SLOT: u8 = 0;

/// Whether there are as many slots as a card has.
pub fn has_room(tables: &Tables) -> bool
    ensures { IsTrue result ↔ HasSlots tables.now }
{
    tables.entries.len() == ENTRIES
        && tables.files.len() == FILES
        && tables.keys.len() == KEYS
        && tables.objects.len() == OBJECTS
}

/// Whether the Issuer Security Domain is in its slot.
pub fn has_issuer(tables: &Tables) -> bool
    ensures { IsTrue result ↔ MatchOption (thing_in tables.now.entries.items 0) ⊥ IsIssuerEntry }
{
    in_slot(&tables.entries, ISSUER_SLOT).is_some_and(is_issuer)
}

fn is_issuer(entry: &Entry) -> bool
    ensures { IsTrue result ↔ IsIssuerEntry entry.now }
{
    entry.aid.as_bytes() == &ISSUER[..]
        && entry.domain == ISSUER_SLOT
        && entry.file == FACTORY_SLOT
        && entry.module.as_bytes() == &FACTORY_MODULE[..]
        && entry.life.life == Life::Personalized
        && !entry.life.locked
}

/// Whether the factory's Executable Load File is in its slot.
pub fn has_factory_file(tables: &Tables) -> bool
    ensures { IsTrue result ↔ MatchOption (thing_in tables.now.files.items 0) ⊥ IsFactoryLoadFile }
{
    in_slot(&tables.files, FACTORY_SLOT).is_some_and(is_factory_file)
}

fn is_factory_file(file: &LoadFile) -> bool
    ensures { IsTrue result ↔ IsFactoryLoadFile file.now }
{
    file.aid.as_bytes() == &FACTORY_FILE[..] && file.domain == ISSUER_SLOT && file.len == 0
}
