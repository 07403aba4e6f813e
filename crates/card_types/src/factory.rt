//! The card as it leaves the factory.

ghost use Rattle.std.specs.Prelude.{◌≡◌, ℕ, List, ◌++◌, None, replicate, IfOk};
ghost use Rattle.card_types.specs.Factory.{IsFactory, IsFactoryKey, factory_entry, factory_file, factory_registry};
ghost use Rattle.card_types.specs.Represents.{IsInOrder, Represents};
ghost use Rattle.card_types.specs.Well.{Well};

use crate::aid::Aid;
use crate::card_life::CardLife;
use crate::life::{Life, LifeMark};
use crate::limits::{ENTRIES, FILES, KEYS, OBJECTS};
use crate::privileges::Privileges;
use crate::tables::{Entry, KeyRec, LoadFile, Tables};
use arrayvec::ArrayVec;
use bitflags::Flags;
use std::alloc::{AllocError, Global};

/// The AID of the Issuer Security Domain.
pub const ISSUER: [u8; 8] = [0xA0, 0x00, 0x00, 0x01, 0x51, 0x00, 0x00, 0x00];

/// The AID of the Executable Load File that security domains come from.
pub const FACTORY_FILE: [u8; 7] = [0xA0, 0x00, 0x00, 0x01, 0x51, 0x53, 0x50];

/// The AID of the Module in it.
pub const FACTORY_MODULE: [u8; 8] = [0xA0, 0x00, 0x00, 0x01, 0x51, 0x53, 0x50, 0x41];

/// The privileges of the Issuer Security Domain.
pub const FACTORY_PRIVILEGES: u32 = 0x9E_FE_80;

/// The key version number of its first key set.
pub const FACTORY_VERSION: u8 = 0x30;

/// Each key of that set.
pub const FACTORY_KEY: [u8; 16] = [
    0x40, 0x41, 0x42, 0x43, 0x44, 0x45, 0x46, 0x47, 0x48, 0x49, 0x4A, 0x4B, 0x4C, 0x4D, 0x4E, 0x4F,
];

/// The Issuer Security Domain of the factory card.
pub fn issuer_domain() -> Entry
    ensures { result ≡ factory_entry }
{
    Entry {
        aid: Aid::new(&ISSUER).unwrap(),
        domain: 0,
        file: 0,
        module: Aid::new(&FACTORY_MODULE).unwrap(),
        life: LifeMark {
            life: Life::Personalized,
            locked: false,
        },
        privileges: Privileges::from_bits_retain(FACTORY_PRIVILEGES),
        receipts: 0,
    }
}

/// Its Executable Load File, which has no bytes.
pub fn factory_file() -> LoadFile
    ensures { result ≡ factory_file }
{
    LoadFile {
        aid: Aid::new(&FACTORY_FILE).unwrap(),
        domain: 0,
        len: 0,
        pages: [0; 128],
    }
}

/// The key of its key set with this key identifier.
pub fn factory_key(identifier: u8) -> KeyRec
    ensures { IsFactoryKey identifier result }
{
    let mut bytes = ArrayVec::new();
    bytes.try_extend_from_slice(&FACTORY_KEY).unwrap();
    KeyRec {
        owner: 0,
        version: FACTORY_VERSION,
        identifier,
        bytes,
        counter: 0,
    }
}

// Free slots, after those that are used.
fn fill<T: Drop>(mut slots: Vec<Option<T>>, count: usize) -> Result<Vec<Option<T>>, AllocError>
    ensures { IfOk result (λ v. v.items ≡ slots.items ++ replicate count None) }
{
    for index in 0..count {
        slots.push(None)?;
    }
    Ok(slots)
}

impl Tables {
    /// The registry of the factory card. An error is want of memory.
    pub fn factory(alloc: Global) -> Result<Tables, AllocError>
        ensures slots { IfOk result IsFactory }
        ensures in_order { IfOk result IsInOrder }
        ensures names { IfOk result (λ tables. (page : ℕ → List ℕ) → Represents page tables factory_registry) }
        ensures well { IfOk result (λ _. Well factory_registry) }
    {
        let mut entries = Vec::new(alloc);
        entries.push(Some(issuer_domain()))?;
        let mut files = Vec::new(alloc);
        files.push(Some(factory_file()))?;
        let mut keys = Vec::new(alloc);
        keys.push(Some(factory_key(1)))?;
        keys.push(Some(factory_key(2)))?;
        keys.push(Some(factory_key(3)))?;
        Ok(Tables {
            life: CardLife::OpReady,
            entries: fill(entries, ENTRIES - 1)?,
            files: fill(files, FILES - 1)?,
            keys: fill(keys, KEYS - 3)?,
            objects: fill(Vec::new(alloc), OBJECTS)?,
        })
    }
}
