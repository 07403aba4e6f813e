//! The template of a thing that GET STATUS lists (GlobalPlatform Card Specification 2.3.1, 11.4.3.1).

ghost use Rattle.std.specs.Prelude.{◌≡◌, ◌+◌, ◌<◌, ◌≤◌, ◌++◌, ℕ, List, [], Some, IsSome, if◌then◌else◌, length};
ghost use Rattle.card_core.specs.Prelude.{AFile, AnEntry, AreElements, Element, IsTemplate, IsThingAt, Registry, Thing, aid_of, card_life_code, domain_aid, entry_of, file_aid, file_of, life_mark_code, module_parts, same_aid, status_parts};
ghost use Rattle.card_types.specs.declared.factory.TheConstants.{ISSUER};

use arrayvec::ArrayVec;
use bertlv::{Tlv, append};
use card_types::{
    Aid, Entry, FACTORY_FILE, FACTORY_MODULE, Found, ISSUER, LoadFile, Tables, in_slot,
};

/// The tag of a template.
const TEMPLATE: u16 = 0xE3;

/// The tag of the AID in it.
const NAME: u16 = 0x4F;

/// The tag of the life cycle state.
const LIFE: u16 = 0x9F70;

/// The tag of the privileges of an entry.
const PRIVILEGES: u16 = 0xC5;

/// The tag of the AID of its Executable Load File.
const FILE: u16 = 0xC4;

/// The tag of the AID of a Module of an Executable Load File.
const MODULE: u16 = 0x84;

/// The tag of the AID of the security domain.
const DOMAIN: u16 = 0xCC;

/// The life cycle state of an Executable Load File: LOADED.
const LOADED: u8 = 0x01;

/// P1 of a listing of Executable Load Files with their Modules.
const WITH_MODULES: u8 = 0x10;

/// How many bytes the value of a template may take.
const VALUE_ROOM: usize = 77;

/// How many bytes a template may take.
pub(crate) const TEMPLATE_ROOM: usize = 82;

// The AID of the entry in a slot.
fn domain_name(tables: &Tables, slot: u8) -> &[u8]
    ensures named { result.now ≡ domain_aid tables.now.entries.items slot }
    ensures short { length result.now ≤ 16 }
{
    match in_slot(&tables.entries, slot) {
        Some(entry) => entry.aid.as_bytes(),
        None => &[],
    }
}

// The AID of the Executable Load File in a slot.
fn file_name(tables: &Tables, slot: u8) -> &[u8]
    ensures named { result.now ≡ file_aid tables.now.files.items slot }
    ensures short { length result.now ≤ 16 }
{
    match in_slot(&tables.files, slot) {
        Some(file) => file.aid.as_bytes(),
        None => &[],
    }
}

// The life cycle state of an entry: for the Issuer Security Domain it is that of the card.
fn life_of(tables: &Tables, entry: &Entry) -> u8
    ensures { result ≡ (if same_aid entry.now.aid ISSUER then card_life_code tables.now.life else life_mark_code entry.now.life) }
{
    if entry.aid.as_bytes() == ISSUER.as_slice() {
        tables.life.code()
    } else {
        entry.life.code()
    }
}

// What the template says of an entry.
fn write_entry(tables: &Tables, entry: &Entry, value: &mut ArrayVec<u8, VALUE_ROOM>)
    requires empty { value.old.items ≡ [] }
    ensures parts { (said : Registry) (p1 : ℕ) → tables.now.life ≡ said.life
        → AreElements (status_parts said p1 (AnEntry (entry_of tables.now.entries.items tables.now.files.items entry.now))) value.new.items }
    ensures short { length value.new.items ≤ VALUE_ROOM }
{
    append(
        &Tlv {
            tag: NAME,
            value: entry.aid.as_bytes(),
        },
        value,
    );
    append(
        &Tlv {
            tag: LIFE,
            value: &[life_of(tables, entry)],
        },
        value,
    );
    append(
        &Tlv {
            tag: PRIVILEGES,
            value: &entry.privileges.to_bytes(),
        },
        value,
    );
    append(
        &Tlv {
            tag: FILE,
            value: file_name(tables, entry.file),
        },
        value,
    );
    append(
        &Tlv {
            tag: DOMAIN,
            value: domain_name(tables, entry.domain),
        },
        value,
    );
}

// The Modules of an Executable Load File, in a listing with Modules: those of the factory's file alone are known.
fn write_modules(kind: u8, file: &Aid, value: &mut ArrayVec<u8, VALUE_ROOM>)
    requires room { length value.old.items ≤ 27 }
    ensures parts { (elements : List Element) → AreElements elements value.old.items → AreElements (elements ++ module_parts kind file.now) value.new.items }
    ensures short { length value.new.items ≤ length value.old.items + 13 }
{
    if kind == WITH_MODULES && file.as_bytes() == FACTORY_FILE.as_slice() {
        append(
            &Tlv {
                tag: MODULE,
                value: &FACTORY_MODULE,
            },
            value,
        );
    }
}

// What the template says of an Executable Load File.
fn write_file(tables: &Tables, kind: u8, file: &LoadFile, value: &mut ArrayVec<u8, VALUE_ROOM>)
    requires empty { value.old.items ≡ [] }
    ensures parts { (page : ℕ → List ℕ) (said : Registry)
        → AreElements (status_parts said kind (AFile (file_of page tables.now.entries.items file.now))) value.new.items }
    ensures short { length value.new.items ≤ VALUE_ROOM }
{
    append(
        &Tlv {
            tag: NAME,
            value: file.aid.as_bytes(),
        },
        value,
    );
    append(
        &Tlv {
            tag: LIFE,
            value: &[LOADED],
        },
        value,
    );
    write_modules(kind, &file.aid, value);
    append(
        &Tlv {
            tag: DOMAIN,
            value: domain_name(tables, file.domain),
        },
        value,
    );
}

// What the template says of a thing; its AID.
fn write_value(tables: &Tables, kind: u8, thing: Found, value: &mut ArrayVec<u8, VALUE_ROOM>) -> Aid
    requires used { IsSome (aid_of tables.now thing) }
    requires empty { value.old.items ≡ [] }
    ensures named { aid_of tables.now thing ≡ Some result }
    ensures parts { (page : ℕ → List ℕ) (said : Registry) (named : Thing) → tables.now.life ≡ said.life → IsThingAt page tables.now thing named
        → AreElements (status_parts said kind named) value.new.items }
    ensures short { length value.new.items ≤ VALUE_ROOM }
{
    match thing {
        Found::Entry(slot) => {
            let entry = in_slot(&tables.entries, slot).unwrap();
            write_entry(tables, entry, value);
            entry.aid
        }
        Found::File(slot) => {
            let file = in_slot(&tables.files, slot).unwrap();
            write_file(tables, kind, file, value);
            file.aid
        }
    }
}

/// Writes the template of a thing; its AID.
pub(crate) fn write_template(
    tables: &Tables,
    kind: u8,
    thing: Found,
    template: &mut ArrayVec<u8, TEMPLATE_ROOM>,
) -> Aid
    requires used { IsSome (aid_of tables.now thing) }
    requires empty { template.old.items ≡ [] }
    ensures named { aid_of tables.now thing ≡ Some result }
    ensures is { (page : ℕ → List ℕ) (said : Registry) (named : Thing) → tables.now.life ≡ said.life → IsThingAt page tables.now thing named
        → IsTemplate said kind named template.new.items }
    ensures some { 0 < length template.new.items }
    ensures short { length template.new.items ≤ TEMPLATE_ROOM }
{
    let mut value = ArrayVec::new();
    let aid = write_value(tables, kind, thing, &mut value);
    append(
        &Tlv {
            tag: TEMPLATE,
            value: &value,
        },
        template,
    );
    aid
}
