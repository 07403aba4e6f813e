//! Entries and Executable Load Files that come and go on a card. After each change it is committed, and mounted again.

ghost use Rattle.std.specs.Prelude.{◌≡◌, ◌==◌, [], true, IfOk, IsSome, IsTrue};
ghost use Rattle.card_types.specs.Represents.{IsInOrder, thing_in};
ghost use Rattle.registry.specs.Removing.{IsNoDomain, IsUnloaded};

use bitflags::Flags;
use card_check::is_card;
use card_types::{
    Aid, CardLife, Entry, FACTORY_MODULE, Found, Life, LifeMark, LoadFile, Privileges, Wants,
    factory_file, factory_key, find, first_that, in_slot, issuer_domain,
};
use flash_core::MemFlash;
use key_sets::put_set;
use rec_store::{Records, lay_out};
use registry::{
    AddRefusal, add_entry, add_file, lock_tree, move_to, remove_entry, remove_file, set_life,
    set_receipts,
};
use std::alloc::Global;
use std::test::Fail;

/// How many writes and syncs a device takes.
const ROOM: u32 = 999;

/// What is in this domain.
#[derive(Drop)]
struct InDomain {
    slot: u8,
}

impl Wants<Entry> for InDomain {
    ghost fits = { λ wanted entry. entry.domain == wanted.slot };

    fn fits(&self, thing: &Entry) -> bool {
        thing.domain == self.slot
    }
}

impl Wants<LoadFile> for InDomain {
    ghost fits = { λ wanted file. file.domain == wanted.slot };

    fn fits(&self, thing: &LoadFile) -> bool {
        thing.domain == self.slot
    }
}

/// What comes from this Executable Load File.
#[derive(Drop)]
struct FromFile {
    slot: u8,
}

impl Wants<Entry> for FromFile {
    ghost fits = { λ wanted entry. entry.file == wanted.slot };

    fn fits(&self, thing: &Entry) -> bool {
        thing.file == self.slot
    }
}

fn has_entry(records: &Records<MemFlash>, slot: u8) -> bool
    ensures { IsTrue result → IsSome (thing_in records.now.tables.entries.items slot) }
{
    in_slot(&records.tables().entries, slot).is_some()
}

fn has_file(records: &Records<MemFlash>, slot: u8) -> bool
    ensures { IsTrue result → IsSome (thing_in records.now.tables.files.items slot) }
{
    in_slot(&records.tables().files, slot).is_some()
}

fn is_no_domain(records: &Records<MemFlash>, slot: u8) -> bool
    ensures { IsTrue result → IsNoDomain records.now.tables slot }
{
    let tables = records.tables();
    first_that(&tables.entries, &InDomain { slot }).is_none()
        && first_that(&tables.files, &InDomain { slot }).is_none()
}

fn is_unloaded(records: &Records<MemFlash>, slot: u8) -> bool
    ensures { IsTrue result → IsUnloaded records.now.tables slot }
{
    first_that(&records.tables().entries, &FromFile { slot }).is_none()
}

/// A device with the factory card.
fn formatted(alloc: Global) -> Result<MemFlash, Fail> {
    let mut flash = MemFlash::new(alloc, ROOM)?;
    lay_out(
        &mut flash,
        CardLife::OpReady,
        &[Some(issuer_domain())],
        &[Some(factory_file())],
        &[
            Some(factory_key(1)),
            Some(factory_key(2)),
            Some(factory_key(3)),
        ],
        &[],
    )?;
    Ok(flash)
}

fn mounted(alloc: Global, flash: MemFlash) -> Result<Records<MemFlash>, Fail>
    ensures { IfOk result (λ r. (r.staged ≡ []) × (r.live ≡ true) × IsInOrder r.tables) }
{
    match Records::mount(alloc, flash) {
        Ok(records) => Ok(records),
        Err(_) => Err("a card".into()),
    }
}

/// Commits what was changed, where the tables are still a card's.
fn kept(mut records: Records<MemFlash>) -> Result<MemFlash, Fail>
    requires { records.live ≡ true }
{
    if !is_card(records.tables()) {
        return Err("the tables of a card".into());
    }
    records.commit()?;
    Ok(records.into_flash())
}

/// An AID that begins with this byte.
fn aid(first: u8) -> Result<Aid, Fail> {
    Ok(Aid::new(&[first, 0, 0, 0, 1]).ok_or("five bytes")?)
}

/// Adds a security domain of the factory file in slot 0, or an application of the file in another.
fn add(
    alloc: Global,
    flash: MemFlash,
    name: u8,
    domain: u8,
    file: u8,
) -> Result<(Option<AddRefusal>, MemFlash), Fail> {
    let mut records = mounted(alloc, flash)?;
    if !has_entry(&records, domain) || !has_file(&records, file) {
        return Err("the slots of a domain and a file".into());
    }
    let entry = Entry {
        aid: aid(name)?,
        domain,
        file,
        module: Aid::new(&FACTORY_MODULE).ok_or("eight bytes")?,
        life: LifeMark {
            life: Life::Selectable,
            locked: false,
        },
        privileges: if file == 0 {
            Privileges::SECURITY_DOMAIN
        } else {
            Privileges::empty()
        },
        receipts: 0,
    };
    let refused = add_entry(&mut records, entry).err();
    Ok((refused, kept(records)?))
}

/// Adds an Executable Load File of one byte.
fn load(
    alloc: Global,
    flash: MemFlash,
    name: u8,
    domain: u8,
) -> Result<(Option<AddRefusal>, MemFlash), Fail> {
    let mut records = mounted(alloc, flash)?;
    if !has_entry(&records, domain) {
        return Err("the slot of a domain".into());
    }
    let file = LoadFile {
        aid: aid(name)?,
        domain,
        len: 1,
        pages: [96; 128],
    };
    let refused = add_file(&mut records, file).err();
    Ok((refused, kept(records)?))
}

/// Puts a key set of an entry.
fn put_keys(alloc: Global, flash: MemFlash, owner: u8) -> Result<MemFlash, Fail> {
    let mut records = mounted(alloc, flash)?;
    if put_set(&mut records, owner, 0, 0x30, &[1; 16], &[2; 16], &[3; 16]).is_err() {
        return Err("a key set".into());
    }
    kept(records)
}

/// Moves a thing.
fn moved(alloc: Global, flash: MemFlash, thing: Found, domain: u8) -> Result<MemFlash, Fail> {
    let mut records = mounted(alloc, flash)?;
    let there = match thing {
        Found::Entry(slot) => has_entry(&records, slot),
        Found::File(slot) => has_file(&records, slot),
    };
    if !there || !has_entry(&records, domain) {
        return Err("the slots of a thing and a domain".into());
    }
    move_to(&mut records, thing, domain);
    kept(records)
}

/// Locks the entry in a slot, and gives it a receipt number.
fn locked(alloc: Global, flash: MemFlash, slot: u8, receipts: u16) -> Result<MemFlash, Fail> {
    let mut records = mounted(alloc, flash)?;
    if !has_entry(&records, slot) {
        return Err("the slot of an entry".into());
    }
    let life = LifeMark {
        life: Life::Selectable,
        locked: true,
    };
    set_life(&mut records, slot, life);
    let mut records = mounted(alloc, kept(records)?)?;
    if !has_entry(&records, slot) {
        return Err("the slot of an entry".into());
    }
    set_receipts(&mut records, slot, receipts);
    kept(records)
}

/// Removes a thing, where nothing names it.
fn removed(alloc: Global, flash: MemFlash, thing: Found) -> Result<MemFlash, Fail> {
    let mut records = mounted(alloc, flash)?;
    match thing {
        Found::Entry(slot) => {
            if !has_entry(&records, slot) || !is_no_domain(&records, slot) {
                return Err("an entry that is no domain".into());
            }
            remove_entry(&mut records, slot);
        }
        Found::File(slot) => {
            if !has_file(&records, slot) || !is_unloaded(&records, slot) {
                return Err("a file that no entry names".into());
            }
            remove_file(&mut records, slot);
        }
    }
    kept(records)
}

/// The thing of each of three names, how many keys there are, and of the entry in slot 2 its domain, whether it is locked and its
/// receipt number.
type Seen = ([Option<Found>; 3], usize, Option<(u8, bool, u16)>);

fn seen(alloc: Global, flash: MemFlash) -> Result<(Seen, MemFlash), Fail> {
    let records = mounted(alloc, flash)?;
    let tables = records.tables();
    let named = [
        find(tables, &aid(0xD1)?),
        find(tables, &aid(0xF1)?),
        find(tables, &aid(0xA1)?),
    ];
    let keys = tables.keys.iter().filter(|key| key.is_some()).count();
    let entry = match in_slot(&tables.entries, 2) {
        Some(entry) => Some((entry.domain, entry.life.locked, entry.receipts)),
        None => None,
    };
    Ok(((named, keys, entry), records.into_flash()))
}

#[test]
fn things_come_and_go(rt: HostRuntime) -> Result<(), Fail> {
    let alloc = rt.alloc();
    let domain = Some(Found::Entry(1));
    let file = Some(Found::File(1));
    let application = Some(Found::Entry(2));
    let (first, flash) = add(alloc, formatted(alloc)?, 0xD1, 0, 0)?;
    let (second, flash) = load(alloc, flash, 0xF1, 0)?;
    let (third, flash) = add(alloc, flash, 0xA1, 0, 1)?;
    assert!(rt; [first, second, third] == [None, None, None]);
    let (fourth, flash) = add(alloc, flash, 0xF1, 0, 1)?;
    let (fifth, flash) = load(alloc, flash, 0xA1, 0)?;
    assert!(rt; [fourth, fifth] == [Some(AddRefusal::Taken), Some(AddRefusal::Taken)]);
    let (there, flash) = seen(alloc, put_keys(alloc, flash, 1)?)?;
    assert!(rt; there == ([domain, file, application], 6, Some((0, false, 0))));
    let flash = moved(alloc, flash, Found::Entry(2), 1)?;
    let flash = moved(alloc, flash, Found::File(1), 1)?;
    let (there, flash) = seen(alloc, locked(alloc, flash, 2, 7)?)?;
    assert!(rt; there == ([domain, file, application], 6, Some((1, true, 7))));
    let (there, flash) = seen(alloc, removed(alloc, flash, Found::Entry(2))?)?;
    assert!(rt; there == ([domain, file, None], 6, None));
    let (there, flash) = seen(alloc, removed(alloc, flash, Found::File(1))?)?;
    assert!(rt; there == ([domain, None, None], 6, None));
    let (there, _flash) = seen(alloc, removed(alloc, flash, Found::Entry(1))?)?;
    assert!(rt; there == ([None, None, None], 3, None));
    Ok(())
}

/// Locks or unlocks the domain in a slot with all below it.
fn tree_locked(alloc: Global, flash: MemFlash, domain: u8, locked: bool) -> Result<MemFlash, Fail> {
    let mut records = mounted(alloc, flash)?;
    if !has_entry(&records, domain) {
        return Err("the slot of a domain".into());
    }
    lock_tree(&mut records, domain, locked);
    kept(records)
}

/// Of the entries in the first six slots, which are locked.
fn marks(alloc: Global, flash: MemFlash) -> Result<([Option<bool>; 6], MemFlash), Fail> {
    let records = mounted(alloc, flash)?;
    let mut marks = [None; 6];
    for (slot, mark) in marks.iter_mut().enumerate() {
        if let Some(Some(entry)) = records.tables().entries.get(slot) {
            *mark = Some(entry.life.locked);
        }
    }
    Ok((marks, records.into_flash()))
}

#[test]
fn trees_are_locked_and_unlocked(rt: HostRuntime) -> Result<(), Fail> {
    let alloc = rt.alloc();
    let (_, flash) = load(alloc, formatted(alloc)?, 0xF1, 0)?;
    // A domain, a domain below it, an application there, a second root with an application, and an entry of none of them.
    let (_, flash) = add(alloc, flash, 0xD1, 0, 0)?;
    let (_, flash) = add(alloc, flash, 0xD2, 1, 0)?;
    let (_, flash) = add(alloc, flash, 0xA1, 2, 1)?;
    let (_, flash) = add(alloc, flash, 0xD3, 0, 0)?;
    let flash = moved(alloc, flash, Found::Entry(4), 4)?;
    let (_, flash) = add(alloc, flash, 0xA2, 4, 1)?;
    let (before, flash) = marks(alloc, flash)?;
    assert!(rt; before == [Some(false); 6]);
    let (first, flash) = marks(alloc, tree_locked(alloc, flash, 1, true)?)?;
    assert!(rt; first == [false, true, true, true, false, false].map(Some));
    let (second, flash) = marks(alloc, tree_locked(alloc, flash, 2, false)?)?;
    assert!(rt; second == [false, true, false, false, false, false].map(Some));
    let (third, flash) = marks(alloc, tree_locked(alloc, flash, 4, true)?)?;
    assert!(rt; third == [false, true, false, false, true, true].map(Some));
    let (last, _flash) = marks(alloc, tree_locked(alloc, flash, 1, false)?)?;
    assert!(rt; last == [false, false, false, false, true, true].map(Some));
    Ok(())
}
