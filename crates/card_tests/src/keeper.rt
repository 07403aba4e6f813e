//! Keys of security domains, kept in memory.

use card_types::{KeyRec, set_of};
use key_sets::{PutRefusal, Spent, delete, draw_counter, put_one, put_set};
use rec_store::{MemKeeper, RecordKeeper};
use std::test::Fail;

/// A call, and what it answers. A key set is made of a byte and the next two.
#[derive(Clone, Copy)]
enum Call {
    /// `put_set`: the owner, the key version number that is replaced, the new one, and the first byte.
    Set(u8, u8, u8, u8, Result<(), PutRefusal>),

    /// `put_one`, with the same.
    One(u8, u8, u8, u8, Result<(), PutRefusal>),

    /// `delete`: the owner and the key version number.
    Delete(u8, u8, bool),

    /// `draw_counter`, with the same.
    Draw(u8, u8, Result<u32, Spent>),
}

use Call::{Delete, Draw, One, Set};

/// Puts a key set. Its key version numbers are judged first.
fn set<R: RecordKeeper>(
    keeper: &mut R,
    owner: u8,
    replaced: u8,
    version: u8,
    byte: u8,
) -> Result<Result<(), PutRefusal>, Fail>
    requires roomy { R.roomy keeper.old }
    ensures roomy { R.roomy keeper.new }
{
    if replaced > 0x6F || version < 1 || version > 0x6F || byte > 0x7F {
        return Err("key version numbers of key sets".into());
    }
    let (enc, mac, dek) = ([byte; 16], [byte + 1; 16], [byte + 2; 16]);
    Ok(put_set(keeper, owner, replaced, version, &enc, &mac, &dek))
}

/// Puts a key that stands alone, whose bytes are all the same.
fn one<R: RecordKeeper>(
    keeper: &mut R,
    owner: u8,
    replaced: u8,
    version: u8,
    byte: u8,
) -> Result<Result<(), PutRefusal>, Fail>
    requires roomy { R.roomy keeper.old }
    ensures roomy { R.roomy keeper.new }
{
    if replaced != 0 && replaced != 0x70 && replaced != 0x71 || version != 0x70 && version != 0x71 {
        return Err("key version numbers of keys that stand alone".into());
    }
    Ok(put_one(keeper, owner, replaced, version, &[byte; 16]))
}

/// Draws the counter of a key set that is there.
fn draw<R: RecordKeeper>(keeper: &mut R, owner: u8, version: u8) -> Result<Result<u32, Spent>, Fail>
    requires roomy { R.roomy keeper.old }
    ensures roomy { R.roomy keeper.new }
{
    if version < 1 || version > 0x6F || set_of(keeper.keys(), owner, version).is_none() {
        return Err("a key set".into());
    }
    Ok(draw_counter(keeper, owner, version))
}

/// Makes a call. Answers whether it answers what is wanted.
fn answers<R: RecordKeeper>(keeper: &mut R, call: Call) -> Result<bool, Fail>
    requires roomy { R.roomy keeper.old }
    ensures roomy { R.roomy keeper.new }
{
    match call {
        Set(owner, replaced, version, byte, want) => {
            Ok(set(keeper, owner, replaced, version, byte)? == want)
        }
        One(owner, replaced, version, byte, want) => {
            Ok(one(keeper, owner, replaced, version, byte)? == want)
        }
        Delete(owner, version, want) => Ok(delete(keeper, owner, version) == want),
        Draw(owner, version, want) => Ok(draw(keeper, owner, version)? == want),
    }
}

/// The first of these calls that answers something else.
fn first_wrong<R: RecordKeeper>(keeper: &mut R, calls: &[Call]) -> Result<Option<usize>, Fail>
    requires roomy { R.roomy keeper.old }
    ensures roomy { R.roomy keeper.new }
{
    for number in 0..calls.len() {
        if !answers(keeper, calls[number])? {
            return Ok(Some(number));
        }
    }
    Ok(None)
}

/// An owner, a key version number, a key identifier, the byte that the key is made of, and its counter.
type Key = (u8, u8, u8, u8, u32);

fn is_key(slot: &Option<KeyRec>, want: &Key) -> bool {
    let (owner, version, identifier, byte, counter) = *want;
    match slot {
        Some(key) => {
            (key.owner, key.version, key.identifier) == (owner, version, identifier)
                && key.bytes[..] == [byte; 16]
                && key.counter == counter
        }
        None => false,
    }
}

fn count(keys: &[Option<KeyRec>]) -> usize {
    keys.iter().filter(|slot| slot.is_some()).count()
}

/// Whether the keys are these.
fn are(keys: &[Option<KeyRec>], wanted: &[Key]) -> bool {
    count(keys) == wanted.len()
        && wanted
            .iter()
            .all(|want| keys.iter().any(|slot| is_key(slot, want)))
}

/// Each call, over a keeper in memory: put, replaced by another key version number and by the same, refused, drawn,
/// deleted.
#[test]
fn keys_are_put_drawn_and_deleted(rt: HostRuntime) -> Result<(), Fail> {
    let mut keeper = MemKeeper::new(rt.alloc())?;
    assert!(rt; are(keeper.keys(), &[]));
    let calls = [
        Set(0, 0x00, 0x30, 1, Ok(())),
        Draw(0, 0x30, Ok(0)),
        Set(0, 0x30, 0x31, 21, Ok(())),
        Set(0, 0x32, 0x33, 1, Err(PutRefusal::Unknown)),
        Set(1, 0x00, 0x30, 11, Ok(())),
        Draw(1, 0x30, Ok(0)),
        Draw(1, 0x30, Ok(1)),
        Set(0, 0x00, 0x32, 1, Ok(())),
        One(0, 0x00, 0x70, 41, Ok(())),
        One(0, 0x00, 0x70, 42, Err(PutRefusal::Taken)),
        Set(0, 0x00, 0x33, 1, Ok(())),
        Set(0, 0x00, 0x34, 1, Err(PutRefusal::Full)),
        Delete(0, 0x32, true),
        Delete(0, 0x32, false),
        Delete(0, 0x33, true),
    ];
    assert!(rt; first_wrong(&mut keeper, &calls)? == None);
    let wanted = [
        (0, 0x31, 1, 21, 0),
        (0, 0x31, 2, 22, 0),
        (0, 0x31, 3, 23, 0),
        (0, 0x70, 1, 41, 0),
        (1, 0x30, 1, 11, 2),
        (1, 0x30, 2, 12, 0),
        (1, 0x30, 3, 13, 0),
    ];
    assert!(rt; are(keeper.keys(), &wanted));
    Ok(())
}
