//! Flash devices.

ghost use Rattle.std.specs.Prelude.{◌<◌};

mod recorded;

use arrayvec::ArrayVec;
use flash_core::{FileFlash, Flash, FlashFailed, FuseFlash, MemFlash, OnceFlash, Page};
use recorded::{Call, RecordedFlash};
use std::alloc::Global;
use std::fs::{self, File, Files};
use std::os::unix::fs::MetadataExt;
use std::test::Fail;

fn filled(byte: u8) -> Page {
    Page { bytes: [byte; 256] }
}

/// The first byte of a page, or 255 where the device fails.
fn first_byte<F: Flash>(flash: &mut F, page: u16) -> u8
    requires { page < 608 }
{
    let mut into = filled(0);
    match flash.read(page, &mut into) {
        Ok(()) => into.bytes[0],
        Err(FlashFailed) => 255,
    }
}

/// Writes 1 to 5 to a page, and answers which calls succeeded.
fn write_five_times<F: Flash>(flash: &mut F) -> [bool; 5] {
    [
        flash.write(7, &filled(1)).is_ok(),
        flash.write(7, &filled(2)).is_ok(),
        flash.write(7, &filled(3)).is_ok(),
        flash.write(7, &filled(4)).is_ok(),
        flash.write(7, &filled(5)).is_ok(),
    ]
}

#[test]
fn each_device_fails_where_it_is_told_to(rt: HostRuntime) -> Result<(), Fail> {
    let mut fuse = FuseFlash::new(MemFlash::new(rt.alloc(), 9)?, 2);
    let mut once = OnceFlash::new(MemFlash::new(rt.alloc(), 9)?, 2);
    let mut full = MemFlash::new(rt.alloc(), 2)?;
    let taken = [
        write_five_times(&mut fuse),
        write_five_times(&mut once),
        write_five_times(&mut full),
    ];
    let front = [true, true, false, false, false];
    assert!(rt; taken == [front, [true, true, false, true, true], front]);
    let bytes = [
        first_byte(&mut fuse.into_inner(), 7),
        first_byte(&mut once.into_inner(), 7),
        first_byte(&mut full, 7),
        first_byte(&mut full, 607),
    ];
    assert!(rt; bytes == [2, 5, 2, 0]);
    Ok(())
}

/// Calls of each kind, whatever they answer.
fn call_six_times<F: Flash>(flash: &mut F) {
    let mut page = filled(9);
    let _ = flash.read(1, &mut page);
    let _ = flash.write(2, &page);
    let _ = flash.sync();
    let _ = flash.read(3, &mut page);
    let _ = flash.write(4, &page);
    let _ = flash.sync();
}

const CALLS: [Call; 6] = [
    Call::Read(1),
    Call::Write(2),
    Call::Sync,
    Call::Read(3),
    Call::Write(4),
    Call::Sync,
];

/// The calls that are passed on where all from this one on fail.
fn passed_by_fuse(failing: u64) -> RecordedFlash {
    let mut fuse = FuseFlash::new(RecordedFlash::new(), failing);
    call_six_times(&mut fuse);
    fuse.into_inner()
}

/// Those that are passed on where this one fails.
fn passed_by_once(failing: u64) -> RecordedFlash {
    let mut once = OnceFlash::new(RecordedFlash::new(), failing);
    call_six_times(&mut once);
    once.into_inner()
}

/// All calls but one.
fn others(failing: usize) -> ArrayVec<Call, 6> {
    let mut others = ArrayVec::new();
    for (number, call) in CALLS.iter().enumerate() {
        if number != failing {
            let _fits = others.try_push(*call);
        }
    }
    others
}

/// A device that fails passes on each call that it does not fail, and makes no other.
#[test]
fn the_calls_that_do_not_fail_are_passed_on(rt: HostRuntime) {
    for failing in 0..7usize {
        let fuse = passed_by_fuse(failing as u64);
        let once = passed_by_once(failing as u64);
        assert!(rt;
            (fuse.calls(), once.calls()) == (&CALLS[..failing.min(6)], others(failing).as_slice()),
            "{failing}"
        );
    }
}

/// Writes a page between two syncs, and answers the first byte that it had.
fn write_synced<F: Flash>(flash: &mut F) -> Result<u8, FlashFailed> {
    flash.sync()?;
    let before = first_byte(flash, 3);
    flash.write(3, &filled(9))?;
    flash.sync()?;
    Ok(before)
}

/// What a file holds of four calls: nothing before the first write, zeros after its end.
fn keeps_pages<R: Files<File = File>>(rt: &R, path: &str) -> Result<[u8; 3], FlashFailed> {
    let before = write_synced(&mut FileFlash::new(rt, path))?;
    let mut again = FileFlash::new(rt, path);
    Ok([before, first_byte(&mut again, 3), first_byte(&mut again, 4)])
}

#[test]
fn a_file_keeps_its_pages(rt: HostRuntime) -> Result<(), Fail> {
    // An earlier run may have left one.
    let _ = fs::remove_file(&rt, "flash.img");
    assert!(rt; keeps_pages(&rt, "flash.img") == Ok([0, 9, 0]));
    assert!(rt; keeps_pages(&rt, "no/such/folder/flash.img") == Err(FlashFailed));
    Ok(())
}

/// Keys stand in a card in plain.
#[test]
fn a_file_is_made_for_its_owner_alone(rt: HostRuntime) -> Result<(), Fail> {
    // An earlier run may have left one.
    let _ = fs::remove_file(&rt, "owner.img");
    FileFlash::new(&rt, "owner.img").write(3, &filled(9))?;
    let mode = fs::metadata(&rt, "owner.img")?.mode();
    assert!(rt; mode & 0o777 == 0o600, "{mode:o}");
    Ok(())
}

/// The first bytes that three devices over one file read in turn, and which of their writes and syncs succeed.
fn contended<R: Files<File = File>>(rt: &R, path: &str) -> ([u8; 4], [bool; 5]) {
    let mut first = FileFlash::new(rt, path);
    let mut second = FileFlash::new(rt, path);
    let none = first_byte(&mut first, 3);
    let locked = second.write(3, &filled(9)).is_ok();

    // The first device has found no file, and goes on without: it has no lock.
    let zeros = first_byte(&mut first, 3);
    let early = first.write(3, &filled(8)).is_ok();
    let mut third = FileFlash::new(rt, path);
    let synced = third.sync().is_ok();
    let refused = first_byte(&mut third, 3);
    let late = third.write(3, &filled(7)).is_ok();

    // The lock ends with its device. What the first has read as zeros is not so any more.
    drop(second);
    let again = first.write(3, &filled(8)).is_ok();
    let free = first_byte(&mut third, 3);
    (
        [none, zeros, refused, free],
        [locked, early, synced, late, again],
    )
}

#[test]
fn a_file_is_of_one_device_at_a_time(rt: HostRuntime) {
    // An earlier run may have left one.
    let _ = fs::remove_file(&rt, "one.img");
    assert!(rt; contended(&rt, "one.img") == ([0, 0, 255, 9], [true, false, false, false, false]));
}

/// A page whose bytes all differ, and differ from those of another number.
fn numbered(number: u8) -> Page {
    let mut bytes = [0; 256];
    for place in 0..256usize {
        bytes[place] = (place as u8).wrapping_mul(7).wrapping_add(number);
    }
    Page { bytes }
}

/// Two pages are written twice each, and their neighbours stay zeros.
#[test]
fn a_file_keeps_each_byte_of_a_page(rt: HostRuntime) -> Result<(), Fail> {
    // An earlier run may have left one.
    let _ = fs::remove_file(&rt, "bytes.img");
    let mut flash = FileFlash::new(&rt, "bytes.img");
    for (page, number) in [(7, 1), (3, 2), (7, 3), (3, 4)] {
        flash.write(page, &numbered(number))?;
    }
    flash.sync()?;
    drop(flash);
    let mut flash = FileFlash::new(&rt, "bytes.img");
    for (page, wanted) in [
        (2, filled(0)),
        (3, numbered(4)),
        (4, filled(0)),
        (6, filled(0)),
        (7, numbered(3)),
        (8, filled(0)),
    ] {
        let mut into = filled(0xEE);
        flash.read(page, &mut into)?;
        assert!(rt; into.bytes == wanted.bytes, "page {page}");
    }
    Ok(())
}
