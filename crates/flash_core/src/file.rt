//! A file as a device: the edge that is trusted to keep what is written.

ghost use Rattle.std.specs.Prelude.{◌≡◌, ◌+◌, ◌*◌, ◌<◌, ℕ, []};
ghost use Rattle.faults.specs.Faults.{HasCause};

use crate::flash::{Flash, FlashFailed};
use crate::page::{PAGES, Page};
use std::fs::{File, Files, OpenOptions};
use std::io::{self, ErrorKind};
use std::marker::Model;
use std::os::unix::fs::{FileExt, OpenOptionsExt};

/// The pages of a file, one after another. What lies past the file's end reads as zeros. The file is opened at the
/// first call, or made for its owner alone at the first write, and kept open with an exclusive lock as long as the
/// device lives. Any refusal of a file call is a counted fault, and so is a lock that another open of the file holds.
///
/// Its content is not known: that the file follows the device model is a premise. A program that writes the same
/// file and takes no lock is outside it.
#[derive(Drop)]
pub struct FileFlash<'a, R: Files<File = File>> {
    rt: &'a R,
    path: &'a str,
    kept: Kept,
    faults: u64,
}

// What a device keeps of its file.
#[derive(Drop)]
enum Kept {
    // No call has looked for it.
    Unknown,
    // There was none.
    Absent,
    Locked(File),
}

// Contracts see how many calls have failed.
impl<'a, R: Files<File = File>> Model for FileFlash<'a, R> {
    ghost Value = { ℕ };

    ghost view = { λ f. f.faults };
}

impl<'a, R: Files<File = File>> FileFlash<'a, R> {
    /// The file at this path, which is opened at the first call.
    pub fn new(rt: &'a R, path: &'a str) -> FileFlash<'a, R>
        ensures { result ≡ 0 }
    {
        FileFlash {
            rt,
            path,
            kept: Kept::Unknown,
            faults: 0,
        }
    }

    // Counts a refusal of a file call.
    fn counted(&mut self, answer: io::Result<()>) -> Result<(), FlashFailed>
        ensures cause { HasCause self.old self.new result }
    {
        match answer {
            Ok(()) => Ok(()),
            Err(_) => {
                self.faults = self.faults.saturating_add(1);
                Err(FlashFailed)
            }
        }
    }
}

// Opens the file for one device alone. Descriptors 0 to 2 belong to the standard streams: where one of them is closed
// the file would get its number, and replies would be written into the card. The clone has a number above them, and
// shares the lock.
fn open_locked<R: Files<File = File>>(
    rt: &R,
    path: &str,
    options: &OpenOptions,
) -> io::Result<File> {
    let opened = options.open(rt, path)?;
    let file = opened.try_clone()?;
    file.try_lock()?;
    Ok(file)
}

// Opens a file that is there, for reading and writing.
fn open_there<R: Files<File = File>>(rt: &R, path: &str) -> io::Result<Kept> {
    match open_locked(rt, path, OpenOptions::new().read(true).write(true)) {
        Ok(file) => Ok(Kept::Locked(file)),
        Err(refused) if refused.kind() == ErrorKind::NotFound => Ok(Kept::Absent),
        Err(refused) => Err(refused),
    }
}

// Makes the file that was not there, for its owner alone, since a card has keys in plain. One that has bytes by now is
// another program's.
fn make<R: Files<File = File>>(rt: &R, path: &str) -> io::Result<File> {
    let made = open_locked(
        rt,
        path,
        OpenOptions::new()
            .read(true)
            .write(true)
            .create(true)
            .mode(0o600),
    )?;
    if made.metadata()?.len() > 0 {
        return Err(io::Error::from(ErrorKind::AlreadyExists));
    }
    Ok(made)
}

// Looks for the file, once: what was read of no file stays true of the device, though another program makes one.
fn look<R: Files<File = File>>(rt: &R, path: &str, kept: &mut Kept) -> io::Result<()> {
    if matches!(kept, Kept::Unknown) {
        *kept = open_there(rt, path)?;
    }
    Ok(())
}

// Where the page begins.
fn place(page: u16) -> u64
    ensures { result ≡ page * 256 }
{
    u64::from(page) * 256
}

// Reads a page, up to the file's end.
fn read_page(file: &File, page: u16, bytes: &mut [u8; 256]) -> io::Result<()> {
    let mut done = 0;
    while done < 256 {
        let count = file.read_at(&mut bytes[done..], place(page) + done as u64)?;
        if count == 0 {
            break;
        }
        done += count;
    }
    Ok(())
}

fn read_from<R: Files<File = File>>(
    rt: &R,
    path: &str,
    kept: &mut Kept,
    page: u16,
    into: &mut Page,
) -> io::Result<()> {
    look(rt, path, kept)?;
    into.bytes = [0; 256];
    match kept {
        Kept::Locked(file) => read_page(file, page, &mut into.bytes),
        _ => Ok(()),
    }
}

fn write_to<R: Files<File = File>>(
    rt: &R,
    path: &str,
    kept: &mut Kept,
    page: u16,
    from: &Page,
) -> io::Result<()> {
    look(rt, path, kept)?;
    if let Kept::Locked(file) = kept {
        return file.write_all_at(&from.bytes, place(page));
    }
    let made = make(rt, path)?;
    let answer = made.write_all_at(&from.bytes, place(page));
    *kept = Kept::Locked(made);
    answer
}

fn sync_to<R: Files<File = File>>(rt: &R, path: &str, kept: &mut Kept) -> io::Result<()> {
    look(rt, path, kept)?;
    match kept {
        Kept::Locked(file) => file.sync_data(),
        _ => Ok(()),
    }
}

impl<'a, R: Files<File = File>> Flash for FileFlash<'a, R> {
    ghost tells = { ⊥ };

    ghost pages = { λ _. [] };

    ghost moment = { λ _. 0 };

    ghost may_leave = { λ _ _. ⊥ };

    ghost left_since = { λ _ _ _. ⊥ };

    ghost faults = { λ f. f };

    ghost as_read = { λ _ told. absurd told };

    ghost counts_now = { λ _ _ _ told. absurd told };

    ghost only_now = { λ _ _ told. absurd told };

    fn read(&mut self, page: u16, into: &mut Page) -> Result<(), FlashFailed> {
        let answer = read_from(self.rt, self.path, &mut self.kept, page, into);
        self.counted(answer)
    }

    fn write(&mut self, page: u16, from: &Page) -> Result<(), FlashFailed> {
        let answer = write_to(self.rt, self.path, &mut self.kept, page, from);
        self.counted(answer)
    }

    fn sync(&mut self) -> Result<(), FlashFailed> {
        let answer = sync_to(self.rt, self.path, &mut self.kept);
        self.counted(answer)
    }
}
