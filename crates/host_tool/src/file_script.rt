//! The file with a script.

ghost use Rattle.std.specs.Prelude.{◌≡◌, ◌<◌, ◌≤◌, ℕ, [], length, IfOk, OnOk};
ghost use Rattle.faults.specs.Faults.{HasCause};

use io_edge::{ReadFailed, Source};
use std::fs::{File, Files, OpenOptions};
use std::io::{self, Read};
use std::marker::Model;

/// The file was not opened.
#[derive(Clone, Copy, Debug, PartialEq, Eq)]
pub struct OpenFailed;

/// A source that is a file once it is opened.
pub trait ScriptFile: Source {
    /// Opens the file of this name. What is left is that of the file.
    fn open(&mut self, name: &str) -> Result<(), OpenFailed>
        ensures same { OnOk result (Self.state self.new ≡ Self.state self.old) }
        ensures cause { HasCause (Self.state self.old).faults (Self.state self.new).faults result };
}

/// A file of the system. It counts the calls on it that were refused, and its content is not known.
#[derive(Drop)]
pub struct FileScript<'a, R: Files<File = File>> {
    rt: &'a R,
    file: Option<File>,
    faults: u64,
}

// Contracts see how many calls have failed.
impl<'a, R: Files<File = File>> Model for FileScript<'a, R> {
    ghost Value = { ℕ };

    ghost view = { λ f. f.faults };
}

impl<'a, R: Files<File = File>> FileScript<'a, R> {
    /// A file that is not open yet.
    pub fn new(rt: &'a R) -> FileScript<'a, R>
        ensures { result ≡ 0 }
    {
        FileScript {
            rt,
            file: None,
            faults: 0,
        }
    }
}

// Opens a file for reading. Descriptors 0 to 2 belong to the standard streams: where standard input is closed the file would get its
// number, and its lines would be taken for replies. The clone has a number above them.
fn open_there<R: Files<File = File>>(rt: &R, name: &str) -> io::Result<File> {
    OpenOptions::new().read(true).open(rt, name)?.try_clone()
}

// Reads once, where the file is open.
fn read_from(file: &mut Option<File>, buf: &mut [u8]) -> Result<usize, ReadFailed>
    ensures { IfOk result (λ count. count ≤ length buf.new) }
{
    match file {
        Some(file) => match file.read(buf) {
            Ok(count) => Ok(count),
            Err(_) => Err(ReadFailed),
        },
        None => Err(ReadFailed),
    }
}

impl<'a, R: Files<File = File>> Source for FileScript<'a, R> {
    ghost tells = { ⊥ };

    ghost state = { λ f. record { left = []; faults = f } };

    fn read_some(&mut self, buf: &mut [u8]) -> Result<usize, ReadFailed> {
        let answer = read_from(&mut self.file, buf);
        if answer.is_err() {
            self.faults = self.faults.saturating_add(1);
        }
        answer
    }
}

impl<'a, R: Files<File = File>> ScriptFile for FileScript<'a, R> {
    fn open(&mut self, name: &str) -> Result<(), OpenFailed> {
        match open_there(self.rt, name) {
            Ok(file) => {
                self.file = Some(file);
                Ok(())
            }
            Err(_) => {
                self.faults = self.faults.saturating_add(1);
                Err(OpenFailed)
            }
        }
    }
}
