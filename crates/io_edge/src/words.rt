//! The words that a process was given.

ghost use Rattle.std.specs.Prelude.{◌≡◌, ◌≢◌, Err, IfErr};
ghost use Rattle.std.specs.IoError.{error_kind};
ghost use Rattle.io_edge.specs.declared.words.NoWords.TheVariants.{NoMemory, NoText};

use std::alloc::Global;
use std::env::Args;
use std::io::{self, ErrorKind};

/// Why the words of a process can't be had.
#[derive(Clone, Copy, Debug, PartialEq, Eq)]
pub enum NoWords {
    /// There is no memory for them.
    NoMemory,
    /// One is no UTF-8.
    NoText,
}

/// The words after the program's name.
pub fn process_words(alloc: Global, args: io::Result<Args>) -> Result<Vec<String>, NoWords>
    ensures memory { IfErr args (λ error. error_kind error ≡ ErrorKind.OutOfMemory → result ≡ Err NoMemory) }
    ensures no_text { IfErr args (λ error. error_kind error ≢ ErrorKind.OutOfMemory → result ≡ Err NoText) }
{
    let args = match args {
        Ok(args) => args,
        Err(error) if error.kind() == ErrorKind::OutOfMemory => return Err(NoWords::NoMemory),
        Err(_) => return Err(NoWords::NoText),
    };
    args.skip(1).collect(alloc).map_err(|_| NoWords::NoMemory)
}
