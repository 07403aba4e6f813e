//! A process of the program.

ghost use Rattle.std.specs.Prelude.{◌≡◌, ◌≢◌, ◌⊎◌, IfErr};
ghost use Rattle.std.specs.IoError.{error_kind};
ghost use Rattle.std.specs.Process.{exit_status};
ghost use Rattle.gp_tool.specs.Words.{HaveForm};

use crate::top::gp;
use flash_core::FileFlash;
use io_edge::{NoWords, StdSink, StdSource, process_words};
use std::env::Args;
use std::fs::{File, Files};
use std::io::{self, ErrorKind, Input, Print};
use std::process::ExitCode;

// Does what the words say, over the standard streams and the file, and answers the status.
fn carry_out<R: Files<File = File> + Input + Print + AllocGlobal>(rt: &R, words: &[String]) -> u8
    ensures usage { (HaveForm words.now → ⊥) → (result ≡ 1) ⊎ (result ≡ 6) }
{
    let mut source = StdSource::new(rt.reader());
    let mut sink = StdSink::new(io::writer(rt));
    let flash = FileFlash::new(rt, "card.img");
    gp(rt.alloc(), words, &mut source, &mut sink, flash).status
}

/// Does what the words of the process say, and answers its status: that of `gp_tool::gp`. Where the words can't be had
/// nothing is written, and it is 7 for want of memory, as also for words of their own, and 1 for a word that is no UTF-8.
pub fn process<R: Files<File = File> + Input + Print + AllocGlobal>(
    rt: &R,
    args: io::Result<Args>,
) -> ExitCode
    ensures memory { IfErr args (λ error. error_kind error ≡ ErrorKind.OutOfMemory → exit_status result ≡ 7) }
    ensures no_text { IfErr args (λ error. error_kind error ≢ ErrorKind.OutOfMemory → exit_status result ≡ 1) }
{
    match process_words(rt.alloc(), args) {
        Ok(words) => ExitCode::from(carry_out(rt, &words)),
        Err(NoWords::NoMemory) => ExitCode::from(7),
        Err(NoWords::NoText) => ExitCode::from(1),
    }
}
