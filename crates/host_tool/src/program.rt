//! A process of the program.

ghost use Rattle.std.specs.Prelude.{◌≡◌, ◌≢◌, ◌⊎◌, IfErr};
ghost use Rattle.std.specs.IoError.{error_kind};
ghost use Rattle.std.specs.Process.{exit_status};
ghost use Rattle.host_tool.specs.Words.{IsOneWord};

use crate::file_script::FileScript;
use crate::top::gp_host;
use io_edge::{NoWords, StdSink, StdSource, process_words};
use std::env::Args;
use std::fs::{File, Files};
use std::io::{self, ErrorKind, Input, Print, Write};
use std::process::ExitCode;

// Does what the words say, over the standard streams and a file, and answers the status.
fn carry_out<R: Files<File = File> + Input + Print + AllocGlobal, W: Write + Drop>(
    rt: &R,
    errors: W,
    words: &[String],
) -> u8
    ensures usage { (IsOneWord words.now → ⊥) → (result ≡ 1) ⊎ (result ≡ 6) }
{
    let mut script = FileScript::new(rt);
    let replies = StdSource::new(rt.reader());
    let commands = StdSink::new(io::writer(rt));
    let mut transcript = StdSink::new(errors);
    gp_host(words, &mut script, replies, commands, &mut transcript).status
}

/// Does what the words of the process say, and answers its status: that of `gp_host`. Commands go to standard output, replies come from
/// standard input, and `errors`, which is standard error, gets the transcript. Where the words can't be had nothing is written, and it is 7
/// for want of memory, and 1 for a word that is no UTF-8.
pub fn process<R: Files<File = File> + Input + Print + AllocGlobal, W: Write + Drop>(
    rt: &R,
    errors: W,
    args: io::Result<Args>,
) -> ExitCode
    ensures memory { IfErr args (λ error. error_kind error ≡ ErrorKind.OutOfMemory → exit_status result ≡ 7) }
    ensures no_text { IfErr args (λ error. error_kind error ≢ ErrorKind.OutOfMemory → exit_status result ≡ 1) }
{
    match process_words(rt.alloc(), args) {
        Ok(words) => ExitCode::from(carry_out(rt, errors, &words)),
        Err(NoWords::NoMemory) => ExitCode::from(7),
        Err(NoWords::NoText) => ExitCode::from(1),
    }
}
