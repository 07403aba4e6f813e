//! The words of the command line.

ghost use Rattle.std.specs.Prelude.{◌≡◌, ◌↔◌, IsTrue, MatchOption, string_bytes};
ghost use Rattle.gp_tool.specs.Words.{AreOf, HaveForm};

use crate::verb::Verb;
use crate::view::View;
use crate::workload::{Workload, read_workload};

/// What the program is to do.
#[derive(Clone, Copy)]
pub enum Task {
    /// `format`
    Format,

    /// `run`, `why`, `replay` or `play`: the lines of the source are given to the card.
    Serve(Verb),

    /// `mill`: a workload is played on the factory card.
    Mill(Workload),

    /// `show` or `access`: what there is on the card is written.
    Show(View),

    /// `desk`: the lines of the source sign tokens and judge receipts.
    Desk,

    /// `cap`: the lines of the source are a CAP file that is packed into commands.
    Cap,
}

fn is_word(word: &String, wanted: &[u8]) -> bool
    ensures { IsTrue result ↔ (string_bytes word.now ≡ wanted.now) }
{
    word.as_bytes() == wanted
}

/// The task whose words they are, alone.
pub fn read_task(words: &[String]) -> Option<Task>
    ensures { MatchOption result (HaveForm words.now → ⊥) (λ task. AreOf task words.now) }
{
    match words {
        [word] if is_word(word, b"format") => Some(Task::Format),
        [word] if is_word(word, b"run") => Some(Task::Serve(Verb::Run)),
        [word] if is_word(word, b"why") => Some(Task::Serve(Verb::Why)),
        [word] if is_word(word, b"replay") => Some(Task::Serve(Verb::Replay)),
        [word] if is_word(word, b"play") => Some(Task::Serve(Verb::Play)),
        [word, seed, rounds] if is_word(word, b"mill") => {
            Some(Task::Mill(read_workload(seed, rounds)?))
        }
        [word] if is_word(word, b"show") => Some(Task::Show(View::Registry)),
        [word] if is_word(word, b"access") => Some(Task::Show(View::Rights)),
        [word] if is_word(word, b"desk") => Some(Task::Desk),
        [word] if is_word(word, b"cap") => Some(Task::Cap),
        _ => None,
    }
}
