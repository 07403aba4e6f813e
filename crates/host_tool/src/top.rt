//! The top call.

ghost use Rattle.std.specs.Prelude.{◌≡◌};
ghost use Rattle.host_tool.specs.Ends.{ForStreams, IsOver, ports};
ghost use Rattle.host_tool.specs.Words.{EndsInText, EndsPlay, IsOneWord, host_usage};

use crate::command_line::hand_on;
use crate::ended::Ended;
use crate::file_script::ScriptFile;
use crate::play::play_script;
use io_edge::{Sink, Source};

const USAGE: &[u8] = b"usage: gp_host FILE\n";

const NO_SCRIPT: &[u8] = b"no script\n";

// Writes a text in place of a transcript, and answers the status.
fn end_in<K: Sink>(text: &[u8], status: u8, sink: &mut K) -> u8
    ensures { EndsInText K.tells text.now status result (K.state sink.old) (K.state sink.new) }
{
    match hand_on(text, sink) {
        Ok(()) => status,
        Err(_) => 6,
    }
}

/// Plays the script in the file that the only word names, and answers the status of the program, with the two streams.
///
/// 0: all was done. 1: other words than one. 2: a line that is malformed or too long. 3: the card did not answer. 5: the file was not opened,
/// or a read of it was refused. 6: a write or a flush was refused. 8: all was done, and some status differed from the one wanted. 9: the
/// script is too long.
pub fn gp_host<C: ScriptFile, S: Source, K: Sink, T: Sink>(
    words: &[String],
    script: &mut C,
    replies: S,
    commands: K,
    transcript: &mut T,
) -> Ended<S, K>
    // Other words: the usage line is written, and nothing is read.
    ensures usage { (IsOneWord words.now → ⊥) → EndsInText T.tells host_usage 1 result.status (T.state transcript.old) (T.state transcript.new) }
    ensures idle { (IsOneWord words.now → ⊥) → (script.new ≡ script.old) × (result.replies ≡ replies) × (result.commands ≡ commands) }

    // One word: the file with that name was not opened, or its script was played up to an ending.
    ensures played { IsOneWord words.now → ForStreams C.Source S.Source K.Sink T.Sink (λ tells old new. EndsPlay tells result.status old new)
        (ports script.old replies commands transcript.old) (ports script.new result.replies result.commands transcript.new) }

    ensures complete { IsOneWord words.now → ForStreams C.Source S.Source K.Sink T.Sink (λ tells old new. IsOver tells result.status old new)
        (ports script.old replies commands transcript.old) (ports script.new result.replies result.commands transcript.new) }
{
    match words {
        [name] => match script.open(name.as_str()) {
            Ok(()) => play_script(script, replies, commands, transcript),
            Err(_) => Ended {
                status: end_in(NO_SCRIPT, 5, transcript),
                replies,
                commands,
            },
        },
        _ => Ended {
            status: end_in(USAGE, 1, transcript),
            replies,
            commands,
        },
    }
}
