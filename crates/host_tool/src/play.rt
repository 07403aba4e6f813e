//! A script that is played.

ghost use Rattle.host_tool.specs.Ends.{ForStreams, HostEnds, IsOver, ports};
ghost use Rattle.host_tool.specs.Flush.{HostFlushes};

use crate::ended::Ended;
use crate::ending::ending_of;
use crate::script_host::ScriptHost;
use io_edge::{Sink, Source};
use line_runs::{Ending, take_lines};

// Hands on what was written, unless a write was refused.
fn flush_at_end<K: Sink>(ending: Ending, sink: &mut K) -> Ending
    ensures { HostFlushes K.tells ending (K.state sink.old) (K.state sink.new) result }
{
    match ending {
        Ending::WriteFault => ending,
        _ => match sink.flush() {
            Ok(()) => ending,
            Err(_) => Ending::WriteFault,
        },
    }
}

/// Plays the lines of a script over a card that answers by `replies` to what `commands` gets, and writes what each line prints to the
/// transcript, before the next one is read. Nothing is supposed of the replies.
pub fn play_script<C: Source, S: Source, K: Sink, T: Sink>(
    script: &mut C,
    replies: S,
    commands: K,
    transcript: &mut T,
) -> Ended<S, K>
    ensures ends { ForStreams C.Source S.Source K.Sink T.Sink (λ tells old new. HostEnds tells result.status old new)
        (ports script.old replies commands transcript.old) (ports script.new result.replies result.commands transcript.new) }

    ensures complete { ForStreams C.Source S.Source K.Sink T.Sink (λ tells old new. IsOver tells result.status old new)
        (ports script.old replies commands transcript.old) (ports script.new result.replies result.commands transcript.new) }
{
    let mut host = ScriptHost::new(replies, commands);
    let end = take_lines(&mut host, script, transcript);
    let ending = ending_of(end, host.differs(), host.why());
    let status = flush_at_end(ending, transcript).status();
    let (replies, commands) = host.into_streams();
    Ended {
        status,
        replies,
        commands,
    }
}
