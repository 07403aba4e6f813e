//! The top call.

ghost use Rattle.std.specs.Prelude.{◌≡◌, ◌⊎◌, ◌≤◌, ◌++◌, ℕ, take, OnOk, OnErr};
ghost use Rattle.gp_tool.specs.Prelude.{AreOf, EndsInUsage, FlushesLast, HasCause, HaveForm, HoldsCard, IsHandedOn, LacksMemory, NeedsCard, TaskCompletes, TaskEnds, around, usage_line};
ghost use Rattle.gp_tool.specs.declared.task.Task.{Task};
ghost use Rattle.gp_tool.specs.declared.task.Task.TheVariants.{Mill};
ghost use Rattle.gp_tool.specs.declared.workload.Workload.{Workload};

use crate::cap_verb::cap_verb;
use crate::desk_verb::desk_verb;
use crate::ended::Ended;
use crate::format_verb::format_verb;
use crate::mill_verb::mill_verb;
use crate::run_verb::run_verb;
use crate::show_verb::show_verb;
use crate::task::{Task, read_task};
use flash_core::Flash;
use io_edge::{Sink, Source, WriteFailed};
use std::alloc::Global;

const USAGE: &[u8] =
    b"usage: gp format | run | why | replay | play | mill SEED COUNT | show | access | desk | cap\n";

// Writes the usage line, and hands it on.
fn write_usage<K: Sink>(sink: &mut K) -> Result<(), WriteFailed>
    ensures ok { K.tells → OnOk result ((K.state sink.new).written ≡ (K.state sink.old).written ++ usage_line) }
    ensures err { K.tells → OnErr result ((n : ℕ) × ((K.state sink.new).written ≡ (K.state sink.old).written ++ take n usage_line)) }
    ensures handed_on { OnOk result (IsHandedOn K.tells (K.state sink.old) (K.state sink.new)) }
    ensures flushes { OnErr result (FlushesLast K.tells (K.state sink.old) usage_line (K.state sink.new)) }
    ensures cause { HasCause (K.state sink.old).faults (K.state sink.new).faults result }
{
    sink.write_all(USAGE)?;
    sink.flush()
}

// Writes the usage line, and answers the status.
fn refuse_words<K: Sink>(sink: &mut K) -> u8
    ensures { EndsInUsage K.tells result (K.state sink.old) (K.state sink.new) }
{
    match write_usage(sink) {
        Ok(()) => 1,
        Err(_) => 6,
    }
}

// Does a task.
fn do_task<S: Source, K: Sink, F: Flash>(
    alloc: Global,
    task: Task,
    source: &mut S,
    sink: &mut K,
    flash: F,
) -> Ended<F>
    requires few { (work : Workload) → task ≡ Mill work → work.rounds ≤ 10_000 }
    ensures ends { TaskEnds S.Source K.Sink F.Flash task result.status result.done (around source.old sink.old flash) (around source.new sink.new result.flash) }
    ensures memory { result.status ≡ 7
        → LacksMemory S.Source K.Sink F.Flash task result.done (around source.old sink.old flash) (around source.new sink.new result.flash) }
    ensures no_card { NeedsCard task → F.tells → (HoldsCard F.Flash flash → ⊥) → (result.status ≡ 3) ⊎ (result.status ≡ 4) ⊎ (result.status ≡ 7) }
    ensures complete { TaskCompletes S.Source K.Sink F.Flash task result.status (around source.old sink.old flash) (around source.new sink.new result.flash) }
    ensures later { F.faults flash ≤ F.faults result.flash }
{
    match task {
        Task::Format => format_verb(sink, flash),
        Task::Serve(verb) => run_verb(alloc, verb, source, sink, flash),
        Task::Mill(work) => mill_verb(alloc, work, sink, flash),
        Task::Show(view) => show_verb(alloc, view, sink, flash),
        Task::Desk => Ended {
            status: desk_verb(source, sink),
            done: 0,
            flash,
        },
        Task::Cap => Ended {
            status: cap_verb(alloc, source, sink),
            done: 0,
            flash,
        },
    }
}

/// Does what the words say, and answers the status of the program, how many commands the card has answered, and the device.
///
/// 0: all was done, and the input of `run`, `why`, `replay` or `play` was read to its end. 1: malformed words. 2: a line that is malformed or too long. 3: the device
/// failed. 4: the device holds no card. 5: the source refused a read. 6: the sink refused a write or its flush. 7: want of
/// memory for the card, or for a CAP file. 8: all was done in `replay` or `play`, and some reply or status differed from the one wanted. 9: the input
/// is too long. 10: all was done in `desk`, and some receipt did not fit. 11: all lines of `cap` were read, and they are no CAP file that can be packed.
pub fn gp<S: Source, K: Sink, F: Flash>(
    alloc: Global,
    words: &[String],
    source: &mut S,
    sink: &mut K,
    flash: F,
) -> Ended<F>
    // The words are malformed: the usage line is written, nothing is read, and no call is made on the device.
    ensures usage { (HaveForm words.now → ⊥)
        → EndsInUsage K.tells result.status (K.state sink.old) (K.state sink.new) × (source.new ≡ source.old) × (result.done ≡ 0) × (result.flash ≡ flash) }

    // They are those of a task: what was read, written and handed on, what the device holds, and which ending the status tells. `run`, `why`, `replay`,
    // `play`, `show` and `access` may also not have powered the card on, and `mill` not have made it. `show`, `access` and `format` process no command.
    ensures ends { (task : Task) → AreOf task words.now
        → TaskEnds S.Source K.Sink F.Flash task result.status result.done (around source.old sink.old flash) (around source.new sink.new result.flash) }

    // Want of memory: nothing is read or written, and the device is the one given, or by `mill` the factory card.
    ensures memory { (task : Task) → AreOf task words.now → result.status ≡ 7
        → LacksMemory S.Source K.Sink F.Flash task result.done (around source.old sink.old flash) (around source.new sink.new result.flash) }

    // Where the device holds no card, `run`, `why`, `replay`, `play`, `show` and `access` answer 4, but for want of memory and a device that failed.
    ensures no_card { (task : Task) → AreOf task words.now → NeedsCard task → F.tells → (HoldsCard F.Flash flash → ⊥)
        → (result.status ≡ 3) ⊎ (result.status ≡ 4) ⊎ (result.status ≡ 7) }

    // Where each line has a form, the input is short enough and nothing fails, all is done, or memory was wanting.
    ensures complete { (task : Task) → AreOf task words.now
        → TaskCompletes S.Source K.Sink F.Flash task result.status (around source.old sink.old flash) (around source.new sink.new result.flash) }
    ensures later { F.faults flash ≤ F.faults result.flash }
{
    match read_task(words) {
        None => Ended {
            status: refuse_words(sink),
            done: 0,
            flash,
        },
        Some(task) => do_task(alloc, task, source, sink, flash),
    }
}
