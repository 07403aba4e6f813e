//! The verb `cap`.

ghost use Rattle.std.specs.Prelude.{◌≡◌, ◌≢◌, ◌⊎◌, ◌++◌, ◌∷◌, [], ℕ, List, take, OnOk, OnErr};
ghost use Rattle.std.specs.List.{flat_map};
ghost use Rattle.gp_tool.specs.Prelude.{CapCourse, CapEnds, CapEndsAt, EndCause, HasCause, IfFaultless, IsCap, IsTakableInput, WritesJoined, around, joining, outside, pack_line, pack_of, stop_text, within_cap_limit};
ghost use Rattle.line_runs.specs.declared.exit.Ending.TheVariants.{BadLine, InputTooLong};

use crate::run::flush_at_end;
use arrayvec::ArrayVec;
use cap_pack::{Cap, CapStop, Joined};
use io_edge::{Sink, Source, WriteFailed};
use line_runs::{Ending, LinesEnd, take_lines};
use line_text::push_word;
use std::alloc::Global;

/// How many bytes of lines wait for one write, at most.
const WAITING_LIMIT: usize = 4_096;

// Writes the lines of the commands, as many by one write as have room.
fn write_commands<K: Sink>(cap: &Cap<'_>, sink: &mut K) -> Result<(), WriteFailed>
    requires cap { (aids : List (List ℕ)) × IsCap cap.now aids }
    ensures ok { K.tells → (aids : List (List ℕ)) → IsCap cap.now aids
        → OnOk result ((K.state sink.new).written ≡ (K.state sink.old).written ++ flat_map pack_line (pack_of cap.now aids)) }
    ensures err { K.tells → (aids : List (List ℕ)) → IsCap cap.now aids
        → OnErr result ((n : ℕ) × ((K.state sink.new).written ≡ (K.state sink.old).written ++ take n (flat_map pack_line (pack_of cap.now aids)))) }
    ensures flushes { (K.state sink.new).flushes ≡ (K.state sink.old).flushes }
    ensures cause { HasCause (K.state sink.old).faults (K.state sink.new).faults result }
{
    let mut waiting = ArrayVec::<u8, WAITING_LIMIT>::new();
    let mut line = ArrayVec::new();
    for index in 0..cap.lines() {
        cap.line(index, &mut line);
        line.push(b'\n');
        if waiting.len() + line.len() > WAITING_LIMIT {
            sink.write_all(&waiting)?;
            waiting.clear();
        }
        push_word(&line, &mut waiting);
    }
    sink.write_all(&waiting)
}

// Writes the text of a stop.
fn write_stop<K: Sink>(stop: &CapStop, sink: &mut K) -> Result<(), WriteFailed>
    ensures ok { K.tells → OnOk result ((K.state sink.new).written ≡ (K.state sink.old).written ++ (stop_text stop.now ++ 10 ∷ [])) }
    ensures err { K.tells → OnErr result ((n : ℕ) × ((K.state sink.new).written ≡ (K.state sink.old).written ++ take n (stop_text stop.now ++ 10 ∷ []))) }
    ensures flushes { (K.state sink.new).flushes ≡ (K.state sink.old).flushes }
    ensures cause { HasCause (K.state sink.old).faults (K.state sink.new).faults result }
{
    let mut text = ArrayVec::<u8, 64>::new();
    stop.text(&mut text);
    text.push(b'\n');
    sink.write_all(&text)
}

// Writes what the bytes that were joined come to.
fn write_joined<K: Sink>(joined: &Joined, sink: &mut K) -> Ending
    ensures written { (all : List ℕ) → joined.now ≡ within_cap_limit all → WritesJoined all K.tells (K.state sink.old).written (K.state sink.new).written result }
    ensures flushes { (K.state sink.new).flushes ≡ (K.state sink.old).flushes }
    ensures cause { (reads : ℕ) → EndCause result (around reads (K.state sink.old).faults 0) (around reads (K.state sink.new).faults 0) }
{
    match joined.read() {
        Ok(cap) => match write_commands(&cap, sink) {
            Ok(()) => Ending::Finished,
            Err(_) => Ending::WriteFault,
        },
        Err(stop) => match write_stop(&stop, sink) {
            Ok(()) => Ending::Differs,
            Err(_) => Ending::WriteFault,
        },
    }
}

// Joins the lines of the source, and writes what they come to.
fn pack<S: Source, K: Sink>(joined: &mut Joined, source: &mut S, sink: &mut K) -> Ending
    requires none { joined.old ≡ within_cap_limit [] }
    ensures ends { (course : CapCourse S.tells (outside (S.state source.old) (K.state sink.old)) (outside (S.state source.new) (K.state sink.new)))
        × CapEndsAt K.tells (outside (S.state source.old) (K.state sink.old)) (outside (S.state source.new) (K.state sink.new)) course result }
    ensures complete { S.tells → IsTakableInput joining (within_cap_limit []) (S.state source.old).left → (result ≢ BadLine) × (result ≢ InputTooLong) }
    ensures flushes { (K.state sink.new).flushes ≡ (K.state sink.old).flushes }
    ensures cause { EndCause result (around (S.state source.old).faults (K.state sink.old).faults 0) (around (S.state source.new).faults (K.state sink.new).faults 0) }
{
    match take_lines(joined, source, sink) {
        LinesEnd::Finished => write_joined(joined, sink),
        end => Ending::of_lines(end, false),
    }
}

/// Packs the CAP file whose bytes the lines of the source spell, and answers the status. 7 is want of memory for it, before the first read.
pub fn cap_verb<S: Source, K: Sink>(alloc: Global, source: &mut S, sink: &mut K) -> u8
    ensures memory { result ≡ 7 → (source.new ≡ source.old) × (sink.new ≡ sink.old) }
    ensures ends { result ≢ 7 → CapEnds S.tells K.tells result (outside (S.state source.old) (K.state sink.old)) (outside (S.state source.new) (K.state sink.new)) }
    ensures complete { S.tells → IsTakableInput joining (within_cap_limit []) (S.state source.old).left
        → IfFaultless (outside (S.state source.old) (K.state sink.old)) (outside (S.state source.new) (K.state sink.new))
        ((result ≡ 0) ⊎ (result ≡ 11) ⊎ (result ≡ 7)) }
{
    match Joined::new(alloc) {
        Ok(mut joined) => {
            let ending = pack(&mut joined, source, sink);
            flush_at_end(ending, sink).status_with(11)
        }
        Err(_) => 7,
    }
}
