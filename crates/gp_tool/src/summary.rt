//! The summary of a workload.

ghost use Rattle.std.specs.Prelude.{◌≡◌, ◌≤◌, ◌+◌, ◌++◌, ℕ, List, length, take, OnOk, OnErr};
ghost use Rattle.gp_tool.specs.Prelude.{AreCards, HasCause, HasPages, IsCounterText, IsInOrder, Registry, Represents, Well, array_vec_len, count_line, summary, workload_line};

use crate::tally::Tally;
use crate::workload::Workload;
use arrayvec::ArrayVec;
use card_types::{ISSUER_SLOT, Tables};
use io_edge::{Sink, WriteFailed};
use line_text::{push_decimal, push_hex, push_word};
use policy_rules::session_set;

/// How many bytes the summary has, at most.
const SUMMARY_ROOM: usize = 320;

/// How many digits a sequence counter has.
const COUNTER_ROOM: usize = 6;

// Appends a word and a count, as a line.
fn push_count(word: &[u8], count: usize, text: &mut ArrayVec<u8, SUMMARY_ROOM>)
    requires room { array_vec_len text.old + length word.now + 42 ≤ SUMMARY_ROOM }
    ensures written { text.new.items ≡ text.old.items ++ count_line word.now count }
    ensures size { array_vec_len text.new ≤ array_vec_len text.old + length word.now + 42 }
{
    push_word(word, text);
    push_word(b" ", text);
    push_decimal(count, text);
    push_word(b"\n", text);
}

// Appends the line that names the workload.
fn push_workload(work: Workload, text: &mut ArrayVec<u8, SUMMARY_ROOM>)
    requires room { array_vec_len text.old + 87 ≤ SUMMARY_ROOM }
    ensures written { text.new.items ≡ text.old.items ++ workload_line work }
    ensures size { array_vec_len text.new ≤ array_vec_len text.old + 87 }
{
    push_word(b"mill ", text);
    push_decimal(work.seed as usize, text);
    push_word(b" ", text);
    push_decimal(work.rounds as usize, text);
    push_word(b"\n", text);
}

// The text of the summary.
fn spell_summary(work: Workload, tally: Tally, counter: &[u8]) -> ArrayVec<u8, SUMMARY_ROOM>
    requires { length counter.now ≤ COUNTER_ROOM }
    ensures { result.items ≡ summary work tally counter.now }
{
    let mut text = ArrayVec::new();
    push_workload(work, &mut text);
    push_count(b"rounds", work.rounds as usize, &mut text);
    push_count(b"9000", tally.success, &mut text);
    push_count(b"other", tally.other, &mut text);
    push_word(b"counter ", &mut text);
    push_word(counter, &mut text);
    push_word(b"\n", &mut text);
    text
}

/// The sequence counter that a session of the Issuer Security Domain draws, in digits, or `none` where it has no key set.
pub fn spell_counter(tables: &Tables) -> ArrayVec<u8, COUNTER_ROOM>
    requires cards { AreCards tables.now }
    requires in_order { IsInOrder tables.now }
    ensures { (page : ℕ → List ℕ) (registry : Registry) → HasPages page → Represents page tables.now registry → Well registry → IsCounterText registry result.items }
{
    let mut text = ArrayVec::new();
    match session_set(tables, ISSUER_SLOT, 0) {
        Some(set) => {
            let [_, high, middle, low] = set.thing.counter.to_be_bytes();
            push_hex(&[high, middle, low], &mut text);
        }
        None => push_word(b"none", &mut text),
    }
    text
}

/// Writes the summary, by one write.
pub fn write_summary<K: Sink>(
    work: Workload,
    tally: Tally,
    counter: &[u8],
    sink: &mut K,
) -> Result<(), WriteFailed>
    requires { length counter.now ≤ COUNTER_ROOM }
    ensures ok { K.tells → OnOk result ((K.state sink.new).written ≡ (K.state sink.old).written ++ summary work tally counter.now) }
    ensures err { K.tells → OnErr result ((n : ℕ) × ((K.state sink.new).written ≡ (K.state sink.old).written ++ take n (summary work tally counter.now))) }
    ensures flushes { (K.state sink.new).flushes ≡ (K.state sink.old).flushes }
    ensures cause { HasCause (K.state sink.old).faults (K.state sink.new).faults result }
{
    sink.write_all(&spell_summary(work, tally, counter))
}
