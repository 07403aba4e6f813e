//! A line of the verb `replay`.

ghost use Rattle.std.specs.Prelude.{◌≡◌, ◌≢◌, ◌≤◌, ◌∷◌, ℕ, Bool, List, true, take, length, IfSome, MatchOption};
ghost use Rattle.gp_tool.specs.Prelude.{ComparesLine, FailsCommand, IsForReplay, IsHeld, KeepsLine, Replays, ServeCause, ServesLine, SkipsSpaces, Wants, keeping, kept_in, standing};
ghost use Rattle.gp_tool.specs.declared.form.TheConstants.{COMMAND_LIMIT};

use crate::bytes::{begins_with, is_same};
use crate::card_end::CardEnd;
use crate::difference::write_difference;
use crate::form::{COMMAND_LIMIT, decode};
use crate::give::{Given, give_line};
use crate::line::LineEnd;
use crate::workspace::Workspace;
use card_core::Card;
use flash_core::Flash;
use io_edge::{LINE_LIMIT, Sink};

/// How many digits a wanted reply has, at least.
const DIGITS_LEAST: usize = 4;

// What stands after the spaces that a text begins with.
fn skip_spaces(text: &[u8]) -> &[u8]
    ensures { SkipsSpaces text.now result.now }
{
    let mut rest = text;
    while begins_with(rest, b' ') {
        rest = &rest[1..];
    }
    rest
}

// The bytes that a line wants, in the front of `bytes`, where it wants a reply.
fn read_wanted(line: &[u8], bytes: &mut [u8; COMMAND_LIMIT]) -> Option<usize>
    requires line { length line.now ≤ LINE_LIMIT }
    requires sign { (rest : List ℕ) × (line.now ≡ 61 ∷ rest) }
    ensures wanted { MatchOption result ((want : List ℕ) → Wants line.now want → ⊥) (λ count. Wants line.now (take count bytes.new)) }
    ensures fits { IfSome result (λ count. count ≤ COMMAND_LIMIT) }
{
    let digits = skip_spaces(&line[1..]);
    if digits.len() < DIGITS_LEAST {
        return None;
    }
    decode(digits, bytes)
}

// Compares the reply that is there with the one that a line wants, and writes a difference.
fn compare_line<K: Sink>(
    number: u32,
    line: &[u8],
    differs: &mut bool,
    space: &mut Workspace,
    sink: &mut K,
) -> LineEnd
    requires line { length line.now ≤ LINE_LIMIT }
    requires sign { (rest : List ℕ) × (line.now ≡ 61 ∷ rest) }
    ensures compared { ComparesLine number line.now K.tells (kept_in space.old) (kept_in space.new) differs.old differs.new
        (K.state sink.old).written (K.state sink.new).written result }
    ensures flushes { (K.state sink.new).flushes ≡ (K.state sink.old).flushes }
    ensures cause { (device : ℕ) → ServeCause (K.state sink.old).faults (K.state sink.new).faults device device result }
{
    if !space.has_reply {
        return LineEnd::NoForm;
    }
    let Some(count) = read_wanted(line, &mut space.command) else {
        return LineEnd::NoForm;
    };
    space.has_reply = false;
    let wanted = &space.command[..count];
    if is_same(wanted, &space.reply) {
        return LineEnd::Done;
    }
    *differs = true;
    match write_difference(number, wanted, &space.reply, sink) {
        Ok(()) => LineEnd::Done,
        Err(_) => LineEnd::WriteFault,
    }
}

// Gives a line to the card, and keeps the reply.
fn keep_reply<F: Flash>(
    line: &[u8],
    card: &mut Card<F>,
    done: &mut u32,
    space: &mut Workspace,
) -> LineEnd
    requires line { length line.now ≤ LINE_LIMIT }
    requires live { card.old.live ≡ true }
    ensures kept { (differs : Bool) → KeepsLine line.now F.Flash (keeping card.old (kept_in space.old) done.old differs) (keeping card.new (kept_in space.new) done.new differs) result }
    ensures live { result ≢ LineEnd.FlashFailed → card.new.live ≡ true }
    ensures later { F.faults card.old.flash ≤ F.faults card.new.flash }
    ensures cause { (sink : ℕ) → ServeCause sink sink (F.faults card.old.flash) (F.faults card.new.flash) result }
{
    match give_line(line, card, done, space) {
        Given::NoForm => LineEnd::NoForm,
        Given::Nothing => LineEnd::Done,
        Given::Reset => {
            space.has_reply = false;
            LineEnd::Done
        }
        Given::Answered(_) => {
            space.has_reply = true;
            LineEnd::Done
        }
        Given::FlashFailed => LineEnd::FlashFailed,
    }
}

/// Gives a line to the card and keeps the reply, or compares the one that was kept with the one that the line wants.
pub fn replay_line<K: Sink, F: Flash>(
    number: u32,
    line: &[u8],
    end: &mut CardEnd<F>,
    differs: &mut bool,
    space: &mut Workspace,
    sink: &mut K,
) -> LineEnd
    requires line { length line.now ≤ LINE_LIMIT }
    requires live { end.old.card.live ≡ true }
    ensures served { ServesLine IsHeld (Replays number line.now) (IsForReplay line.now) (FailsCommand line.now) F.Flash K.tells
        (standing end.old (kept_in space.old) differs.old) (standing end.new (kept_in space.new) differs.new)
        (K.state sink.old).written (K.state sink.new).written result }
    ensures live { result ≢ LineEnd.FlashFailed → end.new.card.live ≡ true }
    ensures flushes { (K.state sink.new).flushes ≡ (K.state sink.old).flushes }
    ensures later { F.faults end.old.card.flash ≤ F.faults end.new.card.flash }
    ensures cause { ServeCause (K.state sink.old).faults (K.state sink.new).faults (F.faults end.old.card.flash) (F.faults end.new.card.flash) result }
{
    if begins_with(line, b'=') {
        compare_line(number, line, differs, space, sink)
    } else {
        keep_reply(line, &mut end.card, &mut end.done, space)
    }
}
