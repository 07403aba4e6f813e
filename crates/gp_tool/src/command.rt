//! A command that is given to a card.

ghost use Rattle.std.specs.Prelude.{◌≡◌, ◌+◌, false, true, IfOk, OnErr, OnOk};
ghost use Rattle.gp_tool.specs.Prelude.{Answers, CardRepresents, HasCause, LeavesEither, Outcome, State, Step, bounded_count, status_bytes};

use arrayvec::ArrayVec;
use card_core::{Card, REPLY_LIMIT};
use flash_core::{Flash, FlashFailed};
use policy_rules::Rule;

/// Gives a command to the card, and counts it in `done` where the card answers it.
#[inline(always)]
pub fn give_command<F: Flash>(
    card: &mut Card<F>,
    done: &mut u32,
    command: &[u8],
    reply: &mut ArrayVec<u8, REPLY_LIMIT>,
) -> Result<Option<Rule>, FlashFailed>
    requires live { card.old.live ≡ true }
    ensures step { (state : State) → CardRepresents F.Flash card.old state → (outcome : Outcome) × Step state command.now outcome
        × LeavesEither F.Flash card.old.flash card.new.flash state.registry outcome.state.registry
        × IfOk result (Answers F.Flash card.new outcome reply.new.items) }
    ensures done { OnOk result (done.new ≡ bounded_count (done.old + 1)) }
    ensures same { OnErr result (done.new ≡ done.old) }
    ensures ok { OnOk result (card.new.live ≡ true) }
    ensures failed { OnErr result ((reply.new.items ≡ status_bytes 0x6581) × (card.new.live ≡ false)) }
    ensures cause { HasCause (F.faults card.old.flash) (F.faults card.new.flash) result }
{
    let answered = card.process(command, reply);
    if answered.is_ok() {
        *done = done.saturating_add(1);
    }
    answered
}
