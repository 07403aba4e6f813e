//! What a command asks for, by the rules on its form (GlobalPlatform Card Specification 2.3.1, chapter 11).

ghost use Rattle.std.specs.Prelude.{◌≡◌, IfErr, IfOk, OnOk, Some};
ghost use Rattle.card_core.specs.Prelude.{Admitted, HoldsFor, IsBuilt, IsOffered, IsRequestOf, Judges, apdu_of};
ghost use Rattle.policy_machine.specs.declared.instruction.TheConstants.{EXTERNAL_AUTHENTICATE};

use crate::channel_session::ChannelSession;
use crate::external_authenticate::judge_offer;
use apdu_core::Command;
use policy_rules::{Request, Rule, parse};

/// The request of a command on a channel that holds this, or the first of the rules on its form that fails.
pub fn read_request<'a>(held: &ChannelSession, command: &Command<'a>) -> Result<Request<'a>, Rule>
    requires built { IsBuilt command.now.ins }
    ensures asks { IfOk result (λ request. IsRequestOf request (apdu_of command.now)) }
    ensures offered { OnOk result (command.now.ins ≡ EXTERNAL_AUTHENTICATE → IsOffered held.now) }
    ensures refused { (admitted : Admitted) → HoldsFor held.now admitted → admitted.command ≡ apdu_of command.now → IfErr result (λ rule. Judges admitted (Some rule)) }
{
    judge_offer(held, command.ins)?;
    parse(command.ins, command.p1, command.p2, command.body)
}
