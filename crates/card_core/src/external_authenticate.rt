//! EXTERNAL AUTHENTICATE: an offer becomes a session (GlobalPlatform Amendment D, 7.1.2).

ghost use Rattle.std.specs.Prelude.{◌≡◌, IfErr, OnOk};
ghost use Rattle.card_core.specs.Prelude.{Admitted, AnswersAs, HoldsFor, IsOffered, IsRequestOf, IsWellFormed};
ghost use Rattle.policy_machine.specs.declared.external_authenticate.RuleEA.TheVariants.{EA1};
ghost use Rattle.policy_machine.specs.declared.instruction.TheConstants.{EXTERNAL_AUTHENTICATE};
ghost use Rattle.policy_machine.specs.declared.rule.Rule.TheVariants.{EA};
ghost use Rattle.policy_rules.specs.declared.request.Request.TheVariants.{Authenticate};

use crate::channel_session::ChannelSession;
use crate::reply::Answer;
use apdu_core::Status;
use card_types::Level;
use policy_rules::{EXTERNAL_AUTHENTICATE, Rule, RuleEA};
use scp03_card::AuthRefusal;
use std::mem;

/// Judges the rule of EXTERNAL AUTHENTICATE that stands before those on its form: the channel has an offer.
pub fn judge_offer(held: &ChannelSession, ins: u8) -> Result<(), Rule>
    ensures offered { OnOk result (ins ≡ EXTERNAL_AUTHENTICATE → IsOffered held.now) }
    ensures refused { IfErr result (λ rule. (rule ≡ EA EA1) × (ins ≡ EXTERNAL_AUTHENTICATE) × (IsOffered held.now → ⊥)) }
{
    if ins == EXTERNAL_AUTHENTICATE && !held.is_offered() {
        return Err(Rule::EA(RuleEA::EA1));
    }
    Ok(())
}

/// Makes the offer that the channel holds a session. A refused answer loses the offer.
#[inline(never)]
pub fn external_authenticate(held: &mut ChannelSession, level: Level, proof: &[u8]) -> Answer
    requires offered { IsOffered held.old }
    requires formed { IsWellFormed (Authenticate level proof) }
    ensures { (admitted : Admitted) → IsRequestOf (Authenticate level proof.entry) admitted.command → HoldsFor held.old admitted
        → AnswersAs admitted held.old held.new result }
{
    let ChannelSession::Offered(offer) = mem::replace(held, ChannelSession::Nothing) else {
        return Err(Rule::EA(RuleEA::EA1));
    };
    let mut body = [0; 16];
    body.copy_from_slice(proof);
    match offer.authenticate(level, &body) {
        Ok(session) => {
            *held = ChannelSession::Secured(session);
            Ok(Status(0x9000))
        }
        Err(AuthRefusal::Cryptogram) => Err(Rule::EA(RuleEA::EA2)),
        Err(AuthRefusal::Mac) => Err(Rule::EA(RuleEA::EA3)),
    }
}
