//! SET STATUS of the card (GlobalPlatform Card Specification 2.3.1, 5.1 and 11.10).

ghost use Rattle.std.specs.Prelude.{◌≡◌, ◌↔◌, ℕ, List, None, Some, IfErr, IfNone, IfOk, IfSome, IsTrue, OnOk};
ghost use Rattle.policy_rules.specs.Prelude.{ActsIn, Admitted, CardStatusParameters, FailsFirst, FormRefuses, IsCardStatusOf, IsCardStep, IsStepBy, MayStep, card_life_code, command_form, managed_card_status};

use card_types::{CardLife, Privileges, Tables};
use policy_machine::{Rule, RulePS, RuleSC};
use policy_slots::{holds, is_issuer_in, judge_setting};

/// The kinds of steps in a card's life cycle, by who may take them.
#[derive(Clone, Copy, Debug, PartialEq, Eq)]
pub(crate) enum CardStep {
    /// From OP_READY to INITIALIZED, and from there to SECURED.
    Prepare,
    /// From SECURED to CARD_LOCKED, and back.
    Lock,
    /// To TERMINATED.
    Terminate,
}

// What kind of step leads from one state to another, if any does.
fn step_between(life: CardLife, next: CardLife) -> Option<CardStep>
    ensures some { IfSome result (λ step. IsStepBy step life (card_life_code next)) }
    ensures none { IfNone result (IsCardStep life (card_life_code next) → ⊥) }
{
    match (life, next) {
        (CardLife::OpReady, CardLife::Initialized) => Some(CardStep::Prepare),
        (CardLife::Initialized, CardLife::Secured) => Some(CardStep::Prepare),
        (CardLife::Secured, CardLife::Locked) => Some(CardStep::Lock),
        (CardLife::Locked, CardLife::Secured) => Some(CardStep::Lock),
        (_, CardLife::Terminated) => Some(CardStep::Terminate),
        _ => None,
    }
}

// Whether the domain in a slot may take such a step.
fn may_step(tables: &Tables, domain: u8, step: CardStep) -> bool
    ensures { (page : ℕ → List ℕ) (admitted : Admitted) → ActsIn page tables.now domain admitted → IsTrue result ↔ MayStep step admitted }
{
    match step {
        CardStep::Prepare => is_issuer_in(tables, domain),
        CardStep::Lock => holds(&tables.entries, domain, Privileges::CARD_LOCK),
        CardStep::Terminate => holds(&tables.entries, domain, Privileges::CARD_TERMINATE),
    }
}

/// Judges a SET STATUS of the card for the domain in a slot: the new life cycle state.
pub fn judge_card_status(tables: &Tables, domain: u8, code: u8) -> Result<CardLife, Rule>
    ensures passed { (page : ℕ → List ℕ) (admitted : Admitted) → ActsIn page tables.now domain admitted
        → IsCardStatusOf code admitted.command → OnOk result (FailsFirst (command_form managed_card_status) admitted None) }
    ensures refused { (page : ℕ → List ℕ) (admitted : Admitted) → ActsIn page tables.now domain admitted
        → IsCardStatusOf code admitted.command → IfErr result (λ rule. FailsFirst (command_form managed_card_status) admitted (Some rule)) }
    ensures life { IfOk result (λ life. card_life_code life ≡ code) }
{
    judge_setting(tables, domain, true)?;
    let Some(life) = CardLife::from_code(code) else {
        return Err(Rule::SC(RuleSC::SC1));
    };
    let Some(step) = step_between(tables.life, life) else {
        return Err(Rule::SC(RuleSC::SC1));
    };
    if !may_step(tables, domain, step) {
        return Err(Rule::SC(RuleSC::SC2));
    }
    Ok(life)
}

/// Reads P1 and P2 of a SET STATUS of the card: the code of the new life cycle state. Any data field is taken.
pub(crate) fn parse_card_status(p1: u8, p2: u8, body: &[u8]) -> Result<u8, Rule>
    ensures form { IfOk result (λ code. CardStatusParameters p1 p2) }
    ensures means { IfOk result (λ code. code ≡ p2) }
    ensures refused { IfErr result (FormRefuses (command_form managed_card_status) p1 p2 body.now) }
{
    if p1 != 0x80 {
        return Err(Rule::PS(RulePS::P));
    }
    Ok(p2)
}
