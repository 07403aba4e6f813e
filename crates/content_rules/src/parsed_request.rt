//! Reading a request of card content management from a command: P1 and P2 are judged before the data field.

ghost use Rattle.std.specs.Prelude.{◌↔◌, ℕ, List, IfErr, IfNone, IfOk, IfSome, IsTrue};
ghost use Rattle.content_rules.specs.Prelude.{IsFormRefused, JudgedForm};

use policy_machine::{Rule, RulePS};

/// A request of a form of card content management, as it is read from a command.
pub trait ParsedRequest<'a>: Copy {
    ghost form: { JudgedForm };

    /// The request is that of a command with this P1, P2 and data field.
    ghost stands_for: { Self → ℕ → ℕ → List ℕ → Type 0 };

    /// Whether the form takes a P1 and a P2.
    fn takes(p1: u8, p2: u8) -> bool
        ensures { IsTrue result ↔ form.takes p1 p2 };

    /// What the data field asks for with a P1 and a P2.
    fn read(p1: u8, p2: u8, body: &'a [u8]) -> Option<Self>
        requires { form.takes p1 p2 }
        ensures some { IfSome result (λ request. stands_for request p1 p2 body.now) }
        ensures none { IfNone result ((asked : form.Asked) → form.asks p1 p2 body.now asked → ⊥) };
}

/// Reads P1, P2 and the data field of a command of the form.
pub fn parse_request<'a, R: ParsedRequest<'a>>(p1: u8, p2: u8, body: &'a [u8]) -> Result<R, Rule>
    ensures form { IfOk result (λ request. R.form.takes p1 p2) }
    ensures means { IfOk result (λ request. R.stands_for request p1 p2 body.now) }
    ensures refused { IfErr result (IsFormRefused R.form p1 p2 body.now) }
{
    if !R::takes(p1, p2) {
        return Err(Rule::PS(RulePS::P));
    }
    match R::read(p1, p2, body) {
        Some(request) => Ok(request),
        None => Err(Rule::PS(RulePS::S)),
    }
}
