//! EXTERNAL AUTHENTICATE (GlobalPlatform Amendment D, 7.1.2).

ghost use Rattle.policy_machine.specs.declared.instruction.TheConstants.{EXTERNAL_AUTHENTICATE};
ghost use Rattle.policy_rules.specs.Requests.{Parses};

use crate::request::Request;
use card_types::Level;
use policy_machine::{Rule, RulePS};

/// Reads P1, P2 and the data field: the security level, and the host cryptogram with the C-MAC.
pub(crate) fn parse_external_authenticate(p1: u8, p2: u8, body: &[u8]) -> Result<Request<'_>, Rule>
    ensures { Parses EXTERNAL_AUTHENTICATE p1 p2 body.now result }
{
    let Some(level) = Level::from_code(p1) else {
        return Err(Rule::PS(RulePS::P));
    };
    if p2 != 0x00 {
        return Err(Rule::PS(RulePS::P));
    }
    if body.len() != 16 {
        return Err(Rule::PS(RulePS::S));
    }
    Ok(Request::Authenticate { level, proof: body })
}
