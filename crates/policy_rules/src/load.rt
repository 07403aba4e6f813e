//! LOAD (GlobalPlatform Card Specification 2.3.1, 11.6): its request. How it is judged stands in `content_rules`.

ghost use Rattle.policy_machine.specs.declared.instruction.TheConstants.{LOAD};
ghost use Rattle.policy_rules.specs.Requests.{Parses};

use crate::request::Request;
use policy_machine::Rule;

/// Reads P1, P2 and the data field of a LOAD.
pub(crate) fn parse_load(p1: u8, p2: u8, body: &[u8]) -> Result<Request<'_>, Rule>
    ensures { Parses LOAD p1 p2 body.now result }
{
    match content_rules::parse_load(p1, p2, body) {
        Ok(request) => Ok(Request::Load(request)),
        Err(rule) => Err(rule),
    }
}
