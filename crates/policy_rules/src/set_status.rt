//! SET STATUS (GlobalPlatform Card Specification 2.3.1, 11.10): P1 tells which of its forms a command has.

ghost use Rattle.policy_machine.specs.declared.instruction.TheConstants.{SET_STATUS};
ghost use Rattle.policy_rules.specs.Requests.{Parses};

use crate::card_status::parse_card_status;
use crate::entry_status::parse_entry_status;
use crate::request::Request;
use policy_machine::Rule;

/// Reads P1, P2 and the data field of a SET STATUS.
pub(crate) fn parse_set_status(p1: u8, p2: u8, body: &[u8]) -> Result<Request<'_>, Rule>
    ensures { Parses SET_STATUS p1 p2 body.now result }
{
    if p1 == 0x80 {
        let life = parse_card_status(p1, p2, body)?;
        return Ok(Request::CardStatus { life });
    }
    match parse_entry_status(p1, p2, body) {
        Ok(request) => Ok(Request::EntryStatus(request)),
        Err(rule) => Err(rule),
    }
}
