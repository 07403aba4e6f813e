//! MANAGE CHANNEL (ISO/IEC 7816-4:2013, 11.1.2; GlobalPlatform Card Specification 2.3.1, 11.7).

ghost use Rattle.std.specs.Prelude.{◌≡◌, ◌<◌, ℕ, List, None, Some, IfOk, IfErr, length};
ghost use Rattle.card_types.specs.declared.tables.Tables.{Tables};
ghost use Rattle.policy_rules.specs.Prelude.{Parses, RepresentsState, State, lowest_closed};
ghost use Rattle.policy_machine.specs.declared.instruction.TheConstants.{MANAGE_CHANNEL};

use crate::request::Request;
use policy_machine::{CHANNELS, Rule, RuleMC, RulePS};
use policy_slots::Live;

// The last channel.
const LAST: u8 = CHANNELS as u8 - 1;

/// Reads P1, P2 and the data field.
pub(crate) fn parse_manage_channel(p1: u8, p2: u8, body: &[u8]) -> Result<Request<'_>, Rule>
    ensures { Parses MANAGE_CHANNEL p1 p2 body.now result }
{
    let request = match (p1, p2) {
        (0x00, 0x00) => Request::MoreChannel,
        (0x80, 1..=LAST) => Request::LessChannel { number: p2 },
        _ => return Err(Rule::PS(RulePS::P)),
    };
    if !body.is_empty() {
        return Err(Rule::PS(RulePS::S));
    }
    Ok(request)
}

/// The channel that MANAGE CHANNEL opens: the lowest closed one.
pub fn judge_more_channel(live: &Live) -> Result<u8, RuleMC>
    ensures below { IfOk result (λ number. number < CHANNELS) }
    ensures found { (page : ℕ → List ℕ) (tables : Tables) (state : State) → RepresentsState page tables live.now state → length state.volatile.channels ≡ CHANNELS
        → IfOk result (λ number. lowest_closed state.volatile.channels ≡ Some number) }
    ensures none { (page : ℕ → List ℕ) (tables : Tables) (state : State) → RepresentsState page tables live.now state → length state.volatile.channels ≡ CHANNELS
        → IfErr result (λ rule. lowest_closed state.volatile.channels ≡ None) }
{
    match live.first_closed() {
        Some(number) => Ok(number as u8),
        None => Err(RuleMC::MC1),
    }
}
