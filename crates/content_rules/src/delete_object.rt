//! DELETE of an application, a security domain or an Executable Load File (GlobalPlatform Card Specification 2.3.1, 9.5 and 11.2).

ghost use Rattle.std.specs.Prelude.{◌≡◌, ◌↔◌, ◌⊎◌, ◌==◌, ℕ, List, Some, IfNone, IfSome, IsTrue, length, refl, true};
ghost use Rattle.content_rules.specs.Prelude.{ActsIn, Admitted, DeleteParameters, DeletingFails, FindsThing, ForActing, ForActingLive, HasNoneFrom, IsAlone, IsDeletionOf, IsDeletionRequest, IsInOrder, IsPartOutOfCharge, IsTokenField, IsUnselected, RepresentsState, aid_of, deletion_judgeable, managed_delete_object};
ghost use Rattle.policy_machine.specs.declared.channels.TheConstants.{CHANNELS};
ghost use Rattle.policy_machine.specs.declared.delete_object.RuleDO.TheVariants.{DO3, DO4};

use crate::extradition::is_fixed;
use crate::in_use::{has_stranger, has_user, is_in_use, is_source};
use crate::parsed_request::ParsedRequest;
use bertlv::read;
use card_types::{Aid, Found, Privileges, Tables, find};
use policy_machine::{Rule, RuleDO};
use policy_slots::{Approving, JudgedRequest, Live, Signed, has_charge, holds, may_manage};

/// What a DELETE of an object asks for: the AID of the thing, whether what comes from an Executable Load File goes with it, and what
/// approves it.
#[derive(Clone, Copy, Debug)]
pub struct DeletionRequest<'a> {
    pub aid: Aid,
    pub related: bool,
    pub signed: Signed<'a>,
}

// Whether something that is to go is not in the charge of the domain in a slot.
fn is_out_of_charge(tables: &Tables, domain: u8, thing: Found, related: bool) -> bool
    requires in_order { IsInOrder tables.now }
    ensures { (page : ℕ → List ℕ) (admitted : Admitted) (named : List ℕ) → ActsIn page tables.now domain admitted
        → aid_of tables.now thing ≡ Some named → related ≡ (admitted.command.p2 == 0x80)
        → IsTrue result ↔ IsPartOutOfCharge admitted named }
{
    if !has_charge(tables, domain, thing) {
        return true;
    }
    match thing {
        Found::Entry(_) => false,
        Found::File(slot) => related && has_stranger(tables, domain, slot),
    }
}

// Whether what is to go is not the domain's, in a slot, to delete.
fn is_barred(tables: &Tables, domain: u8, thing: Found, request: &DeletionRequest<'_>) -> bool
    requires in_order { IsInOrder tables.now }
    ensures { (page : ℕ → List ℕ) (admitted : Admitted) → ActsIn page tables.now domain admitted
        → (is : IsDeletionOf request.now admitted.command) → aid_of tables.now thing ≡ Some request.now.aid
        → IsTrue result ↔ DeletingFails admitted is.asked DO3 }
{
    if holds(&tables.entries, domain, Privileges::GLOBAL_DELETE) {
        return false;
    }
    !may_manage(tables, domain) || is_out_of_charge(tables, domain, thing, request.related)
}

// Whether something that is to go is in use, or something comes from an Executable Load File that is to go alone.
fn is_needed(tables: &Tables, live: &Live, thing: Found, request: &DeletionRequest<'_>) -> bool
    requires in_order { IsInOrder tables.now }
    requires there { aid_of tables.now thing ≡ Some request.now.aid }
    ensures told { (domain : ℕ) → ForActingLive tables.now live.now domain (λ page admitted.
        (is : IsDeletionOf request.now admitted.command) → IsTrue result ↔ DeletingFails admitted is.asked DO4) }
    ensures alone { (IsTrue result) ⊎ IsAlone tables.now request.now.related thing }
    ensures unselected { (IsTrue result) ⊎ IsUnselected tables.now live.now request.now.related thing }
    ensures unloaded { (IsTrue result) ⊎ HasNoneFrom tables.now request.now.related thing }
{
    match thing {
        Found::Entry(slot) => is_in_use(tables, live, slot),
        Found::File(slot) => {
            if request.related {
                has_user(tables, live, slot)
            } else {
                is_source(&tables.entries, slot)
            }
        }
    }
}

// Whether the domain in a slot deletes as it is delegated to, and may not delete whatever it wants.
fn deletes_as_delegate(tables: &Tables, domain: u8) -> bool
    ensures { ForActing tables.now domain (λ page admitted. IsTrue result ↔ managed_delete_object.judged.delegation.is_delegated admitted) }
{
    holds(&tables.entries, domain, Privileges::DELEGATED_MANAGEMENT)
        && !holds(&tables.entries, domain, Privileges::GLOBAL_DELETE)
}

impl JudgedRequest for DeletionRequest<'_> {
    /// The thing.
    type Found = Found;

    ghost form = { managed_delete_object.judged };

    ghost receipted = { true };

    ghost reads = { IsDeletionOf };

    ghost asked = { λ request command is. is.asked };

    ghost brought = { λ request. request.signed };

    ghost told = { λ page tables live admitted. RepresentsState page tables live admitted.at × (length admitted.at.volatile.channels ≡ CHANNELS) };

    ghost finds = { λ request tables live domain. FindsThing request tables live };

    fn judge_own(&self, tables: &Tables, live: &Live, domain: u8) -> Result<Found, Rule> {
        let Some(thing) = find(tables, &self.aid) else {
            return Err(Rule::DO(RuleDO::DO1));
        };
        if is_fixed(&self.aid) {
            return Err(Rule::DO(RuleDO::DO2));
        }
        if is_barred(tables, domain, thing, self) {
            return Err(Rule::DO(RuleDO::DO3));
        }
        if is_needed(tables, live, thing, self) {
            return Err(Rule::DO(RuleDO::DO4));
        }
        Ok(thing)
    }

    fn approving(&self, tables: &Tables, domain: u8) -> Approving<'_> {
        Approving {
            signed: self.signed,
            delegated: deletes_as_delegate(tables, domain),
            receipted: true,
        }
    }

    ghost judgeable = { deletion_judgeable };

    ghost lawful = { record { first_rules = refl; approval_rules = refl } };

    ghost meant = { λ request command is. record { asks = is.asks; parameters = is.parameters; approval = is.approval } };
}

// The token that a field has, or no bytes where the field has none.
fn read_token(field: &[u8]) -> Option<&[u8]>
    ensures some { IfSome result (λ token. IsTokenField token.now field.now) }
    ensures none { IfNone result ((token : List ℕ) → IsTokenField token field.now → ⊥) }
{
    if field.is_empty() {
        return Some(field);
    }
    let Ok((token, end)) = read(field) else {
        return None;
    };
    if token.tag != 0x9E || !end.is_empty() {
        return None;
    }
    Some(token.value)
}

impl<'a> ParsedRequest<'a> for DeletionRequest<'a> {
    ghost form = { managed_delete_object.judged };

    ghost stands_for = { IsDeletionRequest };

    fn takes(p1: u8, p2: u8) -> bool
        ensures { IsTrue result ↔ DeleteParameters p1 p2 }
    {
        p1 == 0x00 && matches!(p2, 0x00 | 0x80)
    }

    fn read(p1: u8, p2: u8, body: &'a [u8]) -> Option<Self> {
        let Ok((named, rest)) = read(body) else {
            return None;
        };
        if named.tag != 0x4F {
            return None;
        }
        let aid = Aid::new(named.value)?;
        let token = read_token(rest)?;
        Some(DeletionRequest {
            aid,
            related: p2 == 0x80,
            signed: Signed::over(p1, p2, &body[..body.len() - rest.len()], token),
        })
    }
}

// Whether DELETE of an object takes a P1 and a P2.
fn takes_parameters(p1: u8, p2: u8) -> bool
    ensures { IsTrue result ↔ DeleteParameters p1 p2 }
{
    p1 == 0x00 && matches!(p2, 0x00 | 0x80)
}
