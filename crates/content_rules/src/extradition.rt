//! INSTALL [for extradition] (GlobalPlatform Card Specification 2.3.1, 9.4.1 and 11.5).

ghost use Rattle.std.specs.Prelude.{◌≡◌, ◌↔◌, ◌⊎◌, ℕ, List, Some, IsTrue, refl, true};
ghost use Rattle.content_rules.specs.Prelude.{ActsIn, Admitted, ExtraditingFails, ExtraditionParameters, FindsMove, Holds, InstallData, IsExtraditionOf, IsExtraditionRequest, IsInOrder, IsOutOfReach, IsUnapprovable, Represents, aid_of, authorized_management, delegated_management, extradition_judgeable, is_personalized, managed_extradition};
ghost use Rattle.card_types.specs.declared.factory.TheConstants.{FACTORY_FILE, ISSUER};
ghost use Rattle.card_types.specs.declared.found.Found.TheVariants.{Entry};
ghost use Rattle.policy_machine.specs.declared.extradition.RuleEX.TheVariants.{EX5, EX7};

use crate::install_application::is_factory_file;
use crate::install_fields::read_fields;
use crate::parsed_request::ParsedRequest;
use card_types::{Aid, Found, Life, LifeMark, Privileges, Tables, find, in_slot};
use policy_machine::{Rule, RuleEX};
use policy_slots::{
    Approving, JudgedRequest, Live, Signed, TOKEN_KEY, domain_of, find_domain, has_charge, holds,
    is_at_or_above, is_issuer, is_over, may_manage, nearest_with_key,
};

/// What an INSTALL [for extradition] asks for: the AIDs of the new security domain and of the thing, and what approves it.
#[derive(Clone, Copy, Debug)]
pub struct ExtraditionRequest<'a> {
    pub to: Aid,
    pub aid: Aid,
    pub signed: Signed<'a>,
}

/// What the rules of an INSTALL [for extradition] find: the thing, and the slots of its domain and of its new one.
#[derive(Clone, Copy, Debug)]
pub struct Extradition {
    pub thing: Found,
    pub from: u8,
    pub to: u8,
}

/// The life cycle state of a security domain that is personalized, and not locked.
const PERSONALIZED: LifeMark = LifeMark {
    life: Life::Personalized,
    locked: false,
};

fn is_in_service(life: LifeMark) -> bool
    ensures { IsTrue result ↔ (life ≡ is_personalized) }
{
    life == PERSONALIZED
}

// Whether it is the AID of the Issuer Security Domain or of the factory's Executable Load File, which stay where they are.
pub(crate) fn is_fixed(aid: &Aid) -> bool
    ensures { IsTrue result ↔ ((aid.now ≡ ISSUER) ⊎ (aid.now ≡ FACTORY_FILE)) }
{
    is_issuer(aid) || is_factory_file(aid)
}

// Whether the new domain, in the slot `to`, is not personalized, or locked.
fn is_unfit(tables: &Tables, to: u8) -> bool
    ensures { (page : ℕ → List ℕ) (admitted : Admitted) (given : InstallData) → Represents page tables.now admitted.at.registry
        → aid_of tables.now (Entry to) ≡ Some given.first → IsTrue result ↔ ExtraditingFails admitted given EX5 }
{
    match in_slot(&tables.entries, to) {
        Some(entry) => !is_in_service(entry.life),
        None => false,
    }
}

// Whether the domain in a slot manages content in its own right, and does not move a thing to the domain in the slot `to`.
fn is_out_of_reach(tables: &Tables, domain: u8, request: &ExtraditionRequest<'_>, to: u8) -> bool
    requires in_order { IsInOrder tables.now }
    ensures { (page : ℕ → List ℕ) (admitted : Admitted) → ActsIn page tables.now domain admitted
        → (is : IsExtraditionOf request.now admitted.command) → aid_of tables.now (Entry to) ≡ Some request.now.to
        → IsTrue result ↔ (Holds admitted authorized_management × IsOutOfReach admitted is.given) }
{
    if !holds(&tables.entries, domain, Privileges::AUTHORIZED_MANAGEMENT) {
        return false;
    }
    if request.to == request.aid {
        return false;
    }
    !is_at_or_above(tables, domain, to)
}

// Whether the domain in a slot is delegated to, and nobody above it may approve that a thing is moved to the domain in the slot `to`.
fn is_unapprovable(tables: &Tables, domain: u8, request: &ExtraditionRequest<'_>, to: u8) -> bool
    requires in_order { IsInOrder tables.now }
    ensures { (page : ℕ → List ℕ) (admitted : Admitted) → ActsIn page tables.now domain admitted
        → (is : IsExtraditionOf request.now admitted.command) → aid_of tables.now (Entry to) ≡ Some request.now.to
        → IsTrue result ↔ (Holds admitted delegated_management × IsUnapprovable admitted is.given) }
{
    if !holds(&tables.entries, domain, Privileges::DELEGATED_MANAGEMENT) {
        return false;
    }
    if request.to == request.aid {
        return true;
    }
    match nearest_with_key(tables, domain, Privileges::TOKEN_VERIFICATION, TOKEN_KEY) {
        Some((verifier, _)) => !is_at_or_above(tables, verifier, to),
        None => true,
    }
}

// Whether the thing may not be moved to the domain in the slot `to`.
fn is_barred(tables: &Tables, domain: u8, request: &ExtraditionRequest<'_>, to: u8) -> bool
    requires in_order { IsInOrder tables.now }
    ensures { (page : ℕ → List ℕ) (admitted : Admitted) → ActsIn page tables.now domain admitted
        → (is : IsExtraditionOf request.now admitted.command) → aid_of tables.now (Entry to) ≡ Some request.now.to
        → IsTrue result ↔ ExtraditingFails admitted is.given EX7 }
{
    is_out_of_reach(tables, domain, request, to) || is_unapprovable(tables, domain, request, to)
}

impl JudgedRequest for ExtraditionRequest<'_> {
    type Found = Extradition;

    ghost form = { managed_extradition.judged };

    ghost receipted = { true };

    ghost reads = { IsExtraditionOf };

    ghost asked = { λ request command is. is.given };

    ghost brought = { λ request. request.signed };

    ghost told = { λ page tables live admitted. Unit {0} };

    ghost finds = { λ request tables live domain. FindsMove request tables };

    fn judge_own(&self, tables: &Tables, _live: &Live, domain: u8) -> Result<Extradition, Rule> {
        if !may_manage(tables, domain) {
            return Err(Rule::EX(RuleEX::EX1));
        }
        let Some(thing) = find(tables, &self.aid) else {
            return Err(Rule::EX(RuleEX::EX2));
        };
        let Some(to) = find_domain(tables, &self.to) else {
            return Err(Rule::EX(RuleEX::EX2));
        };
        if is_fixed(&self.aid) {
            return Err(Rule::EX(RuleEX::EX3));
        }
        if !has_charge(tables, domain, thing) {
            return Err(Rule::EX(RuleEX::EX4));
        }
        if is_unfit(tables, to) {
            return Err(Rule::EX(RuleEX::EX5));
        }
        if is_over(tables, thing, to) {
            return Err(Rule::EX(RuleEX::EX6));
        }
        if is_barred(tables, domain, self, to) {
            return Err(Rule::EX(RuleEX::EX7));
        }
        Ok(Extradition {
            thing,
            from: domain_of(tables, thing),
            to,
        })
    }

    fn approving(&self, tables: &Tables, domain: u8) -> Approving<'_> {
        Approving::of_delegate(tables, domain, self.signed, true)
    }

    ghost judgeable = { extradition_judgeable };

    ghost lawful = { record { first_rules = refl; approval_rules = refl } };

    ghost meant = { λ request command is. record { asks = is.asks; parameters = is.parameters; approval = is.approval } };
}

impl<'a> ParsedRequest<'a> for ExtraditionRequest<'a> {
    ghost form = { managed_extradition.judged };

    ghost stands_for = { IsExtraditionRequest };

    fn takes(p1: u8, p2: u8) -> bool
        ensures { IsTrue result ↔ ExtraditionParameters p1 p2 }
    {
        p1 == 0x10 && p2 == 0x00
    }

    fn read(p1: u8, p2: u8, body: &'a [u8]) -> Option<Self> {
        let fields = read_fields(body)?;
        if !fields.second.is_empty() || !fields.privileges.is_empty() {
            return None;
        }
        let to = Aid::new(fields.first)?;
        let aid = Aid::new(fields.third)?;
        Some(ExtraditionRequest {
            to,
            aid,
            signed: Signed::over(p1, p2, fields.before, fields.token),
        })
    }
}
