//! INSTALL [for make selectable] (GlobalPlatform Card Specification 2.3.1, 9.3.3 and 11.5).

ghost use Rattle.std.specs.Prelude.{◌≡◌, ◌↔◌, ◌≢◌, IfNone, IfSome, IsTrue, MatchOption, Option, refl, true};
ghost use Rattle.content_rules.specs.Prelude.{AreGiven, IsInstalledWith, IsSelectableOf, IsSelectableRequest, MakeSelectableParameters, is_installed, managed_selectable, selectable_judgeable, thing_in};

use crate::install_fields::read_fields;
use crate::parsed_request::ParsedRequest;
use card_types::{Aid, Life, LifeMark, Privileges, Tables, in_slot};
use domain_tree::above;
use policy_machine::{Rule, RuleMS};
use policy_slots::{Approving, JudgedRequest, Live, Signed, find_entry, may_manage};

/// What an INSTALL [for make selectable] asks for: the AID of the application, the privileges that it is to have or none, and
/// what approves it.
#[derive(Clone, Copy, Debug)]
pub struct SelectableRequest<'a> {
    pub aid: Aid,
    pub privileges: Option<Privileges>,
    pub signed: Signed<'a>,
}

/// The life cycle state of an application that is installed, and not locked.
const INSTALLED: LifeMark = LifeMark {
    life: Life::Installed,
    locked: false,
};

fn is_just_installed(life: LifeMark) -> bool
    ensures { IsTrue result ↔ (life ≡ is_installed) }
{
    life == INSTALLED
}

// Whether privileges are given, and others than these.
fn differ(given: Option<Privileges>, privileges: Privileges) -> bool
    ensures { IsTrue result ↔ MatchOption given ⊥ (λ these. privileges ≢ these) }
{
    match given {
        Some(these) => privileges != these,
        None => false,
    }
}

impl JudgedRequest for SelectableRequest<'_> {
    /// The slot of the application.
    type Found = u8;

    ghost form = { managed_selectable.judged };

    ghost receipted = { true };

    ghost reads = { IsSelectableOf };

    ghost asked = { λ request command is. is.given };

    ghost brought = { λ request. request.signed };

    ghost told = { λ page tables live admitted. Unit {0} };

    ghost finds = { λ request tables live domain slot. IsInstalledWith request.aid (thing_in tables.entries.items slot) };

    fn judge_own(&self, tables: &Tables, _live: &Live, domain: u8) -> Result<u8, Rule> {
        if !may_manage(tables, domain) {
            return Err(Rule::MS(RuleMS::MS1));
        }
        let Some(slot) = find_entry(tables, &self.aid) else {
            return Err(Rule::MS(RuleMS::MS2));
        };
        if !above(&tables.entries, domain, slot) {
            return Err(Rule::MS(RuleMS::MS3));
        }
        let entry = in_slot(&tables.entries, slot).unwrap();
        if !is_just_installed(entry.life) {
            return Err(Rule::MS(RuleMS::MS4));
        }
        if differ(self.privileges, entry.privileges) {
            return Err(Rule::MS(RuleMS::MS5));
        }
        Ok(slot)
    }

    fn approving(&self, tables: &Tables, domain: u8) -> Approving<'_> {
        Approving::of_delegate(tables, domain, self.signed, true)
    }

    ghost judgeable = { selectable_judgeable };

    ghost lawful = { record { first_rules = refl; approval_rules = refl } };

    ghost meant = { λ request command is. record { asks = is.asks; parameters = is.parameters; approval = is.approval } };
}

// The privileges of the bytes, or none where there are no bytes.
fn read_privileges(bytes: &[u8]) -> Option<Option<Privileges>>
    ensures some { IfSome result (λ given. AreGiven given bytes.now) }
    ensures none { IfNone result ((given : Option Privileges) → AreGiven given bytes.now → ⊥) }
{
    if bytes.is_empty() {
        return Some(None);
    }
    let privileges = Privileges::from_bytes(bytes)?;
    Some(Some(privileges))
}

impl<'a> ParsedRequest<'a> for SelectableRequest<'a> {
    ghost form = { managed_selectable.judged };

    ghost stands_for = { IsSelectableRequest };

    fn takes(p1: u8, p2: u8) -> bool
        ensures { IsTrue result ↔ MakeSelectableParameters p1 p2 }
    {
        p1 == 0x08 && p2 == 0x00
    }

    fn read(p1: u8, p2: u8, body: &'a [u8]) -> Option<Self> {
        let fields = read_fields(body)?;
        if !fields.first.is_empty() || !fields.second.is_empty() {
            return None;
        }
        let aid = Aid::new(fields.third)?;
        let privileges = read_privileges(fields.privileges)?;
        Some(SelectableRequest {
            aid,
            privileges,
            signed: Signed::over(p1, p2, fields.before, fields.token),
        })
    }
}
