//! INSTALL [for load] (GlobalPlatform Card Specification 2.3.1, 9.3.1 and 11.5).

ghost use Rattle.std.specs.Prelude.{◌≡◌, ◌↔◌, ◌⊎◌, ℕ, List, [], Some, false, IfNone, IfSome, IsTrue, length, refl};
ghost use Rattle.content_rules.specs.Prelude.{ActsIn, Admitted, FindsDomain, InstallLoadParameters, InstallingLoadFails, IsAid, IsHashLength, IsInOrder, IsLoadInstallOf, IsLoadInstallRequest, IsLoadNamed, LoadData, NamesDomain, aid_of, file_domain_for, judged_install_load, load_install_judgeable};
ghost use Rattle.card_types.specs.declared.found.Found.TheVariants.{Entry};
ghost use Rattle.policy_machine.specs.declared.install_load.RuleIL.TheVariants.{IL4, IL6};

use crate::install_fields::{front, read_five};
use crate::parsed_request::ParsedRequest;
use card_types::{Aid, Privileges, Tables, find, first_free};
use policy_machine::{Rule, RuleIL};
use policy_slots::{
    Approving, JudgedRequest, Live, Signed, find_domain, holds, is_at_or_above, may_manage,
};

/// What an INSTALL [for load] asks for: the AIDs of the Executable Load File and of its security domain, where one is named, the hash
/// of the file, and what approves it.
#[derive(Clone, Copy, Debug)]
pub struct LoadInstallRequest<'a> {
    pub file: Aid,
    pub domain: Option<Aid>,
    pub hash: &'a [u8],
    pub signed: Signed<'a>,
}

// The AID of the security domain, or none where the field is empty and names none.
fn read_domain(field: &[u8]) -> Option<Option<Aid>>
    ensures some { IfSome result (λ named. NamesDomain named field.now) }
    ensures none { IfNone result ((field.now ≡ []) ⊎ IsAid field.now → ⊥) }
{
    if field.is_empty() {
        return Some(None);
    }
    let aid = Aid::new(field)?;
    Some(Some(aid))
}

impl<'a> ParsedRequest<'a> for LoadInstallRequest<'a> {
    ghost form = { judged_install_load };

    ghost stands_for = { IsLoadInstallRequest };

    fn takes(p1: u8, p2: u8) -> bool
        ensures { IsTrue result ↔ InstallLoadParameters p1 p2 }
    {
        p1 == 0x02 && p2 == 0x00
    }

    fn read(p1: u8, p2: u8, body: &'a [u8]) -> Option<Self> {
        let fields = read_five(body)?;
        let file = Aid::new(fields.first)?;
        let domain = read_domain(fields.second)?;
        Some(LoadInstallRequest {
            file,
            domain,
            hash: fields.third,
            signed: Signed::over(p1, p2, front(body, fields.end), fields.token),
        })
    }
}

// The slot of the security domain that is named, or of the one in the slot `domain` where none is named.
fn find_named(tables: &Tables, domain: u8, named: &Option<Aid>) -> Option<u8>
    requires in_order { IsInOrder tables.now }
    ensures some { (page : ℕ → List ℕ) (admitted : Admitted) (given : LoadData) → ActsIn page tables.now domain admitted → NamesDomain named.now given.domain
        → IfSome result (λ slot. aid_of tables.now (Entry slot) ≡ Some (file_domain_for admitted given)) }
    ensures passed { (page : ℕ → List ℕ) (admitted : Admitted) (given : LoadData) → ActsIn page tables.now domain admitted → NamesDomain named.now given.domain
        → IfSome result (λ slot. InstallingLoadFails admitted given IL4 → ⊥) }
    ensures none { (page : ℕ → List ℕ) (admitted : Admitted) (given : LoadData) → ActsIn page tables.now domain admitted → NamesDomain named.now given.domain
        → IfNone result (InstallingLoadFails admitted given IL4) }
{
    match named {
        Some(aid) => find_domain(tables, aid),
        None => Some(domain),
    }
}

// Whether a hash has the length of SHA-1 or SHA-256, or is none.
fn is_hash(hash: &[u8]) -> bool
    ensures { IsTrue result ↔ IsHashLength (length hash.now) }
{
    matches!(hash.len(), 0 | 20 | 32)
}

// Whether a hash is none that a command of the domain in a slot may bring.
fn is_unfit_hash(tables: &Tables, domain: u8, hash: &[u8]) -> bool
    ensures told { (page : ℕ → List ℕ) (admitted : Admitted) (given : LoadData) → ActsIn page tables.now domain admitted → hash.now ≡ given.hash
        → IsTrue result ↔ InstallingLoadFails admitted given IL6 }
    ensures length { (IsTrue result) ⊎ IsHashLength (length hash.now) }
{
    !is_hash(hash)
        || (hash.is_empty() && holds(&tables.entries, domain, Privileges::DELEGATED_MANAGEMENT))
}

impl JudgedRequest for LoadInstallRequest<'_> {
    /// The slot of the security domain of the Executable Load File.
    type Found = u8;

    ghost form = { judged_install_load };

    ghost receipted = { false };

    ghost reads = { IsLoadInstallOf };

    ghost asked = { λ request command is. is.given };

    ghost brought = { λ request. request.signed };

    ghost told = { λ page tables live admitted. IsLoadNamed tables.entries.items live.load admitted.at.volatile.load };

    ghost finds = { λ request tables live. FindsDomain request tables };

    fn judge_own(&self, tables: &Tables, live: &Live, domain: u8) -> Result<u8, Rule> {
        if !may_manage(tables, domain) {
            return Err(Rule::IL(RuleIL::IL1));
        }
        if live.load.is_some() {
            return Err(Rule::IL(RuleIL::IL2));
        }
        if find(tables, &self.file).is_some() {
            return Err(Rule::IL(RuleIL::IL3));
        }
        let Some(to) = find_named(tables, domain, &self.domain) else {
            return Err(Rule::IL(RuleIL::IL4));
        };
        if !is_at_or_above(tables, domain, to) {
            return Err(Rule::IL(RuleIL::IL5));
        }
        if is_unfit_hash(tables, domain, self.hash) {
            return Err(Rule::IL(RuleIL::IL6));
        }
        match first_free(&tables.files) {
            Some(_) => Ok(to),
            None => Err(Rule::IL(RuleIL::IL7)),
        }
    }

    fn approving(&self, tables: &Tables, domain: u8) -> Approving<'_> {
        Approving::of_delegate(tables, domain, self.signed, false)
    }

    ghost judgeable = { load_install_judgeable };

    ghost lawful = { record { first_rules = refl; approval_rules = refl } };

    ghost meant = { λ request command is. record { asks = is.asks; parameters = is.parameters; approval = is.approval } };
}
