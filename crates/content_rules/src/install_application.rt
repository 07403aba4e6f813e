//! INSTALL [for install] (GlobalPlatform Card Specification 2.3.1, 9.3.2 and 11.5).

ghost use Rattle.std.specs.Prelude.{◌≡◌, ◌↔◌, ◌≢◌, ◌⊎◌, ◌&&◌, ℕ, List, None, Some, IfNone, IfSome, IsTrue, refl, true};
ghost use Rattle.std.specs.List.{list_any};
ghost use Rattle.content_rules.specs.Prelude.{ActsIn, Admitted, AreElements, AreInstallParameters, Element, Entry, FindsSource, InstallParameters, IsInOrder, IsInstallOf, IsInstallRequest, IsLoadNamed, IsOutOfCharge, IsTakenAid, MayBeMade, Registry, Represents, Well, aid_of, authorized_management, delegated_management, exceeds_by, file_named, has, install_judgeable, is_loaded_as, managed_install, same_aid, thing_in};
ghost use Rattle.card_types.specs.Well.{has_domain_privilege as has_domain_privilege_by};
ghost use Rattle.card_types.specs.declared.factory.TheConstants.{FACTORY_FILE, FACTORY_MODULE};
ghost use Rattle.card_types.specs.declared.found.Found.{Found as Thing};
ghost use Rattle.card_types.specs.declared.found.Found.TheVariants.{File};

use crate::install_fields::read_fields;
use crate::parsed_request::ParsedRequest;
use bertlv::read;
use bitflags::Flags;
use card_types::{
    Aid, Entry as Slot, FACTORY_FILE, FACTORY_MODULE, Found, Privileges, Tables, find, first_free,
    in_slot,
};
use domain_tree::above;
use policy_machine::{Rule, RuleII};
use policy_slots::{
    Approving, JudgedRequest, Live, Signed, has_tag, holds, is_in_charge, may_manage,
};

/// What an INSTALL [for install] asks for: the AIDs of the Executable Load File, of its Module and of the application, the
/// privileges, whether it is made selectable too, and what approves it.
#[derive(Clone, Copy, Debug)]
pub struct InstallRequest<'a> {
    pub selectable: bool,
    pub file: Aid,
    pub module: Aid,
    pub aid: Aid,
    pub privileges: Privileges,
    pub signed: Signed<'a>,
}

/// The tag of the parameters of the application.
const APPLICATION_PARAMETERS: u16 = 0xC9;

// Whether the bytes are data objects, none or more.
fn are_elements(bytes: &[u8]) -> bool
    ensures { IsTrue result ↔ ((elements : List Element) × AreElements elements bytes.now) }
{
    let mut rest = bytes;
    while !rest.is_empty() {
        let Ok((_, after)) = read(rest) else {
            return false;
        };
        rest = after;
    }
    true
}

// Whether the bytes are install parameters.
fn are_parameters(bytes: &[u8]) -> bool
    ensures { IsTrue result ↔ AreInstallParameters bytes.now }
{
    are_elements(bytes) && has_tag(bytes, APPLICATION_PARAMETERS)
}

impl<'a> ParsedRequest<'a> for InstallRequest<'a> {
    ghost form = { managed_install.judged };

    ghost stands_for = { IsInstallRequest };

    fn takes(p1: u8, p2: u8) -> bool
        ensures { IsTrue result ↔ InstallParameters p1 p2 }
    {
        matches!(p1, 0x04 | 0x0C) && p2 == 0x00
    }

    fn read(p1: u8, p2: u8, body: &'a [u8]) -> Option<Self> {
        let fields = read_fields(body)?;
        let file = Aid::new(fields.first)?;
        let module = Aid::new(fields.second)?;
        let aid = Aid::new(fields.third)?;
        let privileges = Privileges::from_bytes(fields.privileges)?;
        if !are_parameters(fields.parameters) {
            return None;
        }
        Some(InstallRequest {
            selectable: p1 == 0x0C,
            file,
            module,
            aid,
            privileges,
            signed: Signed::over(p1, p2, fields.before, fields.token),
        })
    }
}

/// The privileges that are granted to nobody: DAP Verification, Mandated DAP, Final Application and Ciphered Load File Data Block.
const REFUSED: u32 = 0x41_02_40;

/// The privileges that only a holder grants.
const GUARDED: [Privileges; 8] = [
    Privileges::AUTHORIZED_MANAGEMENT,
    Privileges::TOKEN_VERIFICATION,
    Privileges::RECEIPT_GENERATION,
    Privileges::GLOBAL_DELETE,
    Privileges::GLOBAL_LOCK,
    Privileges::GLOBAL_REGISTRY,
    Privileges::CARD_LOCK,
    Privileges::CARD_TERMINATE,
];

pub(crate) fn is_factory_file(aid: &Aid) -> bool
    ensures { result ≡ same_aid aid.now FACTORY_FILE }
{
    aid.as_bytes() == FACTORY_FILE.as_slice()
}

fn is_factory_module(aid: &Aid) -> bool
    ensures { result ≡ same_aid aid.now FACTORY_MODULE }
{
    aid.as_bytes() == FACTORY_MODULE.as_slice()
}

// The slot of the Executable Load File with an AID.
fn find_file(tables: &Tables, aid: &Aid) -> Option<u8>
    requires in_order { IsInOrder tables.now }
    ensures some { IfSome result (λ slot. aid_of tables.now (File slot) ≡ Some aid.now) }
    ensures none { (page : ℕ → List ℕ) (said : Registry) → Represents page tables.now said → Well said → IfNone result (file_named said aid.now ≡ None) }
{
    match find(tables, aid) {
        Some(Found::File(slot)) => Some(slot),
        Some(Found::Entry(_)) => None,
        None => None,
    }
}

// Whether the factory's Executable Load File is asked for, and another Module than it has.
fn lacks_module(request: &InstallRequest<'_>) -> bool
    ensures { IsTrue result ↔ ((request.now.file ≡ FACTORY_FILE) × (request.now.«module» ≢ FACTORY_MODULE)) }
{
    is_factory_file(&request.file) && !is_factory_module(&request.module)
}

// Whether the Executable Load File with an AID, in a slot, is neither the factory's nor in the charge of the domain in another.
fn is_out_of_charge(tables: &Tables, domain: u8, aid: &Aid, slot: u8) -> bool
    requires in_order { IsInOrder tables.now }
    requires there { aid_of tables.now (File slot) ≡ Some aid.now }
    ensures { (page : ℕ → List ℕ) (admitted : Admitted) → ActsIn page tables.now domain admitted → IsTrue result ↔ IsOutOfCharge admitted aid.now }
{
    !is_factory_file(aid) && !is_in_charge(tables, domain, slot)
}

// Whether the load session is for this AID.
fn is_loading(live: &Live, aid: &Aid) -> bool
    ensures { result ≡ is_loaded_as aid.now live.now.load }
{
    match &live.load {
        Some(load) => load.aid == *aid,
        None => false,
    }
}

// Whether the AID is taken, or will be once the load session ends.
fn is_taken(tables: &Tables, live: &Live, aid: &Aid) -> bool
    requires in_order { IsInOrder tables.now }
    ensures taken { (page : ℕ → List ℕ) (admitted : Admitted) → Represents page tables.now admitted.at.registry
        → IsLoadNamed tables.now.entries.items live.now.load admitted.at.volatile.load → IsTrue result ↔ IsTakenAid admitted aid.now }
    ensures free { (IsTrue result) ⊎ ((thing : Thing) → aid_of tables.now thing ≢ Some aid.now) }
{
    find(tables, aid).is_some() || is_loading(live, aid)
}

fn has_domain_privilege(privileges: Privileges) -> bool
    ensures { (entry : Entry) → entry.privileges ≡ privileges → result ≡ has_domain_privilege_by entry }
{
    privileges.contains(Privileges::AUTHORIZED_MANAGEMENT)
        || privileges.contains(Privileges::DELEGATED_MANAGEMENT)
        || privileges.contains(Privileges::TOKEN_VERIFICATION)
        || privileges.contains(Privileges::RECEIPT_GENERATION)
}

fn has_both_managements(privileges: Privileges) -> bool
    ensures { (entry : Entry) → entry.privileges ≡ privileges
        → result ≡ (has authorized_management entry.privileges && has delegated_management entry.privileges) }
{
    privileges.contains(Privileges::AUTHORIZED_MANAGEMENT)
        && privileges.contains(Privileges::DELEGATED_MANAGEMENT)
}

// Whether privileges go together, and with the Executable Load File.
fn may_be_made(file: &Aid, privileges: Privileges) -> bool
    ensures { (entry : Entry) → entry.file ≡ file.now → entry.privileges ≡ privileges → IsTrue result ↔ MayBeMade entry }
{
    let domain = privileges.contains(Privileges::SECURITY_DOMAIN);
    domain == is_factory_file(file)
        && (domain || !has_domain_privilege(privileges))
        && !has_both_managements(privileges)
        && !privileges.intersects(Privileges::from_bits_retain(REFUSED))
}

fn exceeds(
    entries: &[Option<Slot>],
    domain: u8,
    privileges: Privileges,
    privilege: Privileges,
) -> bool
    ensures { result ≡ exceeds_by privileges (thing_in entries.now domain) privilege }
{
    privileges.contains(privilege) && !holds(entries, domain, privilege)
}

// Whether a guarded one of the privileges is none of the domain in a slot.
fn exceeds_domain(entries: &[Option<Slot>], domain: u8, privileges: Privileges) -> bool
    ensures { result ≡ list_any (exceeds_by privileges (thing_in entries.now domain)) GUARDED }
{
    GUARDED.iter().any(|privilege| exceeds(entries, domain, privileges, *privilege))
}

impl JudgedRequest for InstallRequest<'_> {
    /// The slot of the Executable Load File.
    type Found = u8;

    ghost form = { managed_install.judged };

    ghost receipted = { true };

    ghost reads = { IsInstallOf };

    ghost asked = { λ request command is. is.asked };

    ghost brought = { λ request. request.signed };

    ghost told = { λ page tables live admitted. IsLoadNamed tables.entries.items live.load admitted.at.volatile.load };

    ghost finds = { λ request tables live domain. FindsSource request tables };

    fn judge_own(&self, tables: &Tables, live: &Live, domain: u8) -> Result<u8, Rule> {
        if !may_manage(tables, domain) {
            return Err(Rule::II(RuleII::II1));
        }
        let Some(file) = find_file(tables, &self.file) else {
            return Err(Rule::II(RuleII::II2));
        };
        if lacks_module(self) {
            return Err(Rule::II(RuleII::II2));
        }
        if is_out_of_charge(tables, domain, &self.file, file) {
            return Err(Rule::II(RuleII::II3));
        }
        if is_taken(tables, live, &self.aid) {
            return Err(Rule::II(RuleII::II4));
        }
        if !may_be_made(&self.file, self.privileges) {
            return Err(Rule::II(RuleII::II5));
        }
        if exceeds_domain(&tables.entries, domain, self.privileges) {
            return Err(Rule::II(RuleII::II6));
        }
        match first_free(&tables.entries) {
            Some(_) => Ok(file),
            None => Err(Rule::II(RuleII::II7)),
        }
    }

    fn approving(&self, tables: &Tables, domain: u8) -> Approving<'_> {
        Approving::of_delegate(tables, domain, self.signed, true)
    }

    ghost judgeable = { install_judgeable };

    ghost lawful = { record { first_rules = refl; approval_rules = refl } };

    ghost meant = { λ request command is. record { asks = is.asks; parameters = is.parameters; approval = is.approval } };
}
