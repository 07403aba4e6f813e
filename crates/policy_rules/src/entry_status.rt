//! SET STATUS of an application or a security domain (GlobalPlatform Card Specification 2.3.1, 5.3 and 11.10).

ghost use Rattle.std.specs.Prelude.{◌≡◌, ◌↔◌, ◌⊎◌, ℕ, List, None, Some, false, IfErr, IfNone, IfOk, IfSome, IsTrue, OnOk};
ghost use Rattle.policy_rules.specs.Prelude.{ActsIn, Admitted, EntryStatusParameters, FailsFirst, FormRefuses, Holds, IsAboveIn, IsChangeFor, IsEntryStatusOf, IsEntryStatusRequest, IsInOrder, IsOther, IsSlotStep, MaySet, OwnFirst, PersonalizesItself, SettingStatusFails, acting, aid_of, command_form, global_lock, has, managed_entry_status, security_domain, slot_of};
ghost use Rattle.card_types.specs.declared.found.Found.TheVariants.{Entry as At};
ghost use Rattle.policy_machine.specs.declared.entry_status.RuleSS.TheVariants.{SS1};

use bitflags::Flags;
use card_types::{Aid, Entry, Life, LifeMark, Privileges, Tables, in_slot};
use domain_tree::above;
use policy_machine::{Rule, RulePS, RuleSS};
use policy_slots::{find_domain, find_entry, holds, is_issuer, judge_setting};

/// What a SET STATUS of an entry asks for: whether the entry is set with all below it, the new state's code, and the AID.
#[derive(Clone, Copy, Debug)]
pub struct EntryStatusRequest {
    pub tree: bool,
    pub life: u8,
    pub aid: Aid,
}

/// What a SET STATUS of an entry changes.
#[derive(Clone, Copy, Debug, PartialEq, Eq)]
pub enum StatusChange {
    /// The entry in a slot comes to a life cycle state and lock mark.
    One { entry: u8, life: LifeMark },
    /// The security domain in a slot and each entry below it get a lock mark.
    Tree { domain: u8, locked: bool },
}

/// From this code on it has the lock mark.
const LOCKED: u8 = 0x80;

/// The code of a security domain that is personalized, and not locked.
const PERSONALIZED: u8 = 0x0F;

fn is_domain(entry: &Entry) -> bool
    ensures { result ≡ has security_domain entry.now.privileges }
{
    entry.privileges.contains(Privileges::SECURITY_DOMAIN)
}

// Whether a request asks for one entry to be personalized.
fn is_personalizing(request: &EntryStatusRequest) -> bool
    ensures { IsTrue result ↔ ((request.now.tree ≡ false) × (request.now.life ≡ 0x0F)) }
{
    !request.tree && request.life == PERSONALIZED
}

// The slot of the entry that a request names, which is a security domain where all below it is set too.
fn find_named(tables: &Tables, request: &EntryStatusRequest) -> Option<u8>
    requires in_order { IsInOrder tables.now }
    ensures some { IfSome result (λ slot. aid_of tables.now (At slot) ≡ Some request.now.aid) }
    ensures known { (page : ℕ → List ℕ) (admitted : Admitted) (domain : ℕ) → ActsIn page tables.now domain admitted
        → IsEntryStatusOf request.now admitted.command → IfSome result (λ slot. SettingStatusFails admitted SS1 → ⊥) }
    ensures none { (page : ℕ → List ℕ) (admitted : Admitted) (domain : ℕ) → ActsIn page tables.now domain admitted
        → IsEntryStatusOf request.now admitted.command → IfNone result (SettingStatusFails admitted SS1) }
{
    if request.tree {
        find_domain(tables, &request.aid)
    } else {
        find_entry(tables, &request.aid)
    }
}

// Whether the domain in a slot is above the entry in another one, or may lock any entry.
fn may_lock(tables: &Tables, domain: u8, slot: u8) -> bool
    requires in_order { IsInOrder tables.now }
    ensures { (page : ℕ → List ℕ) (admitted : Admitted) (aid : List ℕ) → ActsIn page tables.now domain admitted → aid_of tables.now (At slot) ≡ Some aid
        → IsTrue result ↔ (IsAboveIn admitted.at.registry (acting admitted) aid ⊎ Holds admitted global_lock) }
{
    above(&tables.entries, domain, slot) || holds(&tables.entries, domain, Privileges::GLOBAL_LOCK)
}

// Whether the domain in a slot asks to be personalized itself.
fn personalizes_itself(tables: &Tables, domain: u8, request: &EntryStatusRequest) -> bool
    ensures { (page : ℕ → List ℕ) (admitted : Admitted) → ActsIn page tables.now domain admitted
        → IsEntryStatusOf request.now admitted.command → IsTrue result ↔ PersonalizesItself admitted }
{
    match in_slot(&tables.entries, domain) {
        Some(entry) => is_personalizing(request) && entry.aid == request.aid,
        None => false,
    }
}

// Whether the domain in a slot may set the entry in another one.
fn may_set(tables: &Tables, domain: u8, slot: u8, request: &EntryStatusRequest) -> bool
    requires in_order { IsInOrder tables.now }
    ensures { (page : ℕ → List ℕ) (admitted : Admitted) → ActsIn page tables.now domain admitted
        → IsEntryStatusOf request.now admitted.command → aid_of tables.now (At slot) ≡ Some request.now.aid → IsTrue result ↔ MaySet admitted }
{
    may_lock(tables, domain, slot) || personalizes_itself(tables, domain, request)
}

// The life cycle state and lock mark that an entry comes to, if its life cycle has such a step.
fn step_of(entry: &Entry, request: &EntryStatusRequest) -> Option<LifeMark>
    ensures some { IfSome result (IsSlotStep request.now entry.now) }
    ensures none { IfNone result ((life : LifeMark) → IsSlotStep request.now entry.now life → ⊥) }
{
    let locked = request.life >= LOCKED;
    if entry.life.locked != locked {
        return Some(LifeMark {
            life: entry.life.life,
            locked,
        });
    }
    if is_personalizing(request) && is_domain(entry) && entry.life.life == Life::Selectable {
        return Some(LifeMark {
            life: Life::Personalized,
            locked: false,
        });
    }
    None
}

// The rules of SET STATUS of an entry itself, for the domain in a slot: what changes.
fn judge_change(
    tables: &Tables,
    domain: u8,
    request: &EntryStatusRequest,
) -> Result<StatusChange, RuleSS>
    requires in_order { IsInOrder tables.now }
    ensures passed { (page : ℕ → List ℕ) (admitted : Admitted) → ActsIn page tables.now domain admitted
        → IsEntryStatusOf request.now admitted.command → OnOk result (OwnFirst managed_entry_status.judged admitted tt None) }
    ensures refused { (page : ℕ → List ℕ) (admitted : Admitted) → ActsIn page tables.now domain admitted
        → IsEntryStatusOf request.now admitted.command → IfErr result (λ rule. OwnFirst managed_entry_status.judged admitted tt (Some rule)) }
    ensures named { IfOk result (λ change. aid_of tables.now (At (slot_of change)) ≡ Some request.now.aid) }
    ensures other { IfOk result (IsOther tables.now.entries.items) }
    ensures change { (page : ℕ → List ℕ) (admitted : Admitted) → ActsIn page tables.now domain admitted
        → IsEntryStatusOf request.now admitted.command → IfOk result (IsChangeFor admitted) }
{
    let Some(slot) = find_named(tables, request) else {
        return Err(RuleSS::SS1);
    };
    if is_issuer(&request.aid) {
        return Err(RuleSS::SS2);
    }
    if !may_set(tables, domain, slot, request) {
        return Err(RuleSS::SS3);
    }
    let entry = in_slot(&tables.entries, slot).unwrap();
    let Some(life) = step_of(entry, request) else {
        return Err(RuleSS::SS4);
    };
    Ok(if request.tree {
        StatusChange::Tree {
            domain: slot,
            locked: life.locked,
        }
    } else {
        StatusChange::One { entry: slot, life }
    })
}

/// Judges a SET STATUS of an entry for the domain in a slot: what changes.
pub fn judge_entry_status(
    tables: &Tables,
    domain: u8,
    request: &EntryStatusRequest,
) -> Result<StatusChange, Rule>
    requires in_order { IsInOrder tables.now }
    ensures passed { (page : ℕ → List ℕ) (admitted : Admitted) → ActsIn page tables.now domain admitted
        → IsEntryStatusOf request.now admitted.command → OnOk result (FailsFirst (command_form managed_entry_status) admitted None) }
    ensures refused { (page : ℕ → List ℕ) (admitted : Admitted) → ActsIn page tables.now domain admitted
        → IsEntryStatusOf request.now admitted.command → IfErr result (λ rule. FailsFirst (command_form managed_entry_status) admitted (Some rule)) }
    ensures named { IfOk result (λ change. aid_of tables.now (At (slot_of change)) ≡ Some request.now.aid) }
    ensures other { IfOk result (IsOther tables.now.entries.items) }
    ensures change { (page : ℕ → List ℕ) (admitted : Admitted) → ActsIn page tables.now domain admitted
        → IsEntryStatusOf request.now admitted.command → IfOk result (IsChangeFor admitted) }
{
    judge_setting(tables, domain, false)?;
    match judge_change(tables, domain, request) {
        Ok(change) => Ok(change),
        Err(rule) => Err(Rule::SS(rule)),
    }
}

/// Reads P1, P2 and the data field of a SET STATUS of an entry.
pub(crate) fn parse_entry_status(p1: u8, p2: u8, body: &[u8]) -> Result<EntryStatusRequest, Rule>
    ensures form { IfOk result (λ request. EntryStatusParameters p1 p2) }
    ensures means { IfOk result (λ request. IsEntryStatusRequest request p1 p2 body.now) }
    ensures refused { IfErr result (FormRefuses (command_form managed_entry_status) p1 p2 body.now) }
{
    if p1 != 0x40 && p1 != 0x60 {
        return Err(Rule::PS(RulePS::P));
    }
    match Aid::new(body) {
        Some(aid) => Ok(EntryStatusRequest {
            tree: p1 == 0x60,
            life: p2,
            aid,
        }),
        None => Err(Rule::PS(RulePS::S)),
    }
}
