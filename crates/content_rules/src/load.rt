//! LOAD (GlobalPlatform Card Specification 2.3.1, 9.3.5 and 11.6). Whether its block is taken is judged where the bytes are kept.

ghost use Rattle.std.specs.Prelude.{◌≡◌, ◌≢◌, ◌↔◌, ◌<◌, ℕ, List, [], None, Some, IfErr, IfOk, IfSome, IsSome, IsTrue, OnOk, slice_index_or};
ghost use Rattle.content_rules.specs.Prelude.{ActsIn, Admitted, FindsConfirmer, FormRefuses, Holds, IsFirst, IsForLast, IsForLoad, IsInOrder, IsLoadOf, IsLoadOn, IsLoadRequest, IsSound, LoadFails, LoadParameters, LoadSession, LoadingFails, MayReceipt, RepresentsState, delegated_management, front_rules, last_rules, loading, named_on, number_rules};
ghost use Rattle.card_types.specs.declared.tables.Tables.{Tables as TheTables};
ghost use Rattle.policy_machine.specs.declared.load.RuleLO.TheVariants.{LO7};

use card_types::{Privileges, Tables};
use policy_machine::{CHANNELS, Rule, RuleLO, RulePS};
use policy_slots::{Live, LoadName, holds, is_at_or_above, judge_management, judge_receipt};

/// What a LOAD brings: whether the block is the last one, its number, and the block itself.
#[derive(Clone, Copy, Debug)]
pub struct LoadRequest<'a> {
    pub last: bool,
    pub number: u8,
    pub block: &'a [u8],
}

/// How many blocks a load session has at most.
const BLOCKS: u16 = 256;

// Whether LOAD takes a P1.
fn takes_p1(p1: u8) -> bool
    ensures { IsTrue result ↔ LoadParameters p1 }
{
    matches!(p1, 0x00 | 0x80)
}

/// Reads P1, P2 and the data field of a LOAD.
pub fn parse_load(p1: u8, p2: u8, body: &[u8]) -> Result<LoadRequest<'_>, Rule>
    ensures form { OnOk result (LoadParameters p1 × (body.now ≢ [])) }
    ensures means { IfOk result (λ request. IsLoadRequest request p1 p2 body.now) }
    ensures refused { IfErr result (FormRefuses loading p1 p2 body.now) }
{
    if !takes_p1(p1) {
        return Err(Rule::PS(RulePS::P));
    }
    if body.is_empty() {
        return Err(Rule::PS(RulePS::S));
    }
    Ok(LoadRequest {
        last: p1 == 0x80,
        number: p2,
        block: body,
    })
}

// The load session of a channel.
fn load_on(live: &Live, channel: u8) -> Option<LoadName>
    ensures { result ≡ named_on channel live.now.load }
{
    match &live.load {
        Some(load) if load.channel == channel => Some(*load),
        _ => None,
    }
}

// The rules on the number of a block: the load session that it is for.
fn judge_number(live: &Live, channel: u8, number: u8) -> Result<LoadName, RuleLO>
    ensures passed { (tables : TheTables) (admitted : Admitted) → IsForLoad tables live.now.load channel admitted → number ≡ admitted.command.p2
        → OnOk result (IsFirst (LoadingFails admitted) number_rules None) }
    ensures refused { (tables : TheTables) (admitted : Admitted) → IsForLoad tables live.now.load channel admitted → number ≡ admitted.command.p2
        → IfErr result (λ rule. IsFirst (LoadingFails admitted) number_rules (Some rule)) }
    ensures name { IfOk result (λ name. (live.now.load ≡ Some name) × (name.channel ≡ channel)) }
    ensures room { IfOk result (λ name. name.next < 256) }
{
    let Some(name) = load_on(live, channel) else {
        return Err(RuleLO::LO1);
    };
    if name.next == BLOCKS {
        return Err(RuleLO::LO1);
    }
    if name.next != u16::from(number) {
        return Err(RuleLO::LO2);
    }
    Ok(name)
}

/// Judges a LOAD on a channel, for the domain in a slot, up to the number of its block: the load session that it is for.
pub fn judge_load(
    tables: &Tables,
    live: &Live,
    channel: u8,
    domain: u8,
    request: &LoadRequest<'_>,
) -> Result<LoadName, Rule>
    ensures passed { (page : ℕ → List ℕ) (admitted : Admitted) → ActsIn page tables.now domain admitted → IsForLoad tables.now live.now.load channel admitted
        → IsLoadOf request.now admitted.command → OnOk result (IsFirst (LoadFails admitted) front_rules None) }
    ensures refused { (page : ℕ → List ℕ) (admitted : Admitted) → ActsIn page tables.now domain admitted → IsForLoad tables.now live.now.load channel admitted
        → IsLoadOf request.now admitted.command → IfErr result (λ rule. IsFirst (LoadFails admitted) front_rules (Some rule)) }
    ensures name { IfOk result (λ name. (live.now.load ≡ Some name) × (name.channel ≡ channel)) }
    ensures room { IfOk result (λ name. name.next < 256) }
{
    judge_management(tables, domain)?;
    match judge_number(live, channel, request.number) {
        Ok(name) => Ok(name),
        Err(rule) => Err(Rule::LO(rule)),
    }
}

// Whether the domain of a load session is neither the one in a slot nor below it.
fn is_foreign(tables: &Tables, domain: u8, name: &LoadName) -> bool
    requires in_order { IsInOrder tables.now }
    ensures { (page : ℕ → List ℕ) (admitted : Admitted) → ActsIn page tables.now domain admitted → IsForLast tables.now name.now admitted
        → IsTrue result ↔ LoadingFails admitted LO7 }
{
    !is_at_or_above(tables, domain, name.domain)
}

/// Judges the last block of a load session for the domain in a slot, once the block itself was judged: the slot of the domain that
/// confirms the command, or none where nobody does.
pub fn judge_loaded_by(tables: &Tables, domain: u8, name: &LoadName) -> Result<Option<u8>, Rule>
    requires in_order { IsInOrder tables.now }
    ensures passed { (page : ℕ → List ℕ) (admitted : Admitted) → ActsIn page tables.now domain admitted → IsForLast tables.now name.now admitted
        → OnOk result (IsFirst (LoadFails admitted) last_rules None) }
    ensures refused { (page : ℕ → List ℕ) (admitted : Admitted) → ActsIn page tables.now domain admitted → IsForLast tables.now name.now admitted
        → IfErr result (λ rule. IsFirst (LoadFails admitted) last_rules (Some rule)) }
    ensures receipter { (page : ℕ → List ℕ) (admitted : Admitted) → ActsIn page tables.now domain admitted
        → IfOk result (FindsConfirmer (Holds admitted delegated_management) tables.now admitted) }
    ensures able { IfOk result (λ found. IfSome found (MayReceipt tables.now)) }
{
    if is_foreign(tables, domain, name) {
        return Err(Rule::LO(RuleLO::LO7));
    }
    if !holds(&tables.entries, domain, Privileges::DELEGATED_MANAGEMENT) {
        return Ok(None);
    }
    match judge_receipt(tables, domain) {
        Ok(found) => Ok(found),
        Err(_) => Err(Rule::LO(RuleLO::LO8)),
    }
}

/// The first rule that fails of those on the last block of a load session alone, or none. The block itself is judged before.
pub fn judge_loaded(tables: &Tables, live: &Live, channel: u8) -> Option<Rule>
    requires in_order { IsInOrder tables.now }
    requires channel { channel < CHANNELS }
    requires opened { IsSome (slice_index_or live.now.selected channel None) }
    ensures judged { (page : ℕ → List ℕ) (admitted : Admitted) (load : LoadSession) → RepresentsState page tables.now live.now admitted.at → IsSound admitted.at
        → channel ≡ admitted.channel → IsLoadOn admitted load → admitted.command.p1 ≡ 0x80 → IsFirst (LoadFails admitted) last_rules result }
    ensures elsewhere { named_on channel live.now.load ≡ None → result ≡ None }
{
    let domain = live.selected[usize::from(channel)].unwrap();
    let Some(name) = load_on(live, channel) else {
        return None;
    };
    judge_loaded_by(tables, domain, &name).err()
}
