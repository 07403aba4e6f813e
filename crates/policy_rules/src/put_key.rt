//! PUT KEY (GlobalPlatform Card Specification 2.3.1, 11.8; Amendment D, 7.2).

ghost use Rattle.std.specs.Prelude.{◌≡◌, ◌≤◌, ◌↔◌, ◌+◌, ℕ, List, None, Some, IfErr, IfNone, IfSome, IsTrue, OnOk, length};
ghost use Rattle.policy_rules.specs.Prelude.{ActsIn, Admitted, AreFields, BeginsWithKey, FailsFirst, HasKeyFields, IsFirst, IsInOrder, IsKeyLength, IsNewVersion, IsRequestOf, KeysAsked, NoFields, NoneHolds, Parses, PutFails, PutKeyFails, PutKeyParameters, SaysChecks, SentKey, command_form, key_count, key_rules, managed_put_key, sealed_size, sent_key, sent_keys, version_rules};
ghost use Rattle.key_rules.specs.declared.refusal.PutRefusal.TheVariants.{Unknown, Taken, Full};
ghost use Rattle.policy_machine.specs.declared.instruction.TheConstants.{PUT_KEY};
ghost use Rattle.policy_rules.specs.declared.put_key.PutKeys.{PutKeys as Keys};
ghost use Rattle.policy_rules.specs.declared.request.Request.TheVariants.{PutKey};

use crate::request::Request;
use card_types::Tables;
use key_rules::{is_full, is_taken, lacks_replaced};
use policy_machine::{Rule, RulePK, RulePS};
use policy_slots::judge_management;

/// A key as it is sent: its length, its enciphered bytes, and its check value.
#[derive(Clone, Copy, Debug)]
pub struct SealedKey<'a> {
    pub len: u8,
    pub sealed: &'a [u8],
    pub check: &'a [u8],
}

/// The keys of a PUT KEY: a token or receipt key, or Key-ENC, Key-MAC and Key-DEK of a key set.
#[derive(Clone, Copy, Debug)]
pub enum PutKeys<'a> {
    One(SealedKey<'a>),
    Three(SealedKey<'a>, SealedKey<'a>, SealedKey<'a>),
}

impl PutKeys<'_> {
    /// How many keys these are.
    pub fn count(&self) -> usize
        ensures number { result ≡ length (sent_keys self.now) }
        ensures few { result ≤ 3 }
    {
        match self {
            PutKeys::One(_) => 1,
            PutKeys::Three(..) => 3,
        }
    }
}

/// Where the enciphered bytes of a key field begin: after the key type, the length of the key data, and that of the key.
const SEALED: usize = 3;

/// How many bytes a check value has.
const CHECK: usize = 3;

// How many enciphered bytes a key field has that says these lengths of the key data and of the key.
fn sealed_length(key_data: u8, len: u8) -> Option<usize>
    ensures some { IfSome result (λ size. IsKeyLength len × (size ≡ sealed_size len) × (key_data ≡ size + 1)) }
    ensures none { IfNone result (IsKeyLength len → key_data ≡ sealed_size len + 1 → ⊥) }
{
    match (key_data, len) {
        (17, 16) => Some(16),
        (33, 24 | 32) => Some(32),
        _ => None,
    }
}

// The key of the key field that the bytes begin with, and the bytes after it.
fn read_field(bytes: &[u8]) -> Option<(SealedKey<'_>, &[u8])>
    ensures some { IfSome result (λ read. BeginsWithKey (sent_key read.0) bytes.now read.1.now) }
    ensures none { IfNone result ((key : SentKey) (rest : List ℕ) → BeginsWithKey key bytes.now rest → ⊥) }
{
    if bytes.len() < SEALED || bytes[0] != 0x88 {
        return None;
    }
    let len = bytes[2];
    let size = sealed_length(bytes[1], len)?;
    let mark = SEALED + size;
    let end = mark + 1 + CHECK;
    if bytes.len() < end || bytes[mark] != 0x03 {
        return None;
    }
    let key = SealedKey {
        len,
        sealed: &bytes[SEALED..mark],
        check: &bytes[mark + 1..end],
    };
    Some((key, &bytes[end..]))
}

// The key of one key field.
fn read_one(bytes: &[u8]) -> Option<PutKeys<'_>>
    ensures some { IfSome result (λ keys. AreFields 1 bytes.now (sent_keys keys)) }
    ensures none { IfNone result (NoFields 1 bytes.now) }
{
    let (key, rest) = read_field(bytes)?;
    if !rest.is_empty() {
        return None;
    }
    Some(PutKeys::One(key))
}

fn have_one_length(enc: &SealedKey<'_>, mac: &SealedKey<'_>, dek: &SealedKey<'_>) -> bool
    ensures { IsTrue result ↔ ((mac.now.len ≡ enc.now.len) × (dek.now.len ≡ enc.now.len)) }
{
    mac.len == enc.len && dek.len == enc.len
}

// The keys of three key fields, which have one length.
fn read_three(bytes: &[u8]) -> Option<PutKeys<'_>>
    ensures some { IfSome result (λ keys. AreFields 3 bytes.now (sent_keys keys)) }
    ensures none { IfNone result (NoFields 3 bytes.now) }
{
    let (enc, rest) = read_field(bytes)?;
    let (mac, rest) = read_field(rest)?;
    let (dek, rest) = read_field(rest)?;
    if !rest.is_empty() {
        return None;
    }
    if !have_one_length(&enc, &mac, &dek) {
        return None;
    }
    Some(PutKeys::Three(enc, mac, dek))
}

// The keys of as many key fields as P2 says.
fn read_keys(p2: u8, bytes: &[u8]) -> Option<PutKeys<'_>>
    ensures some { IfSome result (λ keys. AreFields (key_count p2) bytes.now (sent_keys keys)) }
    ensures none { IfNone result (NoFields (key_count p2) bytes.now) }
{
    if p2 == 0x81 {
        read_three(bytes)
    } else {
        read_one(bytes)
    }
}

// Whether it is a key version number of the keys that P2 says.
fn is_new_version(p2: u8, version: u8) -> bool
    ensures { IsTrue result ↔ IsNewVersion p2 version }
{
    match p2 {
        0x81 => 0x01 <= version && version <= 0x6F,
        0x01 => version == 0x70 || version == 0x71,
        _ => false,
    }
}

// The new key version number and the keys of the data field.
fn read_body(p2: u8, body: &[u8]) -> Option<(u8, PutKeys<'_>)>
    ensures some { IfSome result (λ read. HasKeyFields p2 body.now read.0 (sent_keys read.1)) }
    ensures none { IfNone result ((asked : KeysAsked) × HasKeyFields p2 body.now asked.version asked.sent → ⊥) }
{
    if body.is_empty() || !is_new_version(p2, body[0]) {
        return None;
    }
    let keys = read_keys(p2, &body[1..])?;
    Some((body[0], keys))
}

fn takes_parameters(p1: u8, p2: u8) -> bool
    ensures { IsTrue result ↔ PutKeyParameters p1 p2 }
{
    match p2 {
        0x81 => p1 <= 0x6F,
        0x01 => p1 == 0x00 || p1 == 0x70 || p1 == 0x71,
        _ => false,
    }
}

/// Reads P1, P2 and the data field: the key version number that is replaced, how many keys come, the new key version number, and
/// the keys.
pub(crate) fn parse_put_key(p1: u8, p2: u8, body: &[u8]) -> Result<Request<'_>, Rule>
    ensures { Parses PUT_KEY p1 p2 body.now result }
{
    if !takes_parameters(p1, p2) {
        return Err(Rule::PS(RulePS::P));
    }
    match read_body(p2, body) {
        Some((version, keys)) => Ok(Request::PutKey {
            replaced: p1,
            version,
            keys,
        }),
        None => Err(Rule::PS(RulePS::S)),
    }
}

/// Judges what a PUT KEY asks for, for the domain in a slot: the rules that need none of its keys, which come first.
pub fn judge_put_versions(
    tables: &Tables,
    domain: u8,
    replaced: u8,
    version: u8,
) -> Result<(), Rule>
    ensures passed { (page : ℕ → List ℕ) (admitted : Admitted) (keys : Keys) → ActsIn page tables.now domain admitted
        → IsRequestOf (PutKey replaced version keys) admitted.command → OnOk result (IsFirst (PutKeyFails admitted) version_rules None) }
    ensures refused { (page : ℕ → List ℕ) (admitted : Admitted) (keys : Keys) → ActsIn page tables.now domain admitted
        → IsRequestOf (PutKey replaced version keys) admitted.command → IfErr result (λ rule. IsFirst (PutKeyFails admitted) version_rules (Some rule)) }
    ensures known { (added : ℕ) → OnOk result (PutFails domain replaced version added tables.now.keys.items Unknown → ⊥) }
    ensures free { (added : ℕ) → OnOk result (PutFails domain replaced version added tables.now.keys.items Taken → ⊥) }
{
    judge_management(tables, domain)?;
    if lacks_replaced(&tables.keys, domain, replaced) {
        return Err(Rule::PK(RulePK::PK1));
    }
    if is_taken(&tables.keys, domain, replaced, version) {
        return Err(Rule::PK(RulePK::PK2));
    }
    Ok(())
}

/// Judges the keys of a PUT KEY, for the domain in a slot: the rules after those of `judge_put_versions`. Whether the check
/// values fit is told by the caller, who has the Key-DEK.
pub fn judge_put_keys(
    tables: &Tables,
    domain: u8,
    replaced: u8,
    keys: &PutKeys<'_>,
    checks_fit: bool,
) -> Result<(), Rule>
    requires in_order { IsInOrder tables.now }
    ensures passed { (page : ℕ → List ℕ) (admitted : Admitted) (version : ℕ) → ActsIn page tables.now domain admitted
        → IsRequestOf (PutKey replaced version keys.now) admitted.command → SaysChecks checks_fit admitted
        → OnOk result (IsFirst (PutKeyFails admitted) key_rules None) }
    ensures refused { (page : ℕ → List ℕ) (admitted : Admitted) (version : ℕ) → ActsIn page tables.now domain admitted
        → IsRequestOf (PutKey replaced version keys.now) admitted.command → SaysChecks checks_fit admitted
        → IfErr result (λ rule. IsFirst (PutKeyFails admitted) key_rules (Some rule)) }
    ensures roomy { (version : ℕ) → OnOk result (PutFails domain replaced version (length (sent_keys keys.now)) tables.now.keys.items Full → ⊥) }
{
    if !checks_fit {
        return Err(Rule::PK(RulePK::PK3));
    }
    if is_full(&tables.keys, domain, replaced, keys.count()) {
        return Err(Rule::PK(RulePK::PK4));
    }
    Ok(())
}

/// Judges a PUT KEY for the domain in a slot. Whether the check values fit is told by the caller, who has the Key-DEK.
pub fn judge_put_key(
    tables: &Tables,
    domain: u8,
    replaced: u8,
    version: u8,
    keys: &PutKeys<'_>,
    checks_fit: bool,
) -> Result<(), Rule>
    requires in_order { IsInOrder tables.now }
    ensures passed { (page : ℕ → List ℕ) (admitted : Admitted) → ActsIn page tables.now domain admitted
        → IsRequestOf (PutKey replaced version keys.now) admitted.command → SaysChecks checks_fit admitted
        → OnOk result (FailsFirst (command_form managed_put_key) admitted None) }
    ensures refused { (page : ℕ → List ℕ) (admitted : Admitted) → ActsIn page tables.now domain admitted
        → IsRequestOf (PutKey replaced version keys.now) admitted.command → SaysChecks checks_fit admitted
        → IfErr result (λ rule. FailsFirst (command_form managed_put_key) admitted (Some rule)) }
    ensures roomy { OnOk result (NoneHolds (PutFails domain replaced version (length (sent_keys keys.now)) tables.now.keys.items)) }
{
    judge_put_versions(tables, domain, replaced, version)?;
    judge_put_keys(tables, domain, replaced, keys, checks_fit)
}
