//! Delegated management (GlobalPlatform Card Specification 2.3.1, 9.2 to 9.4): tokens that approve a command, and the domain that
//! confirms it.

ghost use Rattle.std.specs.Prelude.{◌≡◌, ◌↔◌, ◌≤◌, ℕ, List, None, Some, false, IfErr, IfNone, IfOk, IfSome, IsSome, IsTrue, OnOk, length};
ghost use Rattle.std.specs.List.{list_any};
ghost use Rattle.policy_slots.specs.Prelude.{ActsIn, Admitted, FindsReceipter, ForActing, HasKey, Holds, IsFirst, IsInOrder, IsKeyLength, IsNearestHolder, IsSignedFor, MayManage, MayReceipt, NoHolder, ReceiptFails, TokenFails, acting, approval_of, bits_of, delegated_management, domain_aid, entry_has, has_with_key_in, key_of, thing_in, token, token_rules};
ghost use Rattle.policy_slots.specs.HoldersFound.{holds_lone_key as holds_lone_key_by};
ghost use Rattle.policy_machine.specs.declared.delegation.RuleRC.TheVariants.{RC1};

use aes_block::{BlockKey, SealingAes128, SealingAes192, SealingAes256};
use bitflags::Flags;
use card_types::{Entry, KeyRec, Privileges, RECEIPT_LIMIT, Tables, find_key, in_slot};
use domain_tree::{Wanted, first_above};
use policy_machine::{RuleRC, RuleTK};
use tokens_receipts::token_fits;

/// The key version number of a token key.
pub const TOKEN_KEY: u8 = 0x70;

/// The key version number of a receipt key.
const RECEIPT_KEY: u8 = 0x71;

/// What a command brings for its approval: P1, P2, the bytes of the data field before the token, and the token.
#[derive(Clone, Copy, Debug)]
pub struct Signed<'a> {
    pub p1: u8,
    pub p2: u8,
    pub before: &'a [u8],
    pub token: &'a [u8],
}

impl<'a> Signed<'a> {
    pub fn over(p1: u8, p2: u8, before: &'a [u8], token: &'a [u8]) -> Signed<'a>
        ensures parameters { (result.p1 ≡ p1) × (result.p2 ≡ p2) }
        ensures approval { approval_of result ≡ record { before = before.now; token = token.now } }
        ensures short { length result.before.now ≤ length before.now }
    {
        Signed {
            p1,
            p2,
            before,
            token,
        }
    }
}

// The entries that hold a privilege, and a key of their own with a key version number and key identifier 01.
#[derive(Drop)]
struct Holders<'a> {
    tables: &'a Tables,
    privilege: Privileges,
    version: u8,
}

impl Wanted for Holders<'_> {
    ghost fits = { λ holders. has_with_key_in holders.tables.now holders.privilege holders.version };

    fn fits(&self, slot: u8) -> bool {
        holds(&self.tables.entries, slot, self.privilege)
            && has_lone_key(&self.tables.keys, slot, self.version)
    }
}

/// Whether the entry in a slot holds a privilege.
pub fn holds(entries: &[Option<Entry>], slot: u8, privilege: Privileges) -> bool
    ensures { result ≡ entry_has privilege (thing_in entries.now slot) }
{
    match in_slot(entries, slot) {
        Some(entry) => entry.privileges.contains(privilege),
        None => false,
    }
}

/// Whether the domain in a slot manages content, in its own right or as it is delegated to.
pub fn may_manage(tables: &Tables, domain: u8) -> bool
    ensures { ForActing tables.now domain (λ page admitted. IsTrue result ↔ MayManage admitted) }
{
    holds(&tables.entries, domain, Privileges::AUTHORIZED_MANAGEMENT)
        || holds(&tables.entries, domain, Privileges::DELEGATED_MANAGEMENT)
}

/// Whether the domain in a slot manages content as it is delegated to.
pub fn is_delegate(tables: &Tables, domain: u8) -> bool
    ensures { ForActing tables.now domain (λ page admitted. IsTrue result ↔ Holds admitted delegated_management) }
{
    holds(&tables.entries, domain, Privileges::DELEGATED_MANAGEMENT)
}

fn has_lone_key(keys: &[Option<KeyRec>], owner: u8, version: u8) -> bool
    ensures { result ≡ list_any (holds_lone_key_by owner version) keys.now }
{
    keys.iter().any(|held| holds_lone_key(held, owner, version))
}

fn holds_lone_key(held: &Option<KeyRec>, owner: u8, version: u8) -> bool
    ensures { result ≡ holds_lone_key_by owner version held.now }
{
    match held {
        Some(key) => key.owner == owner && key.version == version && key.identifier == 1,
        None => false,
    }
}

/// The slot of the nearest domain above the one in a slot that holds a privilege, and a key of its own with a key version number and
/// key identifier 01, and the key.
pub fn nearest_with_key(
    tables: &Tables,
    domain: u8,
    privilege: Privileges,
    version: u8,
) -> Option<(u8, &KeyRec)>
    requires in_order { IsInOrder tables.now }
    ensures some { ForActing tables.now domain (λ page admitted. IfSome result (λ found.
        IsNearestHolder admitted.at.registry (bits_of privilege) version (acting admitted)
        (domain_aid tables.now.entries.items found.0) (key_of tables.now.entries.items found.1.now))) }
    ensures none { ForActing tables.now domain (λ page admitted. IfNone result (NoHolder admitted.at.registry (bits_of privilege) version (acting admitted))) }
    ensures used { IfSome result (λ found. IsSome (thing_in tables.now.entries.items found.0)) }
    ensures key { IfSome result (λ found. (place : ℕ) × HasKey tables.now.keys.items found.0 version 1 place) }
    ensures length { IfSome result (λ found. IsKeyLength (length found.1.now.bytes.items)) }
{
    let holders = Holders {
        tables,
        privilege,
        version,
    };
    let slot = first_above(&tables.entries, domain, &holders)?;
    let found = find_key(&tables.keys, slot, version, 1).unwrap();
    Some((slot, found.thing))
}

fn is_token_under<K: BlockKey>(key: &[u8], signed: &Signed<'_>) -> bool
    requires length { length key.now ≡ K.LEN }
    requires short { length signed.now.before.now ≤ 255 }
    ensures { IsTrue result ↔ (signed.now.token.now ≡ token key.now signed.now.p1 signed.now.p2 signed.now.before.now) }
{
    let key = K::from_key(key);
    token_fits(&key, signed.p1, signed.p2, signed.before, signed.token)
}

// Whether it is the token of the command under a key, of whichever length.
fn is_token(key: &KeyRec, signed: &Signed<'_>) -> bool
    requires length { IsKeyLength (length key.now.bytes.items) }
    requires short { length signed.now.before.now ≤ 255 }
    ensures { IsTrue result ↔ (signed.now.token.now ≡ token key.now.bytes.items signed.now.p1 signed.now.p2 signed.now.before.now) }
{
    match key.bytes.len() {
        16 => is_token_under::<SealingAes128>(&key.bytes, signed),
        24 => is_token_under::<SealingAes192>(&key.bytes, signed),
        _ => is_token_under::<SealingAes256>(&key.bytes, signed),
    }
}

/// Judges the token of a delegated command of the domain in a slot.
pub fn judge_token(tables: &Tables, domain: u8, signed: &Signed<'_>) -> Result<(), RuleTK>
    requires in_order { IsInOrder tables.now }
    requires short { length signed.now.before.now ≤ 255 }
    ensures passed { (page : ℕ → List ℕ) (admitted : Admitted) → ActsIn page tables.now domain admitted → IsSignedFor admitted signed.now
        → OnOk result (IsFirst (TokenFails admitted (approval_of signed.now)) token_rules None) }
    ensures refused { (page : ℕ → List ℕ) (admitted : Admitted) → ActsIn page tables.now domain admitted → IsSignedFor admitted signed.now
        → IfErr result (λ rule. IsFirst (TokenFails admitted (approval_of signed.now)) token_rules (Some rule)) }
{
    if signed.token.len() != 16 {
        return Err(RuleTK::TK1);
    }
    let Some((_, key)) = nearest_with_key(tables, domain, Privileges::TOKEN_VERIFICATION, TOKEN_KEY)
    else {
        return Err(RuleTK::TK2);
    };
    if !is_token(key, signed) {
        return Err(RuleTK::TK3);
    }
    Ok(())
}

/// The slot of the domain that confirms a delegated command of the domain in a slot, unless there is none.
pub fn judge_receipt(tables: &Tables, domain: u8) -> Result<Option<u8>, RuleRC>
    requires in_order { IsInOrder tables.now }
    ensures found { (page : ℕ → List ℕ) (admitted : Admitted) → ActsIn page tables.now domain admitted → IfOk result (FindsReceipter tables.now admitted) }
    ensures refused { (page : ℕ → List ℕ) (admitted : Admitted) → ActsIn page tables.now domain admitted → IfErr result (ReceiptFails admitted) }
    ensures able { IfOk result (λ found. IfSome found (MayReceipt tables.now)) }
{
    let Some((slot, _)) = nearest_with_key(
        tables,
        domain,
        Privileges::RECEIPT_GENERATION,
        RECEIPT_KEY,
    ) else {
        return Ok(None);
    };
    let entry = in_slot(&tables.entries, slot).unwrap();
    if entry.receipts == RECEIPT_LIMIT {
        return Err(RuleRC::RC1);
    }
    Ok(Some(slot))
}
