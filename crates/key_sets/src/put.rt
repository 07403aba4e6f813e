//! Keys are put.

ghost use Rattle.std.specs.Prelude.{◌≡◌, ◌⊎◌, ◌≤◌, [], ◌∷◌, length, MatchResult, OnErr, OnOk};
ghost use Rattle.card_types.specs.Well.{IsKeyLength};
ghost use Rattle.key_rules.specs.PutFails.{HoldsFirst, NoneHolds, PutFails};
ghost use Rattle.key_sets.specs.Puts.{Puts, new_key as new_key_of, set_keys};

use crate::changes::{free, put_key};
use arrayvec::ArrayVec;
use card_types::KeyRec;
use key_rules::{PutRefusal, judge_put};
use rec_store::RecordKeeper;

// A key, with the counter 000000 where it keeps one.
fn new_key(owner: u8, version: u8, identifier: u8, key: &[u8]) -> KeyRec
    requires length { IsKeyLength (length key.now) }
    ensures { result ≡ new_key_of owner version identifier key.now }
{
    let mut bytes = ArrayVec::new();
    bytes.try_extend_from_slice(key).unwrap();
    KeyRec {
        owner,
        version,
        identifier,
        bytes,
        counter: 0,
    }
}

/// Puts a key set as `put_set` does, where nothing refuses it.
pub fn place_set<R: RecordKeeper>(
    keeper: &mut R,
    owner: u8,
    replaced: u8,
    version: u8,
    enc: &[u8],
    mac: &[u8],
    dek: &[u8],
)
    requires roomy { R.roomy keeper.old }
    requires replaced { replaced ≤ 0x6F }
    requires version { (1 ≤ version) × (version ≤ 0x6F) }
    requires lengths { IsKeyLength (length enc.now) × (length mac.now ≡ length enc.now) × (length dek.now ≡ length enc.now) }
    requires judged { NoneHolds (PutFails owner replaced version 3 (R.slots keeper.old)) }
    ensures put { Puts owner replaced (set_keys owner version enc.now mac.now dek.now) (R.slots keeper.old) (R.slots keeper.new) }
    ensures same_else { R.same_else keeper.old keeper.new }
    ensures roomy { R.roomy keeper.new }
{
    free(keeper, owner, replaced);
    put_key(keeper, new_key(owner, version, 1, enc));
    put_key(keeper, new_key(owner, version, 2, mac));
    put_key(keeper, new_key(owner, version, 3, dek));
}

/// Puts a key set of the domain in the slot `owner`, in the place of the keys with the key version number `replaced`, if that is
/// not 00. Its sequence counter is 000000.
pub fn put_set<R: RecordKeeper>(
    keeper: &mut R,
    owner: u8,
    replaced: u8,
    version: u8,
    enc: &[u8],
    mac: &[u8],
    dek: &[u8],
) -> Result<(), PutRefusal>
    requires roomy { R.roomy keeper.old }
    requires replaced { replaced ≤ 0x6F }
    requires version { (1 ≤ version) × (version ≤ 0x6F) }
    requires lengths { IsKeyLength (length enc.now) × (length mac.now ≡ length enc.now) × (length dek.now ≡ length enc.now) }
    ensures put { OnOk result (Puts owner replaced (set_keys owner version enc.now mac.now dek.now) (R.slots keeper.old) (R.slots keeper.new)) }
    ensures exactly { MatchResult result (λ _. NoneHolds (PutFails owner replaced version 3 (R.slots keeper.old))) (HoldsFirst (PutFails owner replaced version 3 (R.slots keeper.old))) }
    ensures unchanged { OnErr result (R.slots keeper.new ≡ R.slots keeper.old) }
    ensures same_else { R.same_else keeper.old keeper.new }
    ensures roomy { R.roomy keeper.new }
{
    judge_put(keeper.keys(), owner, replaced, version, 3)?;
    place_set(keeper, owner, replaced, version, enc, mac, dek);
    Ok(())
}

/// Puts a token key or a receipt key as `put_one` does, where nothing refuses it.
pub fn place_one<R: RecordKeeper>(keeper: &mut R, owner: u8, replaced: u8, version: u8, key: &[u8])
    requires roomy { R.roomy keeper.old }
    requires replaced { (replaced ≡ 0) ⊎ (replaced ≡ 0x70) ⊎ (replaced ≡ 0x71) }
    requires version { (version ≡ 0x70) ⊎ (version ≡ 0x71) }
    requires length { IsKeyLength (length key.now) }
    requires judged { NoneHolds (PutFails owner replaced version 1 (R.slots keeper.old)) }
    ensures put { Puts owner replaced (new_key_of owner version 1 key.now ∷ []) (R.slots keeper.old) (R.slots keeper.new) }
    ensures same_else { R.same_else keeper.old keeper.new }
    ensures roomy { R.roomy keeper.new }
{
    free(keeper, owner, replaced);
    put_key(keeper, new_key(owner, version, 1, key));
}

/// Puts a token key (key version number 70) or a receipt key (71) of the domain in the slot `owner`, in the place of the key
/// with the key version number `replaced`, if that is not 00.
pub fn put_one<R: RecordKeeper>(
    keeper: &mut R,
    owner: u8,
    replaced: u8,
    version: u8,
    key: &[u8],
) -> Result<(), PutRefusal>
    requires roomy { R.roomy keeper.old }
    requires replaced { (replaced ≡ 0) ⊎ (replaced ≡ 0x70) ⊎ (replaced ≡ 0x71) }
    requires version { (version ≡ 0x70) ⊎ (version ≡ 0x71) }
    requires length { IsKeyLength (length key.now) }
    ensures put { OnOk result (Puts owner replaced (new_key_of owner version 1 key.now ∷ []) (R.slots keeper.old) (R.slots keeper.new)) }
    ensures exactly { MatchResult result (λ _. NoneHolds (PutFails owner replaced version 1 (R.slots keeper.old))) (HoldsFirst (PutFails owner replaced version 1 (R.slots keeper.old))) }
    ensures unchanged { OnErr result (R.slots keeper.new ≡ R.slots keeper.old) }
    ensures same_else { R.same_else keeper.old keeper.new }
    ensures roomy { R.roomy keeper.new }
{
    judge_put(keeper.keys(), owner, replaced, version, 1)?;
    place_one(keeper, owner, replaced, version, key);
    Ok(())
}
