//! Keys are deleted.

ghost use Rattle.std.specs.Prelude.{◌≡◌};
ghost use Rattle.std.specs.Bool.{OnFalse};
ghost use Rattle.key_rules.specs.PutFails.{has_version as has_version_in};
ghost use Rattle.key_sets.specs.Puts.{Deletes};

use crate::changes::free;
use key_rules::has_version;
use rec_store::RecordKeeper;

/// Deletes all keys with a key version number of the domain in the slot `owner`: `false` where there is none.
pub fn delete<R: RecordKeeper>(keeper: &mut R, owner: u8, version: u8) -> bool
    requires roomy { R.roomy keeper.old }
    ensures found { result ≡ has_version_in owner version (R.slots keeper.old) }
    ensures deletes { Deletes owner version (R.slots keeper.old) (R.slots keeper.new) }
    ensures unchanged { OnFalse result (R.slots keeper.new ≡ R.slots keeper.old) }
    ensures same_else { R.same_else keeper.old keeper.new }
    ensures roomy { R.roomy keeper.new }
{
    if !has_version(keeper.keys(), owner, version) {
        return false;
    }
    free(keeper, owner, version);
    true
}
