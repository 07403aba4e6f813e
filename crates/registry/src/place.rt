//! Where a thing is added (this profile's own).

ghost use Rattle.std.specs.Prelude.{◌≤◌, IfOk, IfErr, OnOk, length};
ghost use Rattle.registry.specs.Prelude.{HasSlots, IsFirstFree, NoneHas, PlaceFails};

use crate::refusal::AddRefusal;
use card_types::{Aid, Tables, find, first_free};

/// The first free one of these slots, where nothing has the AID.
pub fn place<T>(tables: &Tables, slots: &[Option<T>], aid: &Aid) -> Result<u8, AddRefusal>
    requires tables { HasSlots tables.now }
    requires slots { length slots.now ≤ 256 }
    ensures ok { IfOk result (IsFirstFree slots.now) }
    ensures fresh { OnOk result (NoneHas tables.now aid.now) }
    ensures err { IfErr result (PlaceFails tables.now aid.now slots.now) }
{
    if find(tables, aid).is_some() {
        return Err(AddRefusal::Taken);
    }
    match first_free(slots) {
        Some(slot) => Ok(slot),
        None => Err(AddRefusal::Full),
    }
}
