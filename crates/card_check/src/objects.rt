//! What is asked of a data object.

ghost use Rattle.std.specs.Prelude.{◌≡◌, ◌↔◌, ℕ, IsTrue, length};
ghost use Rattle.card_check.specs.CardSlots.{HasObject, IsCardObject};
ghost use Rattle.card_types.specs.Represents.{HasSlots};
ghost use Rattle.card_types.specs.declared.limits.TheConstants.{OBJECTS};

use crate::domains::is_domain;
use crate::slots::Asks;
use card_types::{OBJECTS, Object, Tables, in_slot, is_object};

impl Asks<Object> for Tables {
    ghost ready = { HasSlots };

    ghost admits = { IsCardObject };

    fn admits(&self, slot: u8, object: &Object) -> bool {
        is_domain(&self.entries, object.owner)
            && is_object(object.tag, object.value.len())
            && is_only(&self.objects, slot, object)
    }
}

// Whether no other slot has an object of this owner and tag.
fn is_only(objects: &[Option<Object>], slot: u8, object: &Object) -> bool
    requires { length objects.now ≡ OBJECTS }
    ensures { IsTrue result ↔ ((other : ℕ) → HasObject objects.now object.now.owner object.now.tag other → other ≡ slot) }
{
    for other in 0..OBJECTS as u8 {
        if other != slot && has_name_of(objects, other, object) {
            return false;
        }
    }
    true
}

fn has_name_of(objects: &[Option<Object>], slot: u8, object: &Object) -> bool
    ensures { IsTrue result ↔ HasObject objects.now object.now.owner object.now.tag slot }
{
    match in_slot(objects, slot) {
        Some(held) => held.owner == object.owner && held.tag == object.tag,
        None => false,
    }
}
