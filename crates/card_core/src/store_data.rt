//! STORE DATA: data objects of a domain are put (GlobalPlatform Card Specification 2.3.1, 11.11).

ghost use Rattle.std.specs.Prelude.{◌≡◌, ◌<◌, ◌≤◌, length, true, false, Some, refl};
ghost use Rattle.card_core.specs.Prelude.{HasFramesFor, IsSlotFor, PutsObject, has_object_in, is_tagged_in, object_pages, object_with, things_in};
ghost use Rattle.card_types.specs.declared.limits.TheConstants.{OBJECTS};
ghost use Rattle.policy_rules.specs.declared.request.Request.TheVariants.{Store};

use crate::managed_request::{Acting, ManagedRequest};
use crate::reply::{Answer, Reply};
use apdu_core::Status;
use arrayvec::ArrayVec;
use bertlv::{Tlv, read};
use card_types::{Object, Wants, first_free, first_that};
use flash_core::Flash;
use policy_rules::judge_store_data;
use rec_store::Records;

// The domain's data object with a tag.
#[derive(Drop)]
pub(crate) struct Tagged {
    pub(crate) owner: u8,
    pub(crate) tag: u16,
}

impl Wants<Object> for Tagged {
    ghost fits = { λ tagged object. is_tagged_in tagged.owner tagged.tag (Some object) };

    fn fits(&self, thing: &Object) -> bool {
        thing.owner == self.owner && thing.tag == self.tag
    }
}

// The slot of the domain's data object with a tag, or else the first free slot.
fn slot_for(objects: &[Option<Object>], owner: u8, tag: u16) -> u8
    requires slots { length objects.now ≡ OBJECTS }
    requires room { has_object_in objects.now owner tag ≡ false → length (things_in objects.now) < OBJECTS }
    ensures { IsSlotFor objects.now owner tag result }
{
    match first_that(objects, &Tagged { owner, tag }) {
        Some(found) => found.slot,
        None => first_free(objects).unwrap(),
    }
}

// A data object of a domain.
fn object_of(owner: u8, element: &Tlv<'_>) -> Object
    requires { length element.now.value.now ≤ 120 }
    ensures { result ≡ object_with owner element.now.tag element.now.value.now }
{
    let mut value = ArrayVec::new();
    value.try_extend_from_slice(element.value).unwrap();
    Object {
        owner,
        tag: element.tag,
        value,
    }
}

// Puts a data object of the domain in a slot, in the place of the one with its tag.
fn put_object<F: Flash>(records: &mut Records<F>, owner: u8, element: &Tlv<'_>)
    requires live { records.old.live ≡ true }
    requires frames { HasFramesFor object_pages records.old.staged }
    requires size { length element.now.value.now ≤ 120 }
    requires room { has_object_in records.old.tables.objects.items owner element.now.tag ≡ false → length (things_in records.old.tables.objects.items) < OBJECTS }
    ensures put { PutsObject records.old.tables records.new.tables owner element.now.tag element.now.value.now }
    ensures frames { HasFramesFor object_pages records.new.staged }
    ensures same { (records.new.flash ≡ records.old.flash) × (records.new.live ≡ true) }
{
    let slot = slot_for(&records.tables().objects, owner, element.tag);
    records.set_object(slot, Some(object_of(owner, element)));
}

/// Data objects, one after the other.
#[derive(Clone, Copy)]
pub struct StoreRequest<'a> {
    pub objects: &'a [u8],
}

impl<F: Flash> ManagedRequest<F> for StoreRequest<'_> {
    ghost request = { λ request. Store request.objects };

    #[inline(never)]
    fn manage(&self, records: &mut Records<F>, acting: &Acting<'_>, _reply: &mut Reply) -> Answer {
        judge_store_data(records.tables(), acting.domain, self.objects)?;
        let mut rest = self.objects;
        while let Ok((element, after)) = read(rest) {
            put_object(records, acting.domain, &element);
            rest = after;
        }
        Ok(Status(0x9000))
    }

    ghost changes = { λ these. refl };
}
