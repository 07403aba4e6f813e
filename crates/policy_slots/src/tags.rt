//! Tags of data objects (ISO/IEC 8825-1).

ghost use Rattle.std.specs.Prelude.{◌≡◌, List};
ghost use Rattle.policy_slots.specs.Prelude.{AreElements, Element, has_tag_in};

use bertlv::read;

/// Whether one of the elements has a tag.
pub fn has_tag(elements: &[u8], tag: u16) -> bool
    ensures { (are : List Element) → AreElements are elements.now → result ≡ has_tag_in are tag }
{
    let mut rest = elements;
    while let Ok((element, after)) = read(rest) {
        if element.tag == tag {
            return true;
        }
        rest = after;
    }
    false
}
