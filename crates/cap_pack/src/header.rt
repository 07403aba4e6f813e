//! The header of a CAP file, and AIDs after their length.

ghost use Rattle.std.specs.Prelude.{◌≡◌, ◌++◌, List, ℕ, IfNone, IfSome};
ghost use Rattle.card_types.specs.Aid.{IsAid};
ghost use Rattle.script_tool.specs.Words.{Reads};
ghost use Rattle.tokens_receipts.specs.Receipt.{with_length};
ghost use Rattle.cap_pack.specs.Cap.{HasHeader, IsHeader};
ghost use Rattle.cap_pack.specs.Components.{AreComponents};
ghost use Rattle.cap_pack.specs.Components as standard;

use crate::component::{HEADER, split};
use card_types::Aid;

/// What a header begins with.
const MAGIC: [u8; 4] = [0xde, 0xca, 0xff, 0xed];

/// The AID after its length at the front, and the bytes after it.
pub fn split_aid(bytes: &[u8]) -> Option<(Aid, &[u8])>
    ensures aid { IfSome result (λ found. IsAid found.0) }
    ensures front { IfSome result (λ found. bytes.now ≡ with_length found.0 ++ found.1.now) }
    ensures none { IfNone result ((aid rest : List ℕ) → IsAid aid → bytes.now ≡ with_length aid ++ rest → ⊥) }
{
    let [len, rest @ ..] = bytes else {
        return None;
    };
    let (aid, rest) = rest.split_at_checked(usize::from(*len))?;
    let aid = Aid::new(aid)?;
    Some((aid, rest))
}

// The AID of the package in the content of a header.
fn package_in(content: &[u8]) -> Option<Aid>
    ensures { Reads (λ file. IsHeader file content.now) result }
{
    let unread = content.strip_prefix(MAGIC.as_slice())?;
    let (_, named) = unread.split_at_checked(5)?;
    match split_aid(named) {
        Some(found) => Some(found.0),
        None => None,
    }
}

/// The AID of the package that the header names, where the first component is a header.
pub fn package(bytes: &[u8]) -> Option<Aid>
    ensures { (components : List standard.Component) → AreComponents components bytes.now → Reads (λ file. HasHeader file components) result }
{
    match split(bytes) {
        Some((first, _)) if first.tag == HEADER => package_in(first.content),
        _ => None,
    }
}
