//! Lists of applets.

ghost use Rattle.std.specs.Prelude.{◌≡◌, ◌<◌, ◌++◌, ℕ, List, IfNone, IfSome, length, slice_get};
ghost use Rattle.card_types.specs.Aid.{IsAid};
ghost use Rattle.tokens_receipts.specs.Receipt.{with_length};
ghost use Rattle.cap_pack.specs.Cap.{AreApplets, ListsApplets, ListsCounted};

use crate::header::split_aid;
use card_types::Aid;

/// A list of applets: how many there are, and the bytes of the list.
#[derive(Clone, Copy)]
pub struct AppletList<'a> {
    pub count: u8,
    pub bytes: &'a [u8],
}

// The AID of the first applet, and the bytes after the applet.
fn split_applet(bytes: &[u8]) -> Option<(Aid, &[u8])>
    ensures applet { IfSome result (λ found. (unread : List ℕ) × IsAid found.0 × (length unread ≡ 2) × (bytes.now ≡ with_length found.0 ++ unread ++ found.1.now)) }
    ensures none { IfNone result ((aid unread rest : List ℕ) → IsAid aid → length unread ≡ 2 → bytes.now ≡ with_length aid ++ unread ++ rest → ⊥) }
{
    let Some((aid, rest)) = split_aid(bytes) else {
        return None;
    };
    let (_, next) = rest.split_at_checked(2)?;
    Some((aid, next))
}

// The bytes after so many applets.
fn skip(bytes: &[u8], count: usize) -> Option<&[u8]>
    ensures applets { IfSome result (λ rest. (aids : List (List ℕ)) × (length aids ≡ count) × AreApplets aids rest.now bytes.now) }
    ensures none { IfNone result ((aids : List (List ℕ)) → length aids ≡ count → ListsApplets aids bytes.now → ⊥) }
{
    let mut rest = bytes;
    for _ in 0..count {
        let Some((_, next)) = split_applet(rest) else {
            return None;
        };
        rest = next;
    }
    Some(rest)
}

/// The list of applets in the content of an applet component.
pub fn read(content: &[u8]) -> Option<AppletList<'_>>
    ensures list { IfSome result (λ list. (aids : List (List ℕ)) × ListsCounted aids content.now × (list.count ≡ length aids) × ListsApplets aids list.bytes.now) }
    ensures none { IfNone result ((aids : List (List ℕ)) → ListsCounted aids content.now → ⊥) }
{
    let [count, bytes @ ..] = content else {
        return None;
    };
    skip(bytes, usize::from(*count))?;
    Some(AppletList {
        count: *count,
        bytes,
    })
}

/// The AID of the applet with this index.
pub fn applet(bytes: &[u8], index: usize) -> Option<Aid>
    ensures aid { IfSome result IsAid }
    ensures named { (aids : List (List ℕ)) → ListsApplets aids bytes.now → index < length aids → result ≡ slice_get aids index }
{
    let rest = skip(bytes, index)?;
    match split_applet(rest) {
        Some(found) => Some(found.0),
        None => None,
    }
}
