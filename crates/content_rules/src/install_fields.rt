//! The data field of INSTALL (GlobalPlatform Card Specification 2.3.1, 11.5.2.3): six fields, each after its length.

ghost use Rattle.std.specs.Prelude.{◌≡◌, ◌≤◌, ◌++◌, ◌∷◌, [], ℕ, List, IfNone, IfSome, length};
ghost use Rattle.std.specs.List.{flat_map};
ghost use Rattle.content_rules.specs.Prelude.{AreLengthFields, BeginsWithField, InstallData, IsInstallData, first_four, given_of, signed_fields, with_length};

/// The six fields of an INSTALL, and the bytes before the token and its length, which the token signs.
#[derive(Clone, Copy, Debug)]
pub struct InstallFields<'a> {
    pub first: &'a [u8],
    pub second: &'a [u8],
    pub third: &'a [u8],
    pub privileges: &'a [u8],
    pub parameters: &'a [u8],
    pub token: &'a [u8],
    pub before: &'a [u8],
}

/// Five fields, each after its length: the last is the token. `end` are the bytes from the length of the token on.
#[derive(Clone, Copy, Debug)]
pub(crate) struct FiveFields<'a> {
    pub(crate) first: &'a [u8],
    pub(crate) second: &'a [u8],
    pub(crate) third: &'a [u8],
    pub(crate) fourth: &'a [u8],
    pub(crate) token: &'a [u8],
    pub(crate) end: &'a [u8],
}

/// The highest length of a field, in bytes.
const LONGEST: usize = 0x7F;

// The field that the bytes begin with, and the bytes after it.
fn read_field(bytes: &[u8]) -> Option<(&[u8], &[u8])>
    ensures some { IfSome result (λ read. BeginsWithField read.0.now bytes.now read.1.now) }
    ensures none { IfNone result ((field rest : List ℕ) → BeginsWithField field bytes.now rest → ⊥) }
{
    if bytes.is_empty() {
        return None;
    }
    let size = usize::from(bytes[0]);
    let end = 1 + size;
    if size > LONGEST || bytes.len() < end {
        return None;
    }
    Some((&bytes[1..end], &bytes[end..]))
}

// The bytes that stand before others which end them.
pub(crate) fn front<'a>(bytes: &'a [u8], rest: &[u8]) -> &'a [u8]
    requires { length rest.now ≤ length bytes.now }
    ensures before { (all : List ℕ) → bytes.now ≡ all ++ rest.now → result.now ≡ all }
    ensures short { length result.now ≤ length bytes.now }
{
    &bytes[..bytes.len() - rest.len()]
}

// The five fields that bytes are, or none where they are not five.
pub(crate) fn read_five(bytes: &[u8]) -> Option<FiveFields<'_>>
    ensures some { IfSome result (λ fields. AreLengthFields (first_four fields ++ fields.token.now ∷ []) bytes.now) }
    ensures before { IfSome result (λ fields. bytes.now ≡ flat_map with_length (first_four fields) ++ fields.end.now) }
    ensures short { IfSome result (λ fields. length fields.end.now ≤ length bytes.now) }
    ensures none { IfNone result ((fields : List (List ℕ)) → length fields ≡ 5 → AreLengthFields fields bytes.now → ⊥) }
{
    let (first, rest) = read_field(bytes)?;
    let (second, rest) = read_field(rest)?;
    let (third, rest) = read_field(rest)?;
    let (fourth, end) = read_field(rest)?;
    let (token, rest) = read_field(end)?;
    if !rest.is_empty() {
        return None;
    }
    Some(FiveFields {
        first,
        second,
        third,
        fourth,
        token,
        end,
    })
}

/// The fields of the data field of an INSTALL, or none where it is not six such fields.
pub(crate) fn read_fields(body: &[u8]) -> Option<InstallFields<'_>>
    ensures some { IfSome result (λ fields. IsInstallData (given_of fields) body.now) }
    ensures before { IfSome result (λ fields. fields.before.now ≡ flat_map with_length (signed_fields (given_of fields))) }
    ensures short { IfSome result (λ fields. length fields.before.now ≤ length body.now) }
    ensures none { IfNone result ((given : InstallData) → IsInstallData given body.now → ⊥) }
{
    let (first, rest) = read_field(body)?;
    let fields = read_five(rest)?;
    Some(InstallFields {
        first,
        second: fields.first,
        third: fields.second,
        privileges: fields.third,
        parameters: fields.fourth,
        token: fields.token,
        before: front(body, fields.end),
    })
}
