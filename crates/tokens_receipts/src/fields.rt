//! Fields after their length, and what data fields of commands are built of.

ghost use Rattle.std.specs.Prelude.{◌≡◌, ◌+◌, ◌++◌, ◌≤◌, [], ◌∷◌, length};
ghost use Rattle.std.specs.List.{flat_map};
ghost use Rattle.std.specs.Option.{option_copied};
ghost use Rattle.tokens_receipts.specs.Receipt.{some_aid, with_length};
ghost use Rattle.tokens_receipts.specs.Token.{object_named_by};

use arrayvec::ArrayVec;
use card_types::Aid;

/// The data field of a command.
pub type DataField = ArrayVec<u8, 255>;

/// Adds a field after its length in one byte.
pub fn push_field<const N: usize>(field: &[u8], bytes: &mut ArrayVec<u8, N>)
    requires short { length field.now ≤ 255 }
    requires room { length bytes.old.items + 1 + length field.now ≤ N }
    ensures added { bytes.new.items ≡ bytes.old.items ++ with_length field.now }
    ensures length { length bytes.new.items ≡ length bytes.old.items + 1 + length field.now }
{
    bytes.push(field.len() as u8);
    bytes.try_extend_from_slice(field).unwrap();
}

/// Adds an AID after its length, where there is one.
pub fn push_aid<const N: usize>(aid: Option<&Aid>, bytes: &mut ArrayVec<u8, N>)
    requires room { length bytes.old.items + 17 ≤ N }
    ensures added { bytes.new.items ≡ bytes.old.items ++ flat_map with_length (some_aid (option_copied aid.entry)) }
    ensures length { length bytes.new.items ≤ length bytes.old.items + 17 }
{
    match aid {
        Some(aid) => push_field(aid.as_bytes(), bytes),
        None => {}
    }
}

/// Four fields, each after its length: those that an INSTALL for load has before its token.
pub fn four_fields(first: &[u8], second: &[u8], third: &[u8], fourth: &[u8]) -> DataField
    requires room { length first.now + length second.now + length third.now + length fourth.now ≤ 251 }
    ensures items { result.items ≡ flat_map with_length (first.now ∷ second.now ∷ third.now ∷ fourth.now ∷ []) }
    ensures length { length result.items ≡ 4 + length first.now + length second.now + length third.now + length fourth.now }
{
    let mut field = DataField::new();
    push_field(first, &mut field);
    push_field(second, &mut field);
    push_field(third, &mut field);
    push_field(fourth, &mut field);
    field
}

/// Five fields, each after its length: those that an INSTALL for install, make selectable or extradition has before its token.
pub fn five_fields(
    first: &[u8],
    second: &[u8],
    third: &[u8],
    fourth: &[u8],
    fifth: &[u8],
) -> DataField
    requires room { length first.now + length second.now + length third.now + length fourth.now + length fifth.now ≤ 250 }
    ensures items { result.items ≡ flat_map with_length (first.now ∷ second.now ∷ third.now ∷ fourth.now ∷ fifth.now ∷ []) }
    ensures length { length result.items ≡ 5 + length first.now + length second.now + length third.now + length fourth.now + length fifth.now }
{
    let mut field = four_fields(first, second, third, fourth);
    push_field(fifth, &mut field);
    field
}

/// The AID that a DELETE of an object names, after its tag: what stands before its token.
pub fn object_field(aid: &Aid) -> DataField
    ensures items { result.items ≡ object_named_by aid.now }
    ensures short { length result.items ≤ 18 }
{
    let mut field = DataField::new();
    field.push(0x4F);
    push_field(aid.as_bytes(), &mut field);
    field
}
