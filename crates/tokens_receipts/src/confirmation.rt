//! Receipts.

ghost use Rattle.std.specs.Prelude.{◌≡◌, ◌++◌, ◌≤◌, length};
ghost use Rattle.std.specs.Option.{option_copied};
ghost use Rattle.tokens_receipts.specs.Receipt as confirmed;
ghost use Rattle.tokens_receipts.specs.Receipt.{aids_of, number_field, signed_by_receipt, with_length};

use crate::fields::{push_aid, push_field};
use aes_block::BlockKey;
use arrayvec::ArrayVec;
use card_types::Aid;
use cmac_kdf::{CmacKey, cmac};

/// The most bytes that a receipt signs: those of a number, the card's unique data, and three AIDs, each after its length.
const SIGNED: usize = 75;

/// The most bytes of a receipt, its number and the card's unique data, each after its length.
const CONFIRMATION: usize = 41;

// What a receipt signs.
fn signed(
    number: u16,
    unique: &[u8],
    first: &Aid,
    second: Option<&Aid>,
    third: Option<&Aid>,
) -> ArrayVec<u8, SIGNED>
    requires short { length unique.now ≤ 20 }
    ensures { result.items ≡ signed_by_receipt number unique.now (aids_of first.now (option_copied second.entry) (option_copied third.entry)) }
{
    let mut bytes = ArrayVec::new();
    push_field(&number.to_be_bytes(), &mut bytes);
    push_field(unique, &mut bytes);
    push_field(first.as_bytes(), &mut bytes);
    push_aid(second, &mut bytes);
    push_aid(third, &mut bytes);
    bytes
}

// Writes a receipt with its number and the card's unique data.
fn write_confirmation(code: &[u8; 16], number: u16, unique: &[u8], out: &mut ArrayVec<u8, 48>)
    requires short { length unique.now ≤ 20 }
    ensures { out.new.items ≡ with_length (with_length code.now ++ number_field number ++ with_length unique.now) }
{
    let mut confirmation = ArrayVec::<u8, CONFIRMATION>::new();
    push_field(code, &mut confirmation);
    push_field(&number.to_be_bytes(), &mut confirmation);
    push_field(unique, &mut confirmation);
    out.clear();
    push_field(&confirmation, out);
}

/// Writes the data field of a reply that confirms a command: the receipt, its number, and the card's unique data. The unique data has
/// at most 20 bytes. The AIDs are those that the command was about, in their order.
pub fn receipt<K: BlockKey>(
    key: &K,
    number: u16,
    unique: &[u8],
    first: &Aid,
    second: Option<&Aid>,
    third: Option<&Aid>,
    out: &mut ArrayVec<u8, 48>,
)
    requires short { length unique.now ≤ 20 }
    ensures { out.new.items ≡ confirmed.receipt (K.key_bytes key.now) number unique.now
        (aids_of first.now (option_copied second.entry) (option_copied third.entry)) }
{
    let code = cmac(key, &signed(number, unique, first, second, third));
    write_confirmation(&code, number, unique, out);
}

/// Writes the same data field under a key that keeps its subkeys.
pub fn receipt_under<K: BlockKey>(
    key: &CmacKey<K>,
    number: u16,
    unique: &[u8],
    first: &Aid,
    second: Option<&Aid>,
    third: Option<&Aid>,
    out: &mut ArrayVec<u8, 48>,
)
    requires short { length unique.now ≤ 20 }
    ensures { out.new.items ≡ confirmed.receipt key.now number unique.now
        (aids_of first.now (option_copied second.entry) (option_copied third.entry)) }
{
    let code = key.cmac(&signed(number, unique, first, second, third));
    write_confirmation(&code, number, unique, out);
}
