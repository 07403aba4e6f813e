//! How a command of card content management is answered: by a receipt of the domain that confirms it, or by 00 (GlobalPlatform
//! Card Specification 2.3.1, 9.1.3.4, 11.1.6 and C.5).

ghost use Rattle.std.specs.Prelude.{◌≡◌, ◌⊎◌, ◌≤◌, ◌+◌, ◌++◌, ℕ, List, [], IfSome, length, true};
ghost use Rattle.card_core.specs.Prelude.{AreCards, Confirms, HasFramesFor, HasKey, IsInOrder, IsKeyLength, IsReceiptIn, IsUniqueIn, IsValueIn, KeepsAids, MayReceipt, aid_list, aids_of, entry_pages};
ghost use Rattle.tokens_receipts.specs.Receipt.{receipt as receipt_of};
ghost use Rattle.card_types.specs.declared.data_objects.TheConstants.{IMAGE_NUMBER, ISSUER_NUMBER};
ghost use Rattle.scp03_card.specs.declared.close.TheConstants.{DATA_LIMIT};

use crate::reply::Reply;
use crate::store_data::Tagged;
use aes_block::{BlockKey, SealingAes128, SealingAes192, SealingAes256};
use arrayvec::ArrayVec;
use card_types::{
    Aid, IMAGE_NUMBER, ISSUER_NUMBER, ISSUER_SLOT, KeyRec, Tables, find_key, first_that, in_slot,
};
use flash_core::Flash;
use rec_store::Records;
use registry::set_receipts;
use tokens_receipts::receipt;

/// The key version number of a receipt key.
const RECEIPT_KEY: u8 = 0x71;

/// The AIDs that a command was about, in the order in which its receipt names them.
#[derive(Clone, Copy)]
pub struct Aids {
    first: Aid,
    second: Option<Aid>,
    third: Option<Aid>,
}

impl Aids {
    pub fn new(first: Aid, second: Option<Aid>, third: Option<Aid>) -> Aids
        ensures { aid_list result ≡ aids_of first second third }
    {
        Aids {
            first,
            second,
            third,
        }
    }
}

/// Answers a command that was about these AIDs. The domain in the slot `receipter` confirms it by a receipt, and
/// the number of its last receipt is one higher then; where nobody does, the reply is 00. It commits nothing.
pub fn confirm<F: Flash>(
    records: &mut Records<F>,
    receipter: Option<u8>,
    about: &Aids,
    reply: &mut Reply,
)
    requires live { records.old.live ≡ true }
    requires frames { HasFramesFor entry_pages records.old.staged }
    requires cards { AreCards records.old.tables }
    requires able { IfSome receipter (MayReceipt records.old.tables) }
    requires empty { reply.old.items ≡ [] }
    ensures answered { Confirms records.old.tables records.new.tables receipter (aid_list about.now) reply.new.items }
    ensures aids { KeepsAids records.old.tables.entries.items records.new.tables.entries.items }
    ensures files { records.new.tables.files.items ≡ records.old.tables.files.items }
    ensures cards { AreCards records.new.tables }
    ensures same { (records.new.flash ≡ records.old.flash) × (records.new.live ≡ true) }
    ensures room { length reply.new.items ≤ DATA_LIMIT }
{
    let Some(slot) = receipter else {
        reply.push(0x00);
        return;
    };
    let number = in_slot(&records.tables().entries, slot).unwrap().receipts + 1;
    write_receipt(records.tables(), slot, number, about, reply);
    set_receipts(records, slot, number);
}

// Appends the value of a data object of the Issuer Security Domain, where it has that.
fn push_object(tables: &Tables, tag: u16, unique: &mut ArrayVec<u8, 20>)
    requires in_order { IsInOrder tables.now }
    requires tag { (tag ≡ ISSUER_NUMBER) ⊎ (tag ≡ IMAGE_NUMBER) }
    requires room { length unique.old.items ≤ 10 }
    ensures value { (value : List ℕ) × IsValueIn tables.now.objects.items tag value × (unique.new.items ≡ unique.old.items ++ value) }
    ensures size { length unique.new.items ≤ length unique.old.items + 10 }
{
    let wanted = Tagged {
        owner: ISSUER_SLOT,
        tag,
    };
    if let Some(found) = first_that(&tables.objects, &wanted) {
        unique.try_extend_from_slice(&found.thing.value).unwrap();
    }
}

// The card's unique data: its Issuer Identification Number and Card Image Number, as far as it has them.
fn unique_data(tables: &Tables) -> ArrayVec<u8, 20>
    requires in_order { IsInOrder tables.now }
    ensures unique { IsUniqueIn tables.now.objects.items result.items }
    ensures size { length result.items ≤ 20 }
{
    let mut unique = ArrayVec::new();
    push_object(tables, ISSUER_NUMBER, &mut unique);
    push_object(tables, IMAGE_NUMBER, &mut unique);
    unique
}

fn receipt_under<K: BlockKey>(
    key: &KeyRec,
    number: u16,
    unique: &[u8],
    about: &Aids,
    out: &mut ArrayVec<u8, 48>,
)
    requires length { length key.now.bytes.items ≡ K.LEN }
    requires short { length unique.now ≤ 20 }
    ensures { out.new.items ≡ receipt_of key.now.bytes.items number unique.now (aid_list about.now) }
{
    let key = K::from_key(&key.bytes);
    let (second, third) = (about.second.as_ref(), about.third.as_ref());
    receipt(&key, number, unique, &about.first, second, third, out);
}

// Writes the receipt under a key of whichever length.
fn write_under(key: &KeyRec, number: u16, unique: &[u8], about: &Aids, out: &mut ArrayVec<u8, 48>)
    requires length { IsKeyLength (length key.now.bytes.items) }
    requires short { length unique.now ≤ 20 }
    ensures { out.new.items ≡ receipt_of key.now.bytes.items number unique.now (aid_list about.now) }
{
    match key.bytes.len() {
        16 => receipt_under::<SealingAes128>(key, number, unique, about, out),
        24 => receipt_under::<SealingAes192>(key, number, unique, about, out),
        _ => receipt_under::<SealingAes256>(key, number, unique, about, out),
    }
}

// Appends a receipt of the domain in a slot, with this number, on these AIDs.
fn write_receipt(tables: &Tables, slot: u8, number: u16, about: &Aids, reply: &mut Reply)
    requires in_order { IsInOrder tables.now }
    requires key { (place : ℕ) × HasKey tables.now.keys.items slot 0x71 1 place }
    requires empty { reply.old.items ≡ [] }
    ensures receipt { IsReceiptIn tables.now slot number (aid_list about.now) reply.new.items }
    ensures size { length reply.new.items ≤ 48 }
{
    let found = find_key(&tables.keys, slot, RECEIPT_KEY, 1).unwrap();
    let unique = unique_data(tables);
    let mut out = ArrayVec::new();
    write_under(found.thing, number, &unique, about, &mut out);
    reply.try_extend_from_slice(&out).unwrap();
}
