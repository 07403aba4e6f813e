//! An Executable Load File that has come is added (GlobalPlatform Card Specification 2.3.1, 9.3.5 and 11.6).

ghost use Rattle.std.specs.Prelude.{◌≡◌, ◌+◌, ◌≤◌, [], IfSome, length, true};
ghost use Rattle.card_core.specs.Prelude.{AddsLoaded, AreCards, AreOwn, IsInLoadPages, KeepsAids, MayReceipt, NoneFree, NoneHas, is_domain_in, pages_in, pages_named, pages_of};
ghost use Rattle.card_types.specs.declared.limits.TheConstants.{LOAD_PAGES};
ghost use Rattle.scp03_card.specs.declared.close.TheConstants.{DATA_LIMIT};

use crate::confirm::{Aids, confirm};
use crate::reply::Reply;
use card_types::{LoadFile, in_slot};
use flash_core::Flash;
use rec_store::Records;
use registry::place_file;

/// Adds an Executable Load File, whose bytes load pages of its own are to hold, and answers about it and its security domain: by a
/// receipt of the domain in the slot `receipter`, or by 00 where nobody confirms. It commits nothing.
pub fn add_loaded<F: Flash>(
    records: &mut Records<F>,
    file: LoadFile,
    receipter: Option<u8>,
    reply: &mut Reply,
)
    requires live { records.old.live ≡ true }
    requires clean { records.old.staged ≡ [] }
    requires cards { AreCards records.old.tables }
    requires domain { is_domain_in records.old.tables.entries.items file.domain ≡ true }
    requires pages { IsInLoadPages file }
    requires own { AreOwn records.old.tables (pages_named file) }
    requires some { 1 ≤ file.len }
    requires few { pages_in records.old.tables + pages_of file.len ≤ LOAD_PAGES }
    requires fresh { NoneHas records.old.tables file.aid }
    requires free { NoneFree records.old.tables.files.items → ⊥ }
    requires able { IfSome receipter (MayReceipt records.old.tables) }
    requires empty { reply.old.items ≡ [] }
    ensures added { AddsLoaded records.old.tables records.new.tables file receipter reply.new.items }
    ensures aids { KeepsAids records.old.tables.entries.items records.new.tables.entries.items }
    ensures cards { AreCards records.new.tables }
    ensures same { (records.new.flash ≡ records.old.flash) × (records.new.live ≡ true) }
    ensures room { length reply.new.items ≤ DATA_LIMIT }
{
    let into = in_slot(&records.tables().entries, file.domain).unwrap().aid;
    let about = Aids::new(file.aid, Some(into), None);
    place_file(records, file);
    confirm(records, receipter, &about, reply);
}
