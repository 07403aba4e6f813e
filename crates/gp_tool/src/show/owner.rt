//! AIDs by the slots that have them.

ghost use Rattle.std.specs.Prelude.{◌≡◌, ◌≤◌, length};
ghost use Rattle.gp_tool.specs.Prelude.{aid_order, domain_aid, file_aid};

use card_types::{Entry, LoadFile, in_slot};
use std::cmp::Ordering;

/// The AID of the domain in a slot.
pub fn aid_of_domain(entries: &[Option<Entry>], slot: u8) -> &[u8]
    ensures aid { result.now ≡ domain_aid entries.now slot }
    ensures short { length result.now ≤ 16 }
{
    match in_slot(entries, slot) {
        Some(entry) => entry.aid.as_bytes(),
        None => &[],
    }
}

/// The AID of the Executable Load File in a slot.
pub fn aid_of_file(files: &[Option<LoadFile>], slot: u8) -> &[u8]
    ensures aid { result.now ≡ file_aid files.now slot }
    ensures short { length result.now ≤ 16 }
{
    match in_slot(files, slot) {
        Some(file) => file.aid.as_bytes(),
        None => &[],
    }
}

/// How the AIDs of the domains in two slots stand to each other: by their bytes, a prefix before what it begins.
pub fn owners_cmp(entries: &[Option<Entry>], a: u8, b: u8) -> Ordering
    ensures { result ≡ aid_order (domain_aid entries.now a) (domain_aid entries.now b) }
{
    aid_of_domain(entries, a).cmp(aid_of_domain(entries, b))
}
