//! The slots of each kind of thing, and their bytes.

ghost use Rattle.std.specs.Prelude.{◌≡◌, ◌⊎◌, ◌+◌, ◌-◌, ◌/◌, ◌^◌, ◌<◌, ◌≤◌, ◌++◌, length, IfOk, IfNone, IfSome, OnOk, OnErr};
ghost use Rattle.case_cards.specs.Slots.{name_field, slot_start, with_load_page, with_zeros};
ghost use Rattle.case_cards.specs.declared.layout.slot.TheConstants.{LOAD_PAGES};

use crate::case_error::CaseError;
use crate::things::{Name, slot_number};
use arrayvec::ArrayVec;

/// The first load page.
pub const LOAD_PAGES: usize = 96;

/// Where the slots of a kind begin, how many there are, and how many bytes one has.
#[derive(Clone, Copy)]
pub struct Slots {
    first: usize,
    count: usize,
    size: usize,
}

pub const ENTRIES: Slots = Slots {
    first: 0x100,
    count: 32,
    size: 64,
};

pub const FILES: Slots = Slots {
    first: 0x900,
    count: 16,
    size: 256,
};

pub const KEYS: Slots = Slots {
    first: 0x1900,
    count: 48,
    size: 64,
};

pub const OBJECTS: Slots = Slots {
    first: 0x2500,
    count: 16,
    size: 128,
};

impl Slots {
    /// Where the slot with this number begins, where there is one.
    pub fn place(&self, slot: usize) -> Option<usize>
        ensures some { IfSome result (λ place. (slot < self.now.count) × (place ≡ slot_start self.now slot)) }
        ensures none { IfNone result ((self.now.count ≤ slot) ⊎ (2 ^ 64 ≤ slot_start self.now slot)) }
    {
        if slot < self.count {
            slot.checked_mul(self.size)?.checked_add(self.first)
        } else {
            None
        }
    }
}

const ZEROS: [u8; 256] = [0; 256];

/// The bytes of a slot.
pub type Slot = ArrayVec<u8, 256>;

/// The slot of the thing with a name.
pub fn slot_of(names: &[Name], name: &Name) -> Result<u8, CaseError> {
    let slot = names
        .iter()
        .position(|other| other.as_slice() == name.as_slice());
    slot_number(slot)
}

/// The same name.
pub fn copied(name: &Name) -> Result<Name, CaseError>
    ensures { IfOk result (λ copy. copy.items ≡ name.now.items) }
{
    let mut copy = Name::new();
    copy.try_extend_from_slice(name)
        .map_err(|_| CaseError::NoRegistry)?;
    Ok(copy)
}

/// Pushes bytes after those that are there.
pub fn push(slot: &mut Slot, bytes: &[u8]) -> Result<(), CaseError>
    ensures ok { OnOk result (slot.new.items ≡ slot.old.items ++ bytes.now) }
    ensures err { OnErr result ((slot.new ≡ slot.old) × (256 < length slot.old.items + length bytes.now)) }
{
    slot.try_extend_from_slice(bytes)
        .map_err(|_| CaseError::NoRegistry)
}

/// Pushes bytes, and zeros up to this count.
pub fn push_padded(slot: &mut Slot, bytes: &[u8], count: usize) -> Result<(), CaseError>
    ensures ok { OnOk result (slot.new.items ≡ slot.old.items ++ with_zeros count bytes.now) }
{
    let padding = count.saturating_sub(bytes.len());
    push(slot, bytes)?;
    push(slot, ZEROS.get(..padding).ok_or(CaseError::NoRegistry)?)
}

/// Pushes the length of a name, and the name in 16 bytes.
pub fn push_name(slot: &mut Slot, name: &Name) -> Result<(), CaseError>
    ensures ok { OnOk result (slot.new.items ≡ slot.old.items ++ name_field name.now.items) }
{
    push(slot, &[name.len() as u8])?;
    push_padded(slot, name, 16)
}

/// Names a load page in a file's slot: the low eight bits of its number among the load pages, and apart from them the ninth.
pub fn name_page(slot: &mut Slot, index: usize, page: usize) -> Result<(), CaseError>
    ensures ok { OnOk result (slot.new.items ≡ with_load_page slot.old.items index (page - LOAD_PAGES)) }
    ensures err { OnErr result ((slot.new ≡ slot.old) × ((128 ≤ index) ⊎ (length slot.old.items < 256))) }
{
    if index >= 128 || slot.len() < 256 {
        return Err(CaseError::NoRegistry);
    }
    let number = page.saturating_sub(LOAD_PAGES);
    put_number(slot.as_mut_slice(), index, number);
    Ok(())
}

fn put_number(slot: &mut [u8], index: usize, number: usize)
    requires { (index < 128) × (256 ≤ length slot.old) }
    ensures { slot.new ≡ with_load_page slot.old index number }
{
    slot[64 + index] = (number % 256) as u8;
    if number >= 256 {
        slot[192 + index / 8] |= 0x80 >> (index % 8);
    }
}
