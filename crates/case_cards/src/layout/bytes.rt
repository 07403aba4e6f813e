//! The bytes of the slots of things.

ghost use Rattle.std.specs.Prelude.{◌≡◌, IfOk};
ghost use Rattle.case_cards.specs.Layout.{entry_bytes, file_bytes, key_bytes, object_bytes};

use super::slot::{Slot, push, push_name, push_padded};
use crate::case_error::CaseError;
use crate::things::{EntryWords, FileWords, KeyWords, ObjectWords};

/// The slot of an entry, with those of its domain and its file.
pub fn entry_slot(domain: u8, file: u8, said: &EntryWords) -> Result<Slot, CaseError>
    ensures { IfOk result (λ slot. slot.items ≡ entry_bytes domain file said.now) }
{
    let mut slot = Slot::new();
    push(&mut slot, &[0x01])?;
    push_name(&mut slot, &said.aid)?;
    push(&mut slot, &[domain, file])?;
    push_name(&mut slot, &said.module)?;
    push(&mut slot, &said.state.life)?;
    push(&mut slot, &said.state.privileges)?;
    push(&mut slot, &said.state.receipts)?;
    Ok(slot)
}

/// The slot of a file, with that of its domain. It names no load page yet.
pub fn file_slot(domain: u8, said: &FileWords) -> Result<Slot, CaseError>
    ensures { IfOk result (λ slot. slot.items ≡ file_bytes domain said.now) }
{
    let mut slot = Slot::new();
    push(&mut slot, &[0x01])?;
    push_name(&mut slot, &said.aid)?;
    push(&mut slot, &[domain])?;
    push(&mut slot, &said.len.to_be_bytes())?;
    push_padded(&mut slot, &[], 256 - 21)?;
    Ok(slot)
}

/// The slot of a key, with that of its owner.
pub fn key_slot(owner: u8, said: &KeyWords) -> Result<Slot, CaseError>
    ensures { IfOk result (λ slot. slot.items ≡ key_bytes owner said.now) }
{
    let mut slot = Slot::new();
    push(&mut slot, &[0x01, owner])?;
    push(&mut slot, &said.version)?;
    push(&mut slot, &said.identifier)?;
    push(&mut slot, &[said.key.len() as u8])?;
    push_padded(&mut slot, &said.key, 32)?;
    push(&mut slot, &said.counter)?;
    Ok(slot)
}

/// The slot of a data object, with that of its owner.
pub fn object_slot(owner: u8, said: &ObjectWords) -> Result<Slot, CaseError>
    ensures { IfOk result (λ slot. slot.items ≡ object_bytes owner said.now) }
{
    let mut slot = Slot::new();
    push(&mut slot, &[0x01, owner])?;
    push(&mut slot, &said.tag)?;
    push(&mut slot, &[said.value.len() as u8])?;
    push(&mut slot, &said.value)?;
    Ok(slot)
}
