//! Changes of a registry in words, each in a slot, which are committed together.

ghost use Rattle.std.specs.Prelude.{◌≡◌, ◌+◌, ◌<◌, ◌≤◌, length, true, IfOk};

use crate::case_error::CaseError;
use crate::made::{made_entry, made_file, made_key, made_life, made_object};
use crate::words::number;
use card_types::{ENTRIES, FILES, KEYS, OBJECTS};
use flash_core::Flash;
use rec_store::Records;
use script_lines::words::Words;

/// Makes a change: `card` and a life cycle state, or a slot and the thing that it gets.
#[tactic(auto, using(crate::proofs::Staged::one_more))]
pub fn change<F: Flash>(records: &mut Records<F>, line: &[u8]) -> Result<(), CaseError>
    requires live { records.old.live ≡ true }
    requires frame { length records.old.staged < 30 }
    ensures live { records.new.live ≡ true }
    ensures staged { length records.new.staged ≤ length records.old.staged + 1 }
{
    let mut words = Words::new(line);
    let first = words.take().ok_or(CaseError::NoForm)?;
    if first == b"card".as_slice() {
        records.set_card_life(made_life(words)?);
        return Ok(());
    }
    match words.take() {
        Some(b"domain" | b"app") => {
            let slot = made_slot(first, ENTRIES)?;
            let entry = made_entry(records.tables(), words)?;
            records.set_entry(slot, Some(entry));
        }
        Some(b"file") => {
            let slot = made_slot(first, FILES)?;
            let file = made_file(records.tables(), &mut words)?;
            records.set_file(slot, Some(file));
        }
        Some(b"key") => {
            let slot = made_slot(first, KEYS)?;
            let key = made_key(records.tables(), words)?;
            records.set_key(slot, Some(key));
        }
        Some(b"object") => {
            let slot = made_slot(first, OBJECTS)?;
            let object = made_object(records.tables(), words)?;
            records.set_object(slot, Some(object));
        }
        _ => return Err(CaseError::NoForm),
    }
    Ok(())
}

// A slot of so many.
fn made_slot(word: &[u8], count: usize) -> Result<u8, CaseError>
    ensures { IfOk result (λ slot. slot < count) }
{
    let slot = number(word).ok_or(CaseError::NoForm)?;
    match u8::try_from(slot) {
        Ok(slot) if usize::from(slot) < count => Ok(slot),
        _ => Err(CaseError::NoRegistry),
    }
}
