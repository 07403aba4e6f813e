//! Things of a registry, made of the words that say them.

ghost use Rattle.std.specs.Prelude.{◌≡◌, ◌<◌, ◌≤◌, All, IfOk, IfSome, MatchResult, Some};
ghost use Rattle.card_check.specs.IsCard.{IsInLoadPages};
ghost use Rattle.card_types.specs.CardLife.{card_life_code};
ghost use Rattle.card_types.specs.Found.{aid_of};
ghost use Rattle.card_types.specs.declared.card_life.CardLife.{CardLife as CardLifeOf};
ghost use Rattle.card_types.specs.declared.found.Found.TheVariants.{Entry as InEntry, File as InFile};
ghost use Rattle.case_cards.specs.Made.{IsEntryOf, SaysCardLife, SaysMade};
ghost use Rattle.page_journal.specs.Pages.{IsLoadPage};
ghost use Rattle.rec_store.specs.KeySlot.{IsRoomyKey};
ghost use Rattle.script_lines.specs.Words.{Reads, SpellsByte, remaining_words};

use crate::case_error::CaseError;
use crate::things::{EntryWords, FileWords, KeyWords, Name, ObjectWords, slot_number};
use card_types::{
    Aid, COUNTER_LIMIT, CardLife, Entry, FILE_LIMIT, KeyRec, LifeMark, LoadFile, Object,
    Privileges, Tables,
};
use flash_core::PAGES;
use page_journal::FIRST_LOAD_PAGE;
use script_lines::short_number;
use script_lines::values::byte;
use script_lines::words::Words;

/// The life cycle state of a card: LIFE
pub fn made_life(words: Words<'_>) -> Result<CardLife, CaseError>
    ensures { MatchResult result (SaysCardLife (remaining_words words.entry)) (λ _. (life : CardLifeOf) → SaysCardLife (remaining_words words.entry) life → ⊥) }
{
    let word = words.last().ok_or(CaseError::NoForm)?;
    match life(word) {
        Some(life) => Ok(life),
        None => Err(CaseError::NoRegistry),
    }
}

// The life cycle state whose code two digits spell.
#[tactic(auto, unfolding(script_lines::specs::Words::SpellsByte))]
fn life(word: &[u8]) -> Option<CardLife>
    ensures { Reads (λ life. SpellsByte word.now (card_life_code life)) result }
{
    let code = byte(word)?;
    CardLife::from_code(code)
}

/// The entry that words say, with the slots of the domain and the file that it names.
pub fn made_entry(tables: &Tables, words: Words<'_>) -> Result<Entry, CaseError>
    ensures { IfOk result (SaysMade tables.now (remaining_words words.entry)) }
{
    let words = EntryWords::read(words).ok_or(CaseError::NoForm)?;
    entry_of(tables, &words)
}

fn entry_of(tables: &Tables, words: &EntryWords) -> Result<Entry, CaseError>
    ensures { IfOk result (IsEntryOf tables.now words.now) }
{
    Ok(Entry {
        aid: made_aid(&words.aid)?,
        domain: entry_slot(tables, &words.domain)?,
        file: file_slot(tables, &words.file)?,
        module: made_aid(&words.module)?,
        life: LifeMark::from_code(words.state.life[0]).ok_or(CaseError::NoRegistry)?,
        privileges: Privileges::from_bytes(&words.state.privileges).ok_or(CaseError::NoRegistry)?,
        receipts: u16::from_be_bytes(words.state.receipts),
    })
}

/// A file in the load pages that the words after it name, with the bytes that stand there.
pub fn made_file(tables: &Tables, words: &mut Words<'_>) -> Result<LoadFile, CaseError>
    ensures { IfOk result IsInLoadPages }
{
    let FileWords { aid, domain, len } = FileWords::read(words).ok_or(CaseError::NoForm)?;
    if usize::from(len) > FILE_LIMIT {
        return Err(CaseError::NoRegistry);
    }
    let pages = load_pages(words, usize::from(len).div_ceil(256)).ok_or(CaseError::NoForm)?;
    let (aid, domain) = named_in(tables, &aid, &domain)?;
    Ok(LoadFile {
        aid,
        domain,
        len,
        pages,
    })
}

// The AID of a file, and the slot of its domain.
fn named_in(tables: &Tables, aid: &Name, domain: &Name) -> Result<(Aid, u8), CaseError> {
    Ok((made_aid(aid)?, entry_slot(tables, domain)?))
}

// pages PAGE PAGE ..
fn load_pages(words: &mut Words<'_>, count: usize) -> Option<[u16; 128]>
    requires { count ≤ 128 }
    ensures { IfSome result (All IsLoadPage) }
{
    words.fixed(b"pages")?;
    let mut pages = [FIRST_LOAD_PAGE; 128];
    for place in 0..count {
        let page = short_number(words.take()?)?;
        if page < FIRST_LOAD_PAGE || page >= PAGES {
            return None;
        }
        pages[place] = page;
    }
    words.end()?;
    Some(pages)
}

/// A sequence counter stands at the first key of a key set alone.
pub fn made_key(tables: &Tables, words: Words<'_>) -> Result<KeyRec, CaseError>
    ensures { IfOk result IsRoomyKey }
{
    let KeyWords {
        owner,
        version: [version],
        identifier: [identifier],
        key,
        counter: [high, middle, low],
    } = KeyWords::read(words).ok_or(CaseError::NoForm)?;
    let counter = u32::from_be_bytes([0, high, middle, low]);
    if counter > COUNTER_LIMIT || counter > 0 && (identifier != 1 || version >= 0x70) {
        return Err(CaseError::NoRegistry);
    }
    Ok(KeyRec {
        owner: entry_slot(tables, &owner)?,
        version,
        identifier,
        bytes: key,
        counter,
    })
}

pub fn made_object(tables: &Tables, words: Words<'_>) -> Result<Object, CaseError> {
    let ObjectWords { owner, tag, value } = ObjectWords::read(words).ok_or(CaseError::NoForm)?;
    Ok(Object {
        owner: entry_slot(tables, &owner)?,
        tag: u16::from_be_bytes(tag),
        value,
    })
}

fn made_aid(name: &Name) -> Result<Aid, CaseError>
    ensures { IfOk result (λ aid. aid ≡ name.now.items) }
{
    Aid::new(name).ok_or(CaseError::NoRegistry)
}

// The slot of the entry with a name.
fn entry_slot(tables: &Tables, name: &Name) -> Result<u8, CaseError>
    ensures { IfOk result (λ slot. aid_of tables.now (InEntry slot) ≡ Some name.now.items) }
{
    let slot = tables.entries.iter().position(|slot| match slot {
        Some(entry) => entry.aid.as_bytes() == name.as_slice(),
        None => false,
    });
    slot_number(slot)
}

// The slot of the file with a name.
fn file_slot(tables: &Tables, name: &Name) -> Result<u8, CaseError>
    ensures { IfOk result (λ slot. aid_of tables.now (InFile slot) ≡ Some name.now.items) }
{
    let slot = tables.files.iter().position(|slot| match slot {
        Some(file) => file.aid.as_bytes() == name.as_slice(),
        None => false,
    });
    slot_number(slot)
}
