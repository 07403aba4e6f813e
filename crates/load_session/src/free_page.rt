//! The lowest load page that is free.

ghost use Rattle.std.specs.Prelude.{◌≡◌, ◌+◌, ◌<◌, ◌≤◌, ◌++◌, ◌∷◌, ℕ, List, [], All, Contains, length};
ghost use Rattle.load_session.specs.Prelude.{AreRoomy, HasMarks, HasPageNumbers, IsFree, IsLoadPage, IsPageInUse, all_pages, pages_in, pages_named, pages_of, things_in};
ghost use Rattle.card_types.specs.declared.limits.TheConstants.{FILE_LIMIT, LOAD_PAGES};
ghost use Rattle.page_journal.specs.declared.pages.TheConstants.{FIRST_LOAD_PAGE};

use card_types::{LOAD_PAGES, LoadFile, Tables};
use page_journal::FIRST_LOAD_PAGE;

/// The lowest load page that no Executable Load File of the tables names and that is not taken.
pub(crate) fn free_page(tables: &Tables, taken: &[u16]) -> u16
    requires roomy { AreRoomy tables.now }
    requires room { pages_in tables.now + length taken.now < LOAD_PAGES }
    ensures range { IsLoadPage result }
    ensures free { IsFree tables.now result }
    ensures apart { Contains taken.now result → ⊥ }
    ensures lowest { (page : ℕ) → FIRST_LOAD_PAGE ≤ page → page < result → IsPageInUse tables.now taken.now page }
{
    let mut marks = [false; LOAD_PAGES];
    mark_files(&mut marks, tables);
    mark(&mut marks, taken);
    let mut page = FIRST_LOAD_PAGE;
    while marks[usize::from(page - FIRST_LOAD_PAGE)] {
        page += 1;
    }
    page
}

// Marks the pages that the Executable Load Files of the tables name.
fn mark_files(marks: &mut [bool; LOAD_PAGES], tables: &Tables)
    requires none { HasMarks marks.old [] }
    requires roomy { AreRoomy tables.now }
    ensures { HasMarks marks.new (all_pages tables.now.files.items) }
{
    for slot in &tables.files {
        if let Some(file) = slot {
            mark(marks, named(file));
        }
    }
}

// Marks these pages, as far as they are load pages.
fn mark(marks: &mut [bool; LOAD_PAGES], pages: &[u16])
    ensures { (before : List ℕ) → HasMarks marks.old before → HasMarks marks.new (before ++ pages.now) }
{
    for page in pages {
        mark_page(marks, *page);
    }
}

// Marks the page, where it is a load page.
fn mark_page(marks: &mut [bool; LOAD_PAGES], page: u16)
    ensures { (before : List ℕ) → HasMarks marks.old before → HasMarks marks.new (before ++ page ∷ []) }
{
    if page < FIRST_LOAD_PAGE {
        return;
    }
    let place = usize::from(page - FIRST_LOAD_PAGE);
    if place < LOAD_PAGES {
        marks[place] = true;
    }
}

/// How many load pages the Executable Load Files of the tables take.
pub(crate) fn count_pages(tables: &Tables) -> usize
    requires { AreRoomy tables.now }
    ensures value { result ≡ pages_in tables.now }
    ensures few { result ≤ 4096 }
    ensures arrays { All HasPageNumbers (things_in tables.now.files.items) }
{
    let mut count = 0;
    for slot in &tables.files {
        if let Some(file) = slot {
            count += named(file).len();
        }
    }
    count
}

// The pages that the Executable Load File names.
fn named(file: &LoadFile) -> &[u16]
    requires { file.now.len ≤ FILE_LIMIT }
    ensures value { result.now ≡ pages_named file.now }
    ensures count { length result.now ≡ pages_of file.now.len }
    ensures few { length result.now ≤ 128 }
    ensures array { HasPageNumbers file.now }
{
    let pages: &[u16] = &file.pages;
    &pages[..usize::from(file.len).div_ceil(256)]
}
