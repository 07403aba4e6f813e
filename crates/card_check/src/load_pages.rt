//! Load pages, which the Executable Load Files name.

ghost use Rattle.std.specs.Prelude.{◌≡◌, ◌↔◌, ◌≤◌, ℕ, [], ◌∷◌, ◌++◌, List, true, false, IsTrue, OnSome, IfSome, IfNone, All, length};
ghost use Rattle.card_types.specs.Represents.{things_in};
ghost use Rattle.card_check.specs.IsCard.{pages_named};
ghost use Rattle.card_check.specs.LoadPages.{AreLoadPages, HasMarks, HasPageNumbers, HaveLoadPages, IsNewPage};
ghost use Rattle.card_types.specs.declared.limits.TheConstants.{FILE_LIMIT, LOAD_PAGES};

use card_types::{LOAD_PAGES, LoadFile};
use page_journal::FIRST_LOAD_PAGE;

/// Whether no file is longer than one may be, and the files name load pages, none of them twice.
pub fn have_load_pages(files: &[Option<LoadFile>]) -> bool
    ensures is { IsTrue result ↔ HaveLoadPages files.now }
    ensures arrays { IsTrue result → All HasPageNumbers (things_in files.now) }
{
    let mut marks = [false; LOAD_PAGES];
    for slot in files {
        if let Some(file) = slot {
            if !mark_file(&mut marks, file) {
                return false;
            }
        }
    }
    true
}

// Marks the pages of the file, where it is short enough and none of them has a mark.
fn mark_file(marks: &mut [bool], file: &LoadFile) -> bool
    requires { length marks.old ≡ LOAD_PAGES }
    ensures array { HasPageNumbers file.now }
    ensures length { IsTrue result → file.now.len ≤ FILE_LIMIT }
    ensures apart { (before : List ℕ) → HasMarks marks.old before → AreLoadPages before → file.now.len ≤ FILE_LIMIT
        → (IsTrue result ↔ AreLoadPages (before ++ pages_named file.now)) }
    ensures yes { (before : List ℕ) → HasMarks marks.old before → AreLoadPages before → IsTrue result → HasMarks marks.new (before ++ pages_named file.now) }
{
    match named(file) {
        Some(pages) => mark_pages(marks, pages),
        None => false,
    }
}

// The pages that the file names.
fn named(file: &LoadFile) -> Option<&[u16]>
    ensures array { HasPageNumbers file.now }
    ensures some { IfSome result (λ pages. pages.now ≡ pages_named file.now) }
    ensures within { OnSome result (file.now.len ≤ FILE_LIMIT) }
    ensures none { IfNone result (file.now.len ≤ FILE_LIMIT → ⊥) }
{
    file.pages.get(..usize::from(file.len).div_ceil(256))
}

// Marks the pages, where none of them has a mark.
fn mark_pages(marks: &mut [bool], pages: &[u16]) -> bool
    requires { length marks.old ≡ LOAD_PAGES }
    ensures apart { (before : List ℕ) → HasMarks marks.old before → AreLoadPages before → (IsTrue result ↔ AreLoadPages (before ++ pages.now)) }
    ensures yes { (before : List ℕ) → HasMarks marks.old before → AreLoadPages before → IsTrue result → HasMarks marks.new (before ++ pages.now) }
{
    for page in pages {
        if !mark_page(marks, *page) {
            return false;
        }
    }
    true
}

// Marks the page, where it has no mark.
fn mark_page(marks: &mut [bool], page: u16) -> bool
    requires { length marks.old ≡ LOAD_PAGES }
    ensures new { (before : List ℕ) → HasMarks marks.old before → (IsTrue result ↔ IsNewPage before page) }
    ensures yes { (before : List ℕ) → HasMarks marks.old before → IsTrue result → HasMarks marks.new (before ++ page ∷ []) }
{
    if page < FIRST_LOAD_PAGE {
        return false;
    }
    let place = usize::from(page - FIRST_LOAD_PAGE);
    if place >= LOAD_PAGES || marks[place] {
        return false;
    }
    marks[place] = true;
    true
}
