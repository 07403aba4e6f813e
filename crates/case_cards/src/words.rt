//! The words of a line, with one space between two.

ghost use Rattle.std.specs.Prelude.{◌≡◌, ◌<◌, ◌∷◌, ◌^◌, [], ℕ, List, decimal, Some, MatchOption};
ghost use Rattle.script_lines.specs.Words.{remaining_words};

use script_lines::spelled_number;
use script_lines::words::Words;

/// A number in decimal digits.
pub fn number(word: &[u8]) -> Option<u32>
    ensures { (n : ℕ) → n < 2 ^ 32 → word.now ≡ decimal n → result ≡ Some n }
{
    u32::try_from(spelled_number(word)?).ok()
}

/// Takes this very word, and answers the next one.
pub fn after<'a>(words: &mut Words<'a>, label: &[u8]) -> Option<&'a [u8]>
    ensures { MatchOption result ((word : List ℕ) (rest : List (List ℕ)) → remaining_words words.old ≡ label.now ∷ word ∷ rest → ⊥) (λ word. remaining_words words.old ≡ label.now ∷ word.now ∷ remaining_words words.new) }
{
    words.fixed(label)?;
    words.take()
}

/// Takes this very word and the next one, which is the last, and answers that.
pub fn last_after<'a>(words: Words<'a>, label: &[u8]) -> Option<&'a [u8]>
    ensures { MatchOption result ((word : List ℕ) → remaining_words words.entry ≡ label.now ∷ word ∷ [] → ⊥) (λ word. remaining_words words.entry ≡ label.now ∷ word.now ∷ []) }
{
    let mut words = words;
    words.fixed(label)?;
    words.last()
}
