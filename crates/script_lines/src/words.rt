//! The words of a line, one after another (this profile's own).

ghost use Rattle.std.specs.Prelude.{◌≡◌, ◌↔◌, ◌∷◌, ◌<◌, [], List, ℕ, length, take, slice_index, IsSome, MatchOption};
ghost use Rattle.script_lines.specs.Words.{words_of, remaining_words, HasNoSpace};

/// The words of a line that are left.
#[derive(Clone, Copy)]
pub struct Words<'a> {
    rest: Option<&'a [u8]>,
}

// Where the first space stands.
fn space_in(text: &[u8]) -> Option<usize>
    ensures { MatchOption result (HasNoSpace text.now) (λ at. (at < length text.now) × HasNoSpace (take at text.now) × (slice_index text.now at ≡ 32)) }
{
    text.iter().position(|byte| *byte == b' ')
}

/// The word before the first space and what follows the space, or nothing where there is one word.
pub fn cut(text: &[u8]) -> Option<(&[u8], &[u8])>
    ensures { MatchOption result (words_of text.now ≡ text.now ∷ []) (λ cut. words_of text.now ≡ cut.0.now ∷ words_of cut.1.now) }
{
    match space_in(text) {
        None => None,
        Some(at) => Some((&text[..at], &text[at + 1..])),
    }
}

impl<'a> Words<'a> {
    /// All words of a text.
    pub fn new(text: &'a [u8]) -> Words<'a>
        ensures { remaining_words result ≡ words_of text.now }
    {
        Words { rest: Some(text) }
    }

    /// Takes the next word, if one is left.
    pub fn take(&mut self) -> Option<&'a [u8]>
        ensures { MatchOption result (remaining_words self.old ≡ []) (λ word. remaining_words self.old ≡ word.now ∷ remaining_words self.new) }
    {
        let text = self.rest?;
        match cut(text) {
            Some((word, rest)) => {
                self.rest = Some(rest);
                Some(word)
            }
            None => {
                self.rest = None;
                Some(text)
            }
        }
    }

    /// Takes this very word.
    pub fn fixed(&mut self, wanted: &[u8]) -> Option<()>
        ensures { MatchOption result ((rest : List (List ℕ)) → remaining_words self.old ≡ wanted.now ∷ rest → ⊥) (λ _. remaining_words self.old ≡ wanted.now ∷ remaining_words self.new) }
    {
        if self.take()? == wanted {
            Some(())
        } else {
            None
        }
    }

    /// The one word that is left.
    pub fn last(mut self) -> Option<&'a [u8]>
        ensures { MatchOption result ((word : List ℕ) → remaining_words self.entry ≡ word ∷ [] → ⊥) (λ word. remaining_words self.entry ≡ word.now ∷ []) }
    {
        let word = self.take()?;
        self.end()?;
        Some(word)
    }

    /// Whether no word is left.
    pub fn end(&self) -> Option<()>
        ensures { IsSome result ↔ (remaining_words self.now ≡ []) }
    {
        match self.rest {
            None => Some(()),
            Some(_) => None,
        }
    }
}
