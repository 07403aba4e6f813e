//! The data field of a reply that confirms a command.

ghost use Rattle.std.specs.Prelude.{◌≡◌, ◌++◌, ℕ, List, MatchOption};
ghost use Rattle.receipt_desk.specs.Judgement.{Confirmation, ForConfirmation, Spells, number_in};
ghost use Rattle.tokens_receipts.specs.Receipt.{with_length};

/// The number and the card's unique data in a data field that has the form of a receipted one.
#[derive(Clone, Copy)]
pub struct Confirmed<'a> {
    pub number: u16,
    pub unique: &'a [u8],
}

// The field that the bytes begin with, without its length, and the bytes after it.
fn first_field(bytes: &[u8]) -> Option<(&[u8], &[u8])>
    ensures { MatchOption result ((field rest : List ℕ) → bytes.now ≡ with_length field ++ rest → ⊥)
        (λ read. bytes.now ≡ with_length read.0.now ++ read.1.now) }
{
    let (size, rest) = bytes.split_first()?;
    let size = usize::from(*size);
    if rest.len() < size {
        return None;
    }
    Some((&rest[..size], &rest[size..]))
}

// The field that the bytes are, without its length.
fn whole_field(bytes: &[u8]) -> Option<&[u8]>
    ensures { MatchOption result ((field : List ℕ) → bytes.now ≡ with_length field → ⊥) (λ field. bytes.now ≡ with_length field.now) }
{
    let (field, rest) = first_field(bytes)?;
    if rest.is_empty() { Some(field) } else { None }
}

/// What a data field says, where it has the form of a receipted one.
pub fn read(reply: &[u8]) -> Option<Confirmed<'_>>
    ensures { MatchOption result ((confirmation : Confirmation) → Spells confirmation reply.now → ⊥)
        (λ said. ForConfirmation reply.now (λ confirmation. (confirmation.unique ≡ said.unique.now) × (number_in confirmation ≡ said.number))) }
{
    let confirmation = whole_field(reply)?;
    let (code, rest) = first_field(confirmation)?;
    let (number, rest) = first_field(rest)?;
    let unique = whole_field(rest)?;
    if code.len() != 16 || number.len() != 2 {
        return None;
    }
    Some(Confirmed {
        number: u16::from_be_bytes([number[0], number[1]]),
        unique,
    })
}
