//! Decimal numbers (this profile's own).

ghost use Rattle.std.specs.Prelude.{◌≡◌, ◌<◌, ◌≤◌, ◌^◌, ◌↔◌, ℕ, IfSome, IsTrue, decimal, Some};
ghost use Rattle.script_lines.specs.Prelude.{Reads, SpellsCount};

use itoa::Buffer;
use std::str;

// The number that digits spell, perhaps with leading zeros.
fn parsed(word: &[u8]) -> Option<u64>
    ensures { (n : ℕ) → n < 2 ^ 64 → word.now ≡ decimal n → result ≡ Some n }
{
    match str::from_utf8(word) {
        Ok(text) => match text.parse() {
            Ok(number) => Some(number),
            Err(_) => None,
        },
        Err(_) => None,
    }
}

// Whether these are the digits of a number.
fn are_digits(word: &[u8], number: u64) -> bool
    ensures { IsTrue result ↔ (word.now ≡ decimal number) }
{
    word == Buffer::new().format(number).as_bytes()
}

/// The number that a word is in decimal digits, without a leading zero.
pub fn spelled_number(word: &[u8]) -> Option<u64>
    ensures digits { (n : ℕ) → n < 2 ^ 64 → word.now ≡ decimal n → result ≡ Some n }
    ensures number { IfSome result (λ n. word.now ≡ decimal n) }
{
    let number = parsed(word)?;
    if !are_digits(word, number) {
        return None;
    }
    Some(number)
}

/// The same, of 16 bits.
pub fn short_number(word: &[u8]) -> Option<u16>
    ensures digits { (n : ℕ) → n < 2 ^ 16 → word.now ≡ decimal n → result ≡ Some n }
    ensures number { IfSome result (λ n. word.now ≡ decimal n) }
{
    u16::try_from(spelled_number(word)?).ok()
}

fn is_count(number: u16) -> bool
    ensures { IsTrue result ↔ ((1 ≤ number) × (number ≤ 60_000)) }
{
    (1..=60_000).contains(&number)
}

/// A number from 1 to 60,000, without a leading zero.
pub fn count(word: &[u8]) -> Option<u16>
    ensures { Reads (SpellsCount word.now) result }
{
    let count = short_number(word)?;
    if !is_count(count) {
        return None;
    }
    Some(count)
}
