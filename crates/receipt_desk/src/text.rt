//! What is written of tokens and verdicts.

ghost use Rattle.std.specs.Prelude.{◌≡◌, ◌+◌, ◌++◌, ◌≤◌, []};
ghost use Rattle.arrayvec.specs.ArrayVec.{array_vec_len};
ghost use Rattle.line_runs.specs.declared.taker.TheConstants.{TEXT_LIMIT};
ghost use Rattle.receipt_desk.specs.Text.{digits, token_line, verdict_line, verdict_text, want_text};

use crate::verdict::Verdict;
use line_runs::Text;
use line_text::{push_hex, push_word};

// Four digits.
fn push_number(number: u16, text: &mut Text)
    requires room { array_vec_len text.old + 4 ≤ TEXT_LIMIT }
    ensures written { text.new.items ≡ text.old.items ++ digits number }
    ensures size { array_vec_len text.new ≡ array_vec_len text.old + 4 }
{
    push_hex(&number.to_be_bytes(), text);
}

// The number that was wanted.
fn push_want(want: Option<u16>, text: &mut Text)
    requires room { array_vec_len text.old + 4 ≤ TEXT_LIMIT }
    ensures written { text.new.items ≡ text.old.items ++ want_text want }
    ensures size { array_vec_len text.new ≡ array_vec_len text.old + 4 }
{
    match want {
        Some(number) => push_number(number, text),
        None => push_word(b"none", text),
    }
}

// A verdict.
fn push_verdict(verdict: &Verdict, text: &mut Text)
    requires empty { text.old.items ≡ [] }
    ensures written { text.new.items ≡ verdict_text verdict.now }
    ensures size { array_vec_len text.new ≤ 32 }
{
    match *verdict {
        Verdict::Fits(number) => {
            push_word(b"ok ", text);
            push_number(number, text);
        }
        Verdict::Form => push_word(b"form", text),
        Verdict::Unique => push_word(b"unique", text),
        Verdict::Number { have, want } => {
            push_word(b"number ", text);
            push_number(have, text);
            push_word(b" want ", text);
            push_want(want, text);
        }
        Verdict::Mac => push_word(b"mac", text),
    }
}

/// Writes the line of a verdict.
pub fn push_verdict_line(verdict: &Verdict, text: &mut Text)
    requires empty { text.old.items ≡ [] }
    ensures { text.new.items ≡ verdict_line verdict.now }
{
    push_verdict(verdict, text);
    push_word(b"\n", text);
}

/// Writes the line of a token.
pub fn push_token_line(token: &[u8; 16], text: &mut Text)
    requires empty { text.old.items ≡ [] }
    ensures { text.new.items ≡ token_line token.now }
{
    push_hex(token, text);
    push_word(b"\n", text);
}
