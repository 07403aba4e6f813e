//! Lines that say nothing (this profile's own).

ghost use Rattle.std.specs.Prelude.{◌⊎◌, ◌↔◌, IsTrue};
ghost use Rattle.script_lines.specs.Line.{IsBlank, IsComment};

// Whether a line is empty or has spaces alone.
fn is_blank(text: &[u8]) -> bool
    ensures { IsTrue result ↔ IsBlank text.now }
{
    text.iter().all(|byte| *byte == b' ')
}

fn is_comment(text: &[u8]) -> bool
    ensures { IsTrue result ↔ IsComment text.now }
{
    matches!(text, [b'#', ..])
}

/// Whether a line is blank or a comment.
pub fn says_nothing(text: &[u8]) -> bool
    ensures { IsTrue result ↔ (IsBlank text.now ⊎ IsComment text.now) }
{
    is_blank(text) || is_comment(text)
}
