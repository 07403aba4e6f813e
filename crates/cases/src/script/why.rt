//! The verb `why`.

ghost use Rattle.std.specs.Prelude.{IfSome};
ghost use Rattle.cases.specs.Why.{AsksWhy};

use arrayvec::ArrayVec;
use io_edge::LINE_LIMIT;

/// For `why HEX` or `- why HEX`, the line that has `raw` in its place.
pub fn raw_of(line: &[u8]) -> Option<ArrayVec<u8, LINE_LIMIT>>
    ensures { IfSome result (λ raw. AsksWhy line.now raw.items) }
{
    let mut raw = ArrayVec::new();
    let asked = match line.strip_prefix(b"- ".as_slice()) {
        Some(asked) => {
            raw.try_extend_from_slice(b"- ").ok()?;
            asked
        }
        None => line,
    };
    let digits = asked.strip_prefix(b"why ".as_slice())?;
    raw.try_extend_from_slice(b"raw ").ok()?;
    raw.try_extend_from_slice(digits).ok()?;
    Some(raw)
}
