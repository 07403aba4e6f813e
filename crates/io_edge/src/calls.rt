//! Calls that fail by their number.

ghost use Rattle.std.specs.Prelude.{◌≡◌, ◌↔◌, IsTrue, Contains};
ghost use Rattle.faults.specs.Faults.{next_count};

// Whether the next call is one of those that fail. It counts that call.
pub fn is_refused(fails: &[u32], calls: &mut u64) -> bool
    ensures listed { IsTrue result ↔ Contains fails.now calls.old }
    ensures calls { calls.new ≡ next_count calls.old }
{
    let call = *calls;
    *calls = call.saturating_add(1);
    fails.iter().any(|number| u64::from(*number) == call)
}
