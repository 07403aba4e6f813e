//! How a script ends.

ghost use Rattle.std.specs.Prelude.{◌≡◌};
ghost use Rattle.host_tool.specs.Ending.{host_ending};

use crate::fault::LinkFault;
use line_runs::{Ending, LinesEnd};

/// By how its lines were taken, whether a status differed, and why the link has failed: a command that was not written is a write fault.
pub fn ending_of(end: LinesEnd, differs: bool, why: Option<LinkFault>) -> Ending
    ensures { result ≡ host_ending end differs why }
{
    match end {
        LinesEnd::Failed => match why {
            Some(LinkFault::WriteFault) => Ending::WriteFault,
            _ => Ending::Failed,
        },
        _ => Ending::of_lines(end, differs),
    }
}
