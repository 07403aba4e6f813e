//! The laws of runs over lines, as functions that do nothing when they run.

ghost use Rattle.gp_tool.specs.Prelude.{HostAndCard, LinesKeepTrees, OneEnding, OneLast, OneMill, OneText, OneWritten};

use flash_core::Flash;
use io_edge::Sink;

/// From one state of the card the same lines write one text and lead to one state.
pub fn one_text()
    ensures text { OneText }
    ensures last { OneLast }
{}

/// From one state of the card and the same bytes, of the endings without a fault one alone may come, with one text.
pub fn one_ending()
    ensures ending { OneEnding }
    ensures written { OneWritten }
{}

/// One workload writes one text and leaves one registry, whatever the device held.
pub fn one_mill<K: Sink, F: Flash>()
    ensures { OneMill K.Sink F.Flash }
{}

/// What lines make of a card is a run of the policy machine, and keeps the trees of the domains that each of its commands spares.
pub fn lines_keep_trees()
    ensures { LinesKeepTrees }
{}

/// Lines that a host plays over any link, with this card at its other end, do what they do in the verb `play`, and the other way
/// round.
pub fn host_and_card()
    ensures { HostAndCard }
{}
