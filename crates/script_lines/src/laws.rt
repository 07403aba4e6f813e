//! The laws of lines, as functions that do nothing when they run (this profile's own).
ghost use Rattle.script_lines.specs.Prelude.{OneLine, WorkloadLines};

/// A text says at most one line.
pub fn one_line()
    ensures { OneLine }
{}

/// Each line of the workload has a form, and fits a line.
pub fn workload_lines()
    ensures { WorkloadLines }
{}
