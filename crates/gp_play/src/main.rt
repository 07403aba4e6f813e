//! The program `gp` once more, for a second stored run: of a script, with a status other than 0.
#![tactic(auto)]

use gp_tool::process;
use std::env;
use std::process::ExitCode;

fn main(rt: HostRuntime) -> ExitCode {
    process(&rt, env::args(&rt))
}
