//! `gp_host`: a script is played over a card that something else holds. Commands go to standard output, replies come from standard input,
//! and the transcript goes to standard error.
#![tactic(auto)]

use host_tool::process;
use std::env;
use std::process::ExitCode;

fn main(rt: HostRuntime) -> ExitCode {
    process(&rt, rt.stderr(), env::args(&rt))
}
