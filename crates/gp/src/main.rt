//! `gp`, over standard input, standard output and the card in the file `card.img` of the caller's folder.
//!
//! `gp run` reads lines such as `00A4040008A000000151000000` and writes a reply for each command. The status is
//! that of `gp_tool::gp`, which is 7 where there is no memory for the card; a word that is no UTF-8 gives 1, and
//! want of memory for the words 7 too, with nothing written.
#![tactic(auto)]

use gp_tool::process;
use std::env;
use std::process::ExitCode;

fn main(rt: HostRuntime) -> ExitCode {
    process(&rt, env::args(&rt))
}
