//! Cases of the card and of `gp`: each line of standard input is done, and what it answers is written.
//!
//! docs/TESTS.md has the language. A malformed line in it ends the program with status 1, and standard
//! error says which line and why.
#![tactic(auto)]

mod act;
mod bench;
mod counted;
mod device;
mod fault_plan;
mod line;
mod script;
mod sweep;
mod tool;

use bench::Bench;
use case_cards::CaseError;
use counted::Calls;
use line::Line;
use std::cell::Cell;
use std::fs::{self, Files};
use std::io::{self, BufRead, BufReader, Write};
use thiserror::Error;

/// The line that ended the program.
#[derive(Debug, Drop, Error)]
#[error("line {number}: {cause}")]
struct Stop {
    number: usize,
    cause: CaseError,
}

fn act_on<R: Files + AllocGlobal>(
    rt: &R,
    bench: &mut Bench<'_>,
    line: &str,
    out: &mut Vec<u8>,
) -> Result<(), CaseError> {
    match Line::read(line.as_bytes()).ok_or(CaseError::NoForm)? {
        Line::Image(path) => {
            let pages = fs::read(rt, path).map_err(|_| CaseError::NoImage)?;
            bench.lay_image(&pages)
        }
        line => bench.act(&line, out),
    }
}

fn main(rt: HostRuntime) -> anyhow::Result<()> {
    let calls = Cell::new(Calls::NONE);
    let mut bench = Bench::new(rt.alloc(), &calls);
    let mut out = Vec::new(rt.alloc());
    let mut writer = io::writer(&rt);
    let lines = BufReader::new(rt.alloc(), rt.reader())?.lines(rt.alloc());
    for (index, line) in lines.enumerate() {
        if let Err(cause) = act_on(&rt, &mut bench, &line?, &mut out) {
            return Err(Stop {
                number: index.saturating_add(1),
                cause,
            }
            .into());
        }
        writer.write_all(&out)?;
        out.clear();
    }
    Ok(())
}
