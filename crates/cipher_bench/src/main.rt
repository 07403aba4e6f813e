//! Makes one call of the ciphers many times, each on what the last one gave, and prints a checksum.
//! The words are a call, the bytes of a message, and a count. `bench/ciphers.c` makes the same
//! calls of other libraries and prints the same checksums.
#![tactic(auto)]

mod calls;
mod session;

use std::env;
use std::process::ExitCode;

// The checksum that three words ask for, where there is no fourth.
fn asked(
    call: Option<String>,
    size: Option<String>,
    count: Option<String>,
    more: Option<String>,
) -> Option<u128> {
    let (call, size, count) = (call?, size?, count?);
    if more.is_some() {
        return None;
    }
    let size = size.as_str().parse().ok()?;
    let count = count.as_str().parse().ok()?;
    calls::checksum(call.as_str(), size, count)
}

fn main(rt: HostRuntime) -> ExitCode {
    let Ok(mut words) = env::args(&rt) else {
        return ExitCode::from(1);
    };
    let _program = words.next();
    let Some(sum) = asked(words.next(), words.next(), words.next(), words.next()) else {
        return ExitCode::from(1);
    };
    match println!(rt; "{sum:032x}") {
        Ok(()) => ExitCode::from(0),
        Err(_) => ExitCode::from(2),
    }
}
