//! Reads a cue sheet from standard input and tells what it holds, how much it demands and whether it is admitted; or
//! the one fault that keeps it from being read.
#![tactic(auto)]

mod report;
#[cfg(test)]
mod tests;

use report::report_on;
use std::io;
use std::io::Read;

/// The most bytes of a sheet; what lies past them is not looked at.
const MOST_BYTES: u64 = 65_536;

fn main(rt: HostRuntime) -> io::Result<()> {
    let heap = rt.alloc();
    let mut bytes = Vec::new(heap);
    // Three calls of the library, which the other program makes too: a crate for them would be no shorter.
    rt.stdin().take(MOST_BYTES).read_to_end(&mut bytes)?;
    let report = report_on(heap, bytes.as_slice())?;
    println!(rt; "{report}")
}
