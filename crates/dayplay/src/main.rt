//! Rehearses the calls of a day: reads a script from standard input, plays it, and tells what each call answered and the
//! trace of the day; or where the script is wrong, or why its rates make no table.
#![tactic(auto)]

mod line;
mod rehearsal;
#[cfg(test)]
mod tests;

use line::RefusedLine;
use rehearsal::{PrepareError, Prepared, prepare, rehearse};
use std::alloc::AllocError;
use std::io;
use std::io::Read;

/// The most bytes of a script; what lies past them is not looked at.
const MOST_BYTES: u64 = 65_536;

fn main(rt: HostRuntime) -> io::Result<()> {
    let heap = rt.alloc();
    let mut bytes = Vec::new(heap);
    // Three calls of the library, which the other program makes too: a crate for them would be no shorter.
    rt.stdin().take(MOST_BYTES).read_to_end(&mut bytes)?;
    match prepare(heap, bytes.as_slice()) {
        Ok(Prepared { table, script }) => print!(rt; "{}", rehearse(heap, table, &script)?),
        Err(PrepareError::WrongScript { place }) => println!(rt; "script {place}"),
        Err(PrepareError::WrongTable(refusal)) => println!(rt; "{}", RefusedLine::from(refusal)),
        Err(PrepareError::NoMemory) => Err(AllocError.into()),
    }
}
