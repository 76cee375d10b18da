// Runs the link's vectors: a table, read from standard input, whose head says how its lines are written. Prints a line for each:
// where it is from, what it is, what was expected, in hex, and `ok`, or `WRONG` and what came.
#![tactic(auto)]

mod names;
mod probe;

use probe::{MOST, Probe};
use std::io;

// A table has fewer bytes.
const TABLE: usize = 65536;

fn main(rt: HostRuntime) -> io::Result<()> {
    let mut text = [0u8; TABLE];
    let table = tables::read(&mut rt.stdin(), &rt, &mut text)?;
    tables::run(
        &mut Probe::new(),
        &rt,
        table,
        &mut [0; MOST],
        &mut [0; MOST],
    );
    Ok(())
}
