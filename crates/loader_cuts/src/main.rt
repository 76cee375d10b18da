// Runs the vectors of streams that are cut in two, a table that is read from standard input, and prints a line for each: where it is
// from, what it is, what was expected, in hex, and `ok`, or `WRONG` and what came. The table's head says how its lines are written.
#![tactic(auto)]

mod chip;
mod cuts;

use cuts::Cuts;
use slip_framing::LONGEST_FRAME;
use std::io;

// A table has fewer bytes.
const TABLE: usize = 65536;

// The most bytes that an operation gives.
const MOST: usize = 4;

fn main(rt: HostRuntime) -> io::Result<()> {
    let mut text = [0u8; TABLE];
    let table = tables::read(&mut rt.stdin(), &rt, &mut text)?;
    tables::run(
        &mut Cuts,
        &rt,
        table,
        &mut [0; LONGEST_FRAME],
        &mut [0; MOST],
    );
    Ok(())
}
