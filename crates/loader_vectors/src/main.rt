// Runs the vectors of a table, which is read from standard input, and prints a line for each: where it is from, what it is,
// what was expected, in hex, and `ok`, or `WRONG` and what came. The table's head says how its lines are written.
#![tactic(auto)]

mod chip;
mod loads;
mod names;
mod plain;

use chip::{Chip, LONGEST_FIELD};
use std::io;

// A table has fewer bytes. A row of a long packet has more than 8,240 of them.
const TABLE: usize = 262144;

fn main(rt: HostRuntime) -> io::Result<()> {
    let mut text = [0u8; TABLE];
    let table = tables::read(&mut rt.stdin(), &rt, &mut text)?;
    tables::run(
        &mut Chip::new(),
        &rt,
        table,
        &mut [0; LONGEST_FIELD],
        &mut [0; LONGEST_FIELD],
    );
    Ok(())
}
