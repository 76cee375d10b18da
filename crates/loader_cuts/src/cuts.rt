// The ways of cutting line bytes into two runs, each compared with feeding byte by byte.
ghost use Rattle.tables.specs.Rows.{Names_by};
ghost use Rattle.loader_cuts.specs.Names.{name_of};

use crate::chip::Chip;
use tables::{Named, Runner, put_word};

// The table's one operation, and what runs it: nothing stays from row to row.
#[derive(Clone, Copy)]
pub struct Cuts;

impl Named for Cuts {
    ghost names = { Names_by name_of };

    fn named(name: &[u8]) -> Option<Cuts> {
        lists::same(b"cuts", name).then_some(Cuts)
    }
}

// How many ways of cutting some line bytes into two runs leave what feeding byte by byte leaves.
fn agreeing(bytes: &[u8]) -> u32 {
    let mut expected = Chip::new();
    for byte in bytes {
        expected.feed(*byte);
    }
    let mut chip = Chip::new();
    let mut count: u32 = 0;
    for cut in 0..=bytes.len() {
        let (first, second) = bytes.split_at(cut);
        chip.restart();
        chip.hand_over(first);
        chip.hand_over(second);
        if chip.agrees(&expected) {
            count = count.wrapping_add(1);
        }
    }
    count
}

impl Runner for Cuts {
    type Operation = Cuts;

    fn run(&mut self, _operation: Cuts, input: &[u8], got: &mut [u8]) -> usize {
        put_word(agreeing(input), got)
    }
}
