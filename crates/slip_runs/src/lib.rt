// A run of line bytes, stepped at once up to the byte that closes a packet.
#![tactic(auto)]

ghost use Rattle.std.specs.Prelude.{◌≡◌};
ghost use Rattle.slip_runs.specs.Run.{closes, run_of, Runs};

use slip_unframing::{Closing, Line};

// What a run comes to.
#[derive(Clone, Copy)]
pub struct Ran {
    // how many of its bytes were taken, from the front: the rest is for the next call
    pub taken: usize,
    // what the last of them closes
    pub closing: Closing,
    // the state for the next byte
    pub line: Line,
}

// Whether a packet is closed.
fn is_closed(closing: Closing) -> bool
    ensures { result ≡ closes closing }
{
    !matches!(closing, Closing::Open)
}

// A run of line bytes: it is taken up to and with the byte that closes a packet, or whole where none does. The buffer is lent as for
// `slip_unframing::step`; a packet that is closed is to be read before the rest of the run is handed over.
pub fn run(line: Line, bytes: &[u8], buffer: &mut [u8]) -> Ran
    ensures { Runs (run_of line bytes.now buffer.old) result buffer.new }
{
    let mut state = line;
    for (i, byte) in bytes.iter().enumerate() {
        let stepped = slip_unframing::step(state, *byte, buffer);
        if is_closed(stepped.closing) {
            return Ran {
                taken: i + 1,
                closing: stepped.closing,
                line: stepped.line,
            };
        }
        state = stepped.line;
    }
    Ran {
        taken: bytes.len(),
        closing: Closing::Open,
        line: state,
    }
}
