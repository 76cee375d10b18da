// Unframing: the byte step, which stores a packet's bytes and closes it at C0.
#![tactic(auto)]

ghost use Rattle.std.specs.Prelude.{◌≡◌, ℕ, List};
ghost use Rattle.slip_unframing.specs.Line.{line_state, fresh, store, await_end, phase_step, step_of, Steps};

use slip_framing::{END, ESC, ESC_END, ESC_ESC, LONGEST};

// Where the line stands: before the first C0, inside a packet, after DB, after a bad escape, past the longest packet.
#[derive(Clone, Copy)]
pub enum Phase {
    Outside,
    Inside,
    Escape,
    Damaged,
    Overlong,
}

// The line's state: its phase, and how many bytes of the open packet are stored, at the front of a buffer that is lent, since there is no
// heap. The caller keeps it from byte to byte.
#[derive(Clone, Copy)]
pub struct Line {
    pub phase: Phase,
    pub held: usize,
}

// Why a packet is dropped, by what happened first in it. The first three are told when it is closed; a whole packet is judged by its
// header.
#[derive(Clone, Copy)]
pub enum Reason {
    // DB before a byte that is no part of an escape
    BadEscape,
    // DB before the closing C0
    CutEscape,
    // one byte more than the longest packet has, or than the buffer holds
    TooLong,
    // fewer bytes than a header has
    TooShort,
    // it has a header, and its direction is not 0
    WrongDirection,
}

// What a byte closes.
#[derive(Clone, Copy)]
pub enum Closing {
    // nothing: feed the next byte
    Open,
    // a whole packet: so many bytes from the front of the buffer, to be read before the next byte is fed
    Whole(usize),
    // a packet that is damaged or too long, with so many bytes stored: drop it, and hand on why
    Broken(usize, Reason),
}

// What a byte closes, and the state for the next byte.
#[derive(Clone, Copy)]
pub struct Stepped {
    pub closing: Closing,
    pub line: Line,
}

// The state before the first byte; the caller begins with it.
pub fn new() -> Line
    ensures { result ≡ fresh }
{
    Line {
        phase: Phase::Outside,
        held: 0,
    }
}

// Nothing is closed.
fn silent(phase: Phase, held: usize) -> Stepped
    ensures { result ≡ record { closing = Closing.Open; line = line_state phase held } }
{
    Stepped {
        closing: Closing::Open,
        line: Line { phase, held },
    }
}

// A packet is closed, and the next one opened.
fn closed(closing: Closing) -> Stepped
    ensures { result ≡ record { closing = closing; line = line_state Phase.Inside 0 } }
{
    Stepped {
        closing,
        line: Line {
            phase: Phase::Inside,
            held: 0,
        },
    }
}

// One unescaped byte stored behind those held, where it is not past the longest packet or the buffer.
fn store_byte(held: usize, byte: u8, buffer: &mut [u8]) -> Stepped
    ensures { Steps (store held byte buffer.old) result buffer.new }
{
    if held < LONGEST {
        if held < buffer.len() {
            buffer[held] = byte;
            return silent(Phase::Inside, held + 1);
        }
        return silent(Phase::Overlong, held);
    }
    silent(Phase::Overlong, held)
}

// A byte inside a packet. At C0 the bytes held are a whole packet where they are no more than the longest one and in the buffer.
fn step_inside(held: usize, byte: u8, buffer: &mut [u8]) -> Stepped
    ensures { Steps (phase_step Phase.Inside (line_state Phase.Inside held) held byte buffer.old) result buffer.new }
{
    if byte == ESC {
        return silent(Phase::Escape, held);
    }
    if byte != END {
        return store_byte(held, byte, buffer);
    }
    if held == 0 {
        return silent(Phase::Inside, held);
    }
    if (held <= LONGEST) & (held <= buffer.len()) {
        return closed(Closing::Whole(held));
    }
    closed(Closing::Broken(held, Reason::TooLong))
}

// The byte after DB.
fn step_escape(held: usize, byte: u8, buffer: &mut [u8]) -> Stepped
    ensures { Steps (phase_step Phase.Escape (line_state Phase.Escape held) held byte buffer.old) result buffer.new }
{
    if byte == END {
        return closed(Closing::Broken(held, Reason::CutEscape));
    }
    if byte == ESC_END {
        return store_byte(held, END, buffer);
    }
    if byte == ESC_ESC {
        return store_byte(held, ESC, buffer);
    }
    silent(Phase::Damaged, held)
}

// A byte after damage, or past the longest packet: only C0 counts, which tells the reason, and the buffer stays.
fn step_broken(phase: Phase, reason: Reason, held: usize, byte: u8) -> Stepped
    ensures { (buffer : List ℕ) → Steps (await_end reason (line_state phase held) held byte buffer) result buffer }
{
    if byte != END {
        return silent(phase, held);
    }
    closed(Closing::Broken(held, reason))
}

// One byte of the line: the next state, and what the byte closes. Unescaped bytes go into the buffer. The caller lends the same buffer
// for each byte and does not write to it; one of 4,120 bytes holds every packet, and in a shorter one a packet that does not fit is broken.
pub fn step(line: Line, byte: u8, buffer: &mut [u8]) -> Stepped
    ensures { Steps (step_of line byte buffer.old) result buffer.new }
{
    let phase = line.phase;
    let held = line.held;
    match phase {
        Phase::Outside => {
            if byte == END {
                return silent(Phase::Inside, 0);
            }
            silent(Phase::Outside, held)
        }
        Phase::Inside => step_inside(held, byte, buffer),
        Phase::Escape => step_escape(held, byte, buffer),
        Phase::Damaged => step_broken(Phase::Damaged, Reason::BadEscape, held, byte),
        Phase::Overlong => step_broken(Phase::Overlong, Reason::TooLong, held, byte),
    }
}
