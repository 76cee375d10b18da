// The operations on bytes alone. What they give stands at the front of a buffer, and they say how many bytes it is.
use crate::chip::{FLASH_LENGTH, WORDS};
use fields::word_at;
use loader_answers::LONGEST_ANSWER;
use loader_sessions::Session;
use loader_state::{BufferLengths, Loader};
use pins::Pins;
use slip_framing::LONGEST;
use tables::{put, put_word};

// What the packer tells of five pins, HD, Q, D, CS, CLK: their word, or the number that they are refused with.
pub fn pack(bytes: &[u8], got: &mut [u8]) -> usize {
    let packed = pins::pack(Pins {
        hd: word_at(bytes, 0),
        q: word_at(bytes, 4),
        d: word_at(bytes, 8),
        cs: word_at(bytes, 12),
        clk: word_at(bytes, 16),
    });
    match packed {
        Ok(word) => put_word(word, got),
        Err(error) => put(&[error.into()], got),
    }
}

// The number that a call is refused with whose record holds an attach word, 0 where it is not, as the rows of the table expect it.
pub fn record(attach: u32) -> u8 {
    let loader = Loader {
        line: slip_unframing::new(),
        session: Session::Closed,
        attach,
    };
    let buffers = BufferLengths {
        packet: LONGEST,
        answer: LONGEST_ANSWER,
        flash: FLASH_LENGTH,
        words: WORDS,
    };
    match loader_state::judge(loader, buffers) {
        Ok(()) => 0,
        Err(refusal) => refusal.into(),
    }
}

// The merge of three words: the old one, the value, the mask.
pub fn merge(bytes: &[u8]) -> u32 {
    fields::merge(word_at(bytes, 0), word_at(bytes, 4), word_at(bytes, 8))
}

// A packet, framed.
pub fn frame(bytes: &[u8], got: &mut [u8]) -> usize {
    slip_framing::frame(bytes, got).unwrap_or(0)
}
