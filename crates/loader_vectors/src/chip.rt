// The operations of the table. What they give stands at the front of a buffer, and they say how many bytes it is.
use crate::loads::{IMAGE, LINE, load_of};
use crate::names::{Operation, Reading};
use crate::plain;
use fields::{FIRST_WORD, word_at};
use loader::Answer;
use slip_framing::{LONGEST, LONGEST_FRAME};
use slip_unframing::Closing;
use tables::{Runner, part, put, put_word};

// The most bytes of a field: the longest frame.
pub const LONGEST_FIELD: usize = LONGEST_FRAME;

pub const FLASH_LENGTH: usize = 65536;

pub const WORDS: usize = 4096;

// The error of a call that does not answer: no command has it. A byte, as the rows of the table expect it.
const SILENT: u8 = 0xEE;

// Of some calls: how many packets they closed, the bits of all their errors, and all that the last one told.
#[derive(Clone, Copy)]
struct Said {
    closed: u8,
    errors: u8,
    last: Answer,
}

impl Said {
    // One more call.
    fn add(&mut self, answer: Answer) {
        self.last = answer;
        match answer {
            Answer::Taken => {},
            Answer::Refused(_) => self.errors |= SILENT,
            Answer::Dropped { .. } => {
                self.closed = self.closed.wrapping_add(1);
                self.errors |= SILENT;
            }
            Answer::Answered { error, .. } => {
                self.closed = self.closed.wrapping_add(1);
                self.errors |= error;
            }
        }
    }

    // How many bytes the last call sent.
    fn sent(&self) -> usize {
        match self.last {
            Answer::Answered { sent, .. } => sent,
            _ => 0,
        }
    }

    // The bits of all errors, and that the last call did not answer.
    fn errors(&self) -> u8 {
        match self.last {
            Answer::Answered { .. } => self.errors,
            _ => self.errors | SILENT,
        }
    }
}

// The listing's line of a call, as of the first packet: none where it closes no packet.
fn put_line(answer: Answer, got: &mut [u8]) -> usize {
    listing_report::line(1, answer, got, 0).unwrap_or(0)
}

// The packet that the last of some line bytes closes, or why it is broken.
fn unframe(bytes: &[u8], got: &mut [u8]) -> usize {
    let mut line = slip_unframing::new();
    let mut closing = Closing::Open;
    for byte in bytes {
        let stepped = slip_unframing::step(line, *byte, got);
        line = stepped.line;
        closing = stepped.closing;
    }
    match closing {
        Closing::Open => 0,
        Closing::Whole(n) => n,
        Closing::Broken(stored, reason) => put_line(Answer::Dropped { stored, reason }, got),
    }
}

// The flash that the last loader left, which is all that stays of one here. An array, as each buffer of this program: it fails nowhere for
// want of memory.
#[derive(Drop)]
pub struct Chip {
    flash: [u8; FLASH_LENGTH],
}

impl Chip {
    pub fn new() -> Chip {
        Chip {
            flash: [0; FLASH_LENGTH],
        }
    }

    // Feeds a fresh loader, over flash and words of zeros. All bytes are handed over, and what a call leaves of them again until nothing
    // is left. A call that is not refused takes some of what it is handed, so there are no more calls than bytes.
    fn feed(&mut self, bytes: &[u8], answer: &mut [u8]) -> Said {
        let mut packet = [0u8; LONGEST];
        let mut words = [0u32; WORDS];
        self.flash.fill(0);
        let mut loader = loader::new();
        let mut said = Said {
            closed: 0,
            errors: 0,
            last: Answer::Taken,
        };
        let mut rest = bytes;
        for _ in bytes {
            if rest.is_empty() {
                break;
            }
            let fed = loader::feed_run(
                loader,
                rest,
                &mut packet,
                answer,
                &mut self.flash,
                &mut words,
            );
            loader = fed.loader;
            said.add(fed.answer);
            rest = part(rest, fed.taken, rest.len());
        }
        said
    }

    // What is read off a loader that is fed.
    fn read(&mut self, reading: Reading, bytes: &[u8], got: &mut [u8]) -> usize {
        let said = self.feed(bytes, got);
        match reading {
            Reading::Answer => said.sent(),
            Reading::Closes => put(&[said.closed], got),
            Reading::Errors => put(&[said.errors()], got),
            Reading::Line => put_line(said.last, got),
        }
    }

    // The flash's bytes at some addresses, 0 past its end.
    fn put_flash(&self, addresses: &[u8], got: &mut [u8]) -> usize {
        for (to, address) in got.iter_mut().zip(addresses.chunks_exact(4)) {
            let at = word_at(address, 0) as usize;
            *to = self.flash.get(at).copied().unwrap_or(0);
        }
        addresses.len() / 4
    }

    // 0xFF where the flash is erased from one address up to another, else 0, as the rows of the table expect it.
    fn erased(&self, from: u32, upto: u32) -> u8 {
        let stretch = part(&self.flash, from as usize, upto as usize);
        if !stretch.is_empty() && stretch.iter().all(|byte| *byte == 0xFF) {
            0xFF
        } else {
            0
        }
    }

    // How many packets a load has, how many a loader closes that is fed them, and the bits of all its errors; or the number that the load is
    // refused with.
    fn load(&mut self, input: &[u8], got: &mut [u8]) -> usize {
        let mut image = [0u8; IMAGE];
        let load = load_of(input, &mut image);
        match load.packet_count() {
            Err(error) => put(&[error.into()], got),
            Ok(count) => {
                let mut line = [0u8; LINE];
                let n = load.put_line(count, &mut line);
                let said = self.feed(part(&line, 0, n), got);
                put(&[(count % 256) as u8, said.closed, said.errors()], got)
            }
        }
    }
}

// The packet with a number, of a load behind it.
fn put_packet(input: &[u8], got: &mut [u8]) -> usize {
    let mut image = [0u8; IMAGE];
    let load = load_of(part(input, 4, input.len()), &mut image);
    load.put_packet(word_at(input, 0) as usize, got)
}

impl Runner for Chip {
    type Operation = Operation;

    fn run(&mut self, operation: Operation, input: &[u8], got: &mut [u8]) -> usize {
        match operation {
            Operation::Checksum => put(&[fields::checksum_from(input, 0)], got),
            Operation::Command => put(&[esp_commands::command_of(input)], got),
            Operation::Record => put(&[plain::record(word_at(input, 0))], got),
            Operation::Size => put_word(fields::half_at(input, 2), got),
            Operation::Value => put_word(word_at(input, 4), got),
            Operation::Address => put_word(word_at(input, FIRST_WORD), got),
            Operation::Merge => put_word(plain::merge(input), got),
            Operation::Pack => plain::pack(input, got),
            Operation::Frame => plain::frame(input, got),
            Operation::Unframe => unframe(input, got),
            Operation::Feed(reading) => self.read(reading, input, got),
            Operation::Flash => self.put_flash(input, got),
            Operation::Erased => put(&[self.erased(word_at(input, 0), word_at(input, 4))], got),
            Operation::Packet => put_packet(input, got),
            Operation::Load => self.load(input, got),
        }
    }
}
