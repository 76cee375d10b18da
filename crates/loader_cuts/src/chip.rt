// A loader with the memory that is lent to it, and what its calls leave.
use loader::{Answer, LONGEST_ANSWER, Loader, Note};
use slip_framing::{LONGEST, LONGEST_FRAME};
use tables::part;

const FLASH_LENGTH: usize = 65536;

const WORDS: usize = 4096;

// What the calls of a row tell and send takes at most six bytes for each of the row's, of which there are 8,242 at most. A packet that is
// answered has nine or more on the line and takes 50, seven numbers of four bytes and an answer of 22; one that is answered with a digest
// has 25, and takes 28 and 54; a dropped one has two, and takes three numbers. No call is refused: the buffers are long enough, and the
// record is the loader's own.
const TOLD: usize = 6 * LONGEST_FRAME;

// What the calls told that did not only take bytes, as numbers, and behind each one's numbers what it sent, whose length is among them.
#[derive(Drop)]
struct Told {
    bytes: [u8; TOLD],
    used: usize,
}

impl Told {
    fn put(&mut self, bytes: &[u8]) {
        lists::copy_at(&mut self.bytes, self.used, bytes);
        self.used = self.used.wrapping_add(bytes.len());
    }

    fn put_numbers(&mut self, numbers: &[u32]) {
        for number in numbers {
            self.put(&number.to_le_bytes());
        }
    }

    fn as_slice(&self) -> &[u8] {
        part(&self.bytes, 0, self.used)
    }
}

// What was told stands beside the loader: no other program keeps it, so the struct is this one's. In arrays and not on the heap: a row for
// which there was no memory would be told as `WRONG`, though the loader is right.
#[derive(Drop)]
pub struct Chip {
    loader: Loader,
    packet: [u8; LONGEST],
    answer: [u8; LONGEST_ANSWER],
    flash: [u8; FLASH_LENGTH],
    words: [u32; WORDS],
    told: Told,
}

// What the caller is to do, and where it is to jump.
fn numbers_of(note: Note) -> [u32; 2] {
    match note {
        Note::Nothing => [0, 0],
        Note::Reboot => [1, 0],
        Note::Stay => [2, 0],
        Note::Jump(address) => [3, address],
    }
}

impl Chip {
    // A fresh loader, over zeros.
    pub fn new() -> Chip {
        Chip {
            loader: loader::new(),
            packet: [0; LONGEST],
            answer: [0; LONGEST_ANSWER],
            flash: [0; FLASH_LENGTH],
            words: [0; WORDS],
            told: Told {
                bytes: [0; TOLD],
                used: 0,
            },
        }
    }

    // A fresh loader, over zeros, in the place of one that was fed, as a chip is large.
    pub fn restart(&mut self) {
        self.loader = loader::new();
        self.packet.fill(0);
        self.answer.fill(0);
        self.flash.fill(0);
        self.words.fill(0);
        self.told.used = 0;
    }

    // Keeps what a call told.
    fn keep(&mut self, answer: Answer) {
        match answer {
            Answer::Taken => {},
            Answer::Refused(number) => self.told.put_numbers(&[1, u32::from(number)]),
            Answer::Dropped { stored, reason } => {
                self.told
                    .put_numbers(&[2, (stored % 65536) as u32, reason as u32]);
            }
            Answer::Answered {
                stored,
                command,
                error,
                sent,
                note,
            } => {
                let [what, address] = numbers_of(note);
                self.told.put_numbers(&[
                    3,
                    (stored % 65536) as u32,
                    u32::from(command),
                    u32::from(error),
                    (sent % 65536) as u32,
                    what,
                    address,
                ]);
                self.told.put(part(&self.answer, 0, sent));
            }
        }
    }

    // Feeds it a byte.
    pub fn feed(&mut self, byte: u8) {
        let fed = loader::feed(
            self.loader,
            byte,
            &mut self.packet,
            &mut self.answer,
            &mut self.flash,
            &mut self.words,
        );
        self.loader = fed.loader;
        self.keep(fed.answer);
    }

    // Hands a run over; how many bytes of it are taken.
    fn hand(&mut self, run: &[u8]) -> usize {
        let fed = loader::feed_run(
            self.loader,
            run,
            &mut self.packet,
            &mut self.answer,
            &mut self.flash,
            &mut self.words,
        );
        self.loader = fed.loader;
        self.keep(fed.answer);
        fed.taken
    }

    // Hands a run over, be it empty, and what a call leaves of it again until nothing is left. A call that is not refused takes some of
    // what it is handed, so there are no more calls than bytes but for the first.
    pub fn hand_over(&mut self, run: &[u8]) {
        let mut rest = run;
        for _ in 0..=run.len() {
            let taken = self.hand(rest);
            rest = part(rest, taken, rest.len());
            if rest.is_empty() {
                break;
            }
        }
    }

    // The record, as numbers, as what is told is too: no other code compares records, so derives of `==` for eight types of
    // six of the chip's libraries would serve this program alone.
    fn record(&self) -> [u32; 10] {
        let loader = self.loader;
        let begin = loader_sessions::announced_by(loader.session);
        [
            loader.line.phase as u32,
            (loader.line.held % 65536) as u32,
            u32::from(loader_sessions::flash_open(loader.session)),
            u32::from(loader_sessions::memory_open(loader.session)),
            begin.size,
            begin.count,
            begin.block,
            begin.offset,
            loader_sessions::accepted_by(loader.session),
            loader.attach,
        ]
    }

    // Whether two ways of feeding left the same. How much was told is compared by itself too: a wrong loader might tell more than fits.
    pub fn agrees(&self, other: &Chip) -> bool {
        self.told.used == other.told.used
            && self.told.as_slice() == other.told.as_slice()
            && self.record() == other.record()
            && self.answer[..] == other.answer[..]
            && self.packet[..] == other.packet[..]
            && self.flash[..] == other.flash[..]
            && self.words[..] == other.words[..]
    }
}
