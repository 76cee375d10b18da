// The operations on a link.
use crate::names::{Call, Operation, Reading};
use link::{Event, Link, Next, Payload};
use tables::{Runner, part, put, put_word};

// The answer buffer, and more than the longest frame.
pub const MOST: usize = 128;

// What the last call told: a link that was opened, with the number of its refusal where there is one, or an event.
#[derive(Clone, Copy)]
enum Said {
    Opening(Option<u8>),
    Event(Event),
}

// A link, the buffer of its answers, and of its last call what it told, the bytes of data that it handed over, and how many it sent; how
// many bytes of its row were heard up to it, and whether one of the row's calls told that the link was lost.
#[derive(Clone, Copy)]
pub struct Probe {
    link: Link,
    answer: [u8; MOST],
    said: Said,
    bytes: Payload,
    sent: usize,
    heard: usize,
    lost: bool,
}

// A fresh link of an edition.
fn fresh(edition: u8) -> Link {
    link::new(edition).link
}

// A poll of the link as it stands, but for its edition and its power, which are two of the bytes.
fn poll_record(link: Link, bytes: &[u8], tick: u32, answer: &mut [u8]) -> Next {
    let mut record = link;
    record.edition = bytes.first().copied().unwrap_or(0);
    record.power = matches!(bytes.get(1), Some(1));
    link::poll(record, tick, answer)
}

// An event, with the status of a failure, the number of a refusal or the power state.
fn put_event(event: Event, got: &mut [u8]) -> usize {
    match event {
        Event::Nothing => put(&[0x00], got),
        Event::Opened(_) => put(&[0x01], got),
        Event::Handed(_) => put(&[0x02], got),
        Event::Confirmed => put(&[0x03], got),
        Event::Failed(status) => put(&[0x04, status], got),
        Event::DetectedError => put(&[0x05], got),
        Event::Refused(refusal) => put(&[0x06, refusal.into()], got),
        Event::Powered(on) => put(&[0x07, u8::from(on)], got),
    }
}

fn put_said(said: Said, got: &mut [u8]) -> usize {
    match said {
        Said::Opening(None) => put(&[0x00], got),
        Said::Opening(Some(number)) => put(&[0x06, number], got),
        Said::Event(event) => put_event(event, got),
    }
}

impl Probe {
    // A link that is open for the first edition.
    pub fn new() -> Probe {
        Probe {
            link: fresh(link::FIRST_EDITION),
            answer: [0; MOST],
            said: Said::Opening(None),
            bytes: [0; link_frames::MOST_DATA],
            sent: 0,
            heard: 0,
            lost: false,
        }
    }

    fn open(&mut self, edition: u8) {
        let opening = link::new(edition);
        self.link = opening.link;
        self.said = Said::Opening((opening.refusal != 0).then_some(opening.refusal));
        self.bytes = [0; link_frames::MOST_DATA];
        self.sent = 0;
        self.heard = 0;
        self.lost = false;
    }

    // Keeps what a call handed back.
    fn keep(&mut self, next: Next) {
        let told = next.told;
        let bytes = told.bytes;
        self.link = next.link;
        self.said = Said::Event(told.event);
        self.bytes = bytes;
        self.sent = told.sent;
        self.lost |= told.lost;
    }

    // Bytes heard at one tick, up to the one that shows an error. The first one's call can tell that the link was lost; this is kept over
    // the others' calls.
    fn hear(&mut self, bytes: &[u8], tick: u32) {
        self.lost = false;
        for (i, byte) in bytes.iter().enumerate() {
            let next = link::byte(self.link, *byte, tick, &mut self.answer);
            self.keep(next);
            self.heard = i + 1;
            if let Said::Event(Event::DetectedError) = self.said {
                return;
            }
        }
    }

    // A pull of a fresh link of the same edition or of the link as it stands, data that is sent, or a poll.
    fn call(&mut self, call: Call, bytes: &[u8], tick: u32) {
        let link = self.link;
        let answer = &mut self.answer;
        let next = match call {
            Call::Pull => link::pull(fresh(link.edition), tick, answer),
            Call::Repull => link::pull(link, tick, answer),
            Call::Send => link::send(link, bytes, tick, answer),
            Call::Record => poll_record(link, bytes, tick, answer),
            Call::Poll => link::poll(link, tick, answer),
        };
        self.lost = false;
        self.keep(next);
        self.heard = 0;
    }

    // How many bytes of data the last call handed over.
    fn handed(&self) -> usize {
        match self.said {
            Said::Event(Event::Handed(count)) => count,
            _ => 0,
        }
    }

    fn read(&self, reading: Reading, got: &mut [u8]) -> usize {
        match reading {
            Reading::Rate => put_word(self.link.rate, got),
            Reading::Phase => put(&[self.link.phase as u8], got),
            Reading::Sent => put(part(&self.answer, 0, self.sent), got),
            Reading::Handed => put(part(&self.bytes, 0, self.handed()), got),
            Reading::Heard => put_word((self.heard % 256) as u32, got),
            Reading::Lost => put(&[u8::from(self.lost)], got),
            Reading::Power => put(&[u8::from(self.link.power)], got),
        }
    }
}

impl Runner for Probe {
    type Operation = Operation;

    // The calls are at the tick that the first four bytes are; a link is opened at none.
    fn run(&mut self, operation: Operation, input: &[u8], got: &mut [u8]) -> usize {
        let tick = fields::word_at(input, 0);
        let bytes = part(input, 4, input.len());
        match operation {
            Operation::Open => self.open(input.first().copied().unwrap_or(0)),
            Operation::Hear => self.hear(bytes, tick),
            Operation::Call(call) => self.call(call, bytes, tick),
            Operation::Read(reading) => return self.read(reading, got),
        }
        put_said(self.said, got)
    }
}
