// A whole packet that was closed: dropped by its header, or obeyed and answered.
#![tactic(auto)]

ghost use Rattle.std.specs.Prelude.{◌≡◌, length};
ghost use Rattle.slip_unframing.specs.Reasons.{whole};
ghost use Rattle.slip_packets.specs.Packets.{header};
ghost use Rattle.loader_act.specs.Acts.{core_of, acted, Acts};

use esp_header::{Packet, read_packet};
use loader_notes::Note;
use loader_state::Loader;
use slip_unframing::Reason;

// What a call answers. A refusal stands as its number, since `listing_lines::line` takes an answer with any number.
#[derive(Clone, Copy)]
pub enum Answer {
    // refused with this number: no byte is taken and nothing has changed. Put right what was lent or handed over (1 packet buffer,
    // 2 answer buffer, 3 flash, 4 words, 5 record), and feed the same bytes again
    Refused(u8),
    // all bytes are taken, and close nothing: nothing to send
    Taken,
    // a packet, of which `stored` bytes went into the packet buffer, is closed and dropped for this reason: nothing to send
    Dropped {
        stored: usize,
        reason: Reason,
    },
    // a packet of `stored` bytes is closed, read and answered: send the first `sent` bytes of the answer buffer, and then do what the note says.
    // Command and error are the bytes of the answer: `listing_lines::line` takes any
    Answered {
        stored: usize,
        command: u8,
        error: u8,
        sent: usize,
        note: Note,
    },
}

// The answer to one byte, and the record for the next call, whatever the answer.
#[derive(Clone, Copy)]
pub struct Fed {
    pub answer: Answer,
    pub loader: Loader,
}

// A whole packet that was closed. A session that refusal 5 would strike counts as none, and an answer that the buffer does not hold is
// not sent: `sent` is then 0. The buffers are parameters, as at `loader_run::feed_run`.
pub fn act(
    loader: Loader,
    packet: &[u8],
    answer: &mut [u8],
    flash: &mut [u8],
    words: &mut [u32],
) -> Fed
    ensures { Acts
        (acted (core_of loader flash.old words.old) (header (whole packet.now)))
        loader (length packet.now) answer.old result
        answer.new flash.new words.new }
{
    let stored = packet.len();
    let closed = read_packet(packet);
    let Packet::Read(command) = closed else {
        let Packet::Dropped(reason) = closed else {
            unreachable!()
        };
        return Fed {
            answer: Answer::Dropped { stored, reason },
            loader,
        };
    };
    let done = loader_effects::obey(packet, loader.session, loader.attach, flash, words);
    let sent = loader_answers::reply(command, done.error, done.value, done.body, answer);
    Fed {
        answer: Answer::Answered {
            stored,
            command,
            error: done.error,
            sent,
            note: done.note,
        },
        loader: Loader {
            session: done.session,
            attach: done.attach,
            ..loader
        },
    }
}
