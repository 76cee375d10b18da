// The hand unit's end of the expansion protocol, as a record that each call takes and hands back.
#![tactic(auto)]

ghost use Rattle.std.specs.Prelude.{◌≡◌, List, true, ℕ, ◌≤◌, ◌<◌, length};
ghost use Rattle.link_refusals.specs.Refusals.{refusal_number, shortest_buffer, checks};
ghost use Rattle.link_frames.specs.Frames.{most_held};
ghost use Rattle.link_state.specs.Link.{store, held_of, kept};
ghost use Rattle.link_refusals.specs.Sound.{holder_good};
ghost use Rattle.link_state.specs.Silence.{lost, checked};
ghost use Rattle.link_events.specs.Moves.{Move, moved};
ghost use Rattle.link_events.specs.declared.Turn.{Turn};
ghost use Rattle.link.specs.Answers.{came, done, refusing};
ghost use Rattle.link.specs.Hearing.{whole_frame, heard, received};
ghost use Rattle.link.specs.Step.{call, pull_step, byte_step, poll_step, send_step};

pub use link_events::Event;
use link_events::Turn;
pub use link_frames::{FIRST_EDITION, Holder, LATER_EDITION, Payload};
pub use link_refusals::Refusal;
pub use link_state::{Link, Opening, Phase, new};

// What a call tells, in the order in which the caller acts on it.
#[derive(Clone, Copy)]
pub struct Told {
    // The link was lost to silence before this call did anything else: the line goes back to 9600, the 5 V are switched off if they are on,
    // and outstanding data and the bytes of an unfinished frame are gone.
    pub lost: bool,
    // So many bytes, the first of the answer buffer, are to be sent; 0 where there is nothing to send.
    pub sent: usize,
    // What came of the call; each case says what it asks for.
    pub event: Event,
    // The data that is handed over, zeros behind it: an array, since there is no heap and no byte is lent for longer than a call.
    pub bytes: Payload,
}

// What a call hands back.
#[derive(Clone, Copy)]
pub struct Next {
    // The record to hand to the next call; the one handed over is of no more use.
    pub link: Link,
    pub told: Told,
}

// The record with one byte more held, which is no activity.
fn keep(link: Link, byte: u8) -> Link
    requires { link.held < most_held }
    ensures { result ≡ kept link byte }
{
    let held = link.held;
    let mut next = link;
    next.held = held + 1;
    if held == 0 {
        next.kind = byte;
    } else {
        next.frame[held - 1] = byte;
    }
    next
}

// A record whose holder is good: what it holds begins a longer good frame, and zeros stand behind it.
#[derive(Clone, Copy)]
struct Receiver {
    link: Link,
    ghost holder: { holder_good link.edition link.held (store link) ≡ true },
}

impl Receiver {
    // A whole frame: all of it but the checksum is held.
    fn frame_whole(self, tick: u32) -> Turn
        ensures { moved result ≡ whole_frame self.link (held_of self.link) tick }
    {
        let link = self.link;
        let next = link_state::renew(link, tick);
        match link.phase {
            Phase::Start => link_events::stay(next),
            Phase::Baud => {
                let rate = fields::word_at(&link.frame, 0);
                link_effects::baud_frame(next, link.kind, rate, tick)
            }
            Phase::Open => link_effects::open_frame(next, link.kind, &link.frame),
        }
    }

    // A byte that is not ignored.
    fn hear(self, byte: u8, tick: u32) -> Turn
        ensures { moved result ≡ heard self.link byte tick }
    {
        let link = self.link;
        if link_frames::lacks_sum(link.edition, link.held, link.kind, link.frame[0]) {
            let contents = &link.frame[..];
            let count = link.held - 1;
            if byte == fields::xor_from(link.kind, &contents[..count], 0) {
                return self.frame_whole(tick);
            }
            return link_events::break_off(link);
        }
        let next = keep(link, byte);
        if link_frames::is_begun(next.edition, next.held, next.kind, next.frame[0]) {
            return link_events::stay(next);
        }
        link_events::break_off(link)
    }

    // A byte, after the silence and dead time checks.
    fn receive(self, byte: u8, tick: u32) -> Turn
        ensures { moved result ≡ received self.link byte tick }
    {
        let link = self.link;
        if link_events::is_listening(link.phase, link.dead) {
            return self.hear(byte, tick);
        }
        link_events::stay(link)
    }
}

// A turn carried out: its reply is written, and the caller is told.
fn answer(turn: Turn, gone: bool, buffer: &mut [u8]) -> Next
    requires { shortest_buffer ≤ length buffer.old }
    ensures { came result.link result.told buffer.new ≡ done gone (moved turn) buffer.old }
{
    let Turn {
        link,
        event,
        reply,
        bytes,
    } = turn;
    let sent = link_events::write_reply(reply, buffer);
    Next {
        link,
        told: Told {
            event,
            lost: gone,
            sent,
            bytes,
        },
    }
}

// A refused call: the record as it came, and nothing sent.
fn refuse(link: Link, refusal: Refusal) -> Next
    ensures { (buffer : List ℕ) → came result.link result.told buffer ≡ refusing (refusal_number refusal) link buffer }
{
    Next {
        link,
        told: Told {
            event: Event::Refused(refusal),
            lost: false,
            sent: 0,
            bytes: link_events::NO_DATA,
        },
    }
}

// A call that is no send: refused, or carried out as this turn of the record after the silence and dead time checks. In line with the
// call, as `poll` is: out of line a poll that finds bytes of a frame held runs an eighth more instructions.
#[inline(always)]
fn carry_out<F: FnOnce(Receiver) -> Turn>(link: Link, tick: u32, buffer: &mut [u8], turn: F) -> Next
    requires { F.IsAlwaysCallable turn }
    ensures { (m : Move) → ((r : Receiver) (t : Turn) → r.link ≡ checked link tick → F.post turn r t → moved t ≡ m) → came result.link result.told buffer.new ≡ call (checks link (length buffer.old)) link (lost link.phase link.last tick) m buffer.old }
{
    match link_refusals::judge(link, buffer.len()) {
        Err(refusal) => refuse(link, refusal),
        Ok(()) => {
            let gone = link_state::is_lost(link.phase, link.last, tick);
            let later = Receiver {
                link: link_state::after_checks(link, tick),
            };
            answer(turn(later), gone, buffer)
        }
    }
}

// The calls. Each is handed the record and the millisecond count, and is lent an answer buffer of at least 67 bytes, of which those
// past what is to be sent stay as they were.

// The line was pulled. In Start, and where the link was lost to silence, the answer is a heartbeat, to be sent at 9600; else there is
// none.
pub fn pull(link: Link, tick: u32, buffer: &mut [u8]) -> Next
    ensures { came result.link result.told buffer.new ≡ pull_step link tick buffer.old }
{
    carry_out(link, tick, buffer, |later| {
        link_events::pull_line(later.link, tick)
    })
}

// A byte was received, at this tick: to be called for each byte, in their order. A frame whose last byte comes 250 ms or more after the
// last activity is lost with the link.
pub fn byte(link: Link, byte: u8, tick: u32, buffer: &mut [u8]) -> Next
    ensures { came result.link result.told buffer.new ≡ byte_step link byte tick buffer.old }
{
    carry_out(link, tick, buffer, |later| later.receive(byte, tick))
}

// Time has passed. Silence, 250 ms without activity, is found by a call only, and a send does not tell it: where no byte comes, this is
// to be called, well within each 250 ms.
#[inline(always)]
pub fn poll(link: Link, tick: u32, buffer: &mut [u8]) -> Next
    ensures { came result.link result.told buffer.new ≡ poll_step link tick buffer.old }
{
    carry_out(link, tick, buffer, |later| link_events::stay(later.link))
}

// Data is to be sent, at most 64 bytes; it is outstanding until an event says `Confirmed` or `Failed`, or until the link is lost or
// an error is detected. A send that finds the link silent is refused with 10 and hands the record back as it came, with power on if it was
// on: the next call of another kind, a poll for instance, tells the loss, and the 5 V go off with that.
pub fn send(link: Link, bytes: &[u8], tick: u32, buffer: &mut [u8]) -> Next
    ensures { came result.link result.told buffer.new ≡ send_step link bytes.now tick buffer.old }
{
    let later = link_state::after_checks(link, tick);
    if let Err(refusal) = link_refusals::judge_send(link, later, bytes.len(), buffer.len()) {
        return refuse(link, refusal);
    }
    let gone = link_state::is_lost(link.phase, link.last, tick);
    let sent = link_frames::write_data(bytes, buffer);
    Next {
        link: Link {
            outstanding: true,
            ..later
        },
        told: Told {
            event: Event::Nothing,
            lost: gone,
            sent,
            bytes: link_events::NO_DATA,
        },
    }
}
