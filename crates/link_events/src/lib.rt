// What the caller is told and what is sent; what the link makes of a pulled line.
#![tactic(auto)]

ghost use Rattle.std.specs.Prelude.{◌≡◌, true, false};
ghost use Rattle.link_frames.specs.Writing.{Writes, fitting};
ghost use Rattle.link_state.specs.Link.{by_phase};
ghost use Rattle.link_events.specs.Moves.{sent, moved};
ghost use Rattle.link_events.specs.Turns.{quiet, answers, broken, pulled, listens};

use link_frames::Payload;
use link_refusals::Refusal;
use link_state::{Link, Phase};

// What the caller is told. Whichever it is, the first `sent` bytes of the answer buffer are to be sent, and the record that comes back
// is to be kept.
#[derive(Clone, Copy)]
pub enum Event {
    // No more is to be done.
    Nothing,
    // A rate is agreed on: let the reply go out at 9600, and only then switch the line to this rate. For 25 ms from this
    // call's tick bytes are ignored, and a send is refused with 12.
    Opened(u32),
    // Data came: take so many of the 64 bytes beside the event, from the first on. The reply confirms them.
    Handed(usize),
    // The other end has our outstanding data. Nothing is outstanding any more: while RPC is open, more may be sent.
    Confirmed,
    // The other end has not taken our outstanding data: this is its status, 1 or 2. Nothing is outstanding any more: while
    // RPC is open, send the data again, or give it up. A number, as in the frame: `open_frame` is proved for any byte there.
    Failed(u8),
    // The module has asked for the 5 V, true, or no longer needs them, false; told too where they are so already. Let the reply go out,
    // then switch them. They stay so until the next such event, or until a loss or a detected error switches them off.
    Powered(bool),
    // What came is no good frame, or one out of place. The link is in Start: nothing is sent, the line goes back to 9600, the 5 V are
    // switched off if they are on, outstanding data is gone, and the other end has to pull the line again.
    DetectedError,
    // The call did nothing, for this reason; the record comes back as it was, nothing is sent, and a byte is not taken.
    Refused(Refusal),
}

// What is sent for a frame. A caller of the link does not meet it: there the bytes stand in the answer buffer.
#[derive(Clone, Copy)]
pub enum Reply {
    Nothing,
    Heartbeat,
    // Of this code: 0 good, 1 any error, 2 a rate that is not supported. A number, since `write_reply` writes any code.
    Status(u8),
}

// What the link makes of a pull or a byte, before anything is written. A caller of the link does not meet it either.
#[derive(Clone, Copy)]
pub struct Turn {
    pub link: Link,
    pub event: Event,
    pub reply: Reply,
    pub bytes: Payload,
}

// No data is handed over.
pub const NO_DATA: Payload = [0u8; link_frames::MOST_DATA];

// Nothing comes of it.
pub fn stay(link: Link) -> Turn
    ensures { moved result ≡ quiet link }
{
    Turn {
        link,
        event: Event::Nothing,
        reply: Reply::Nothing,
        bytes: NO_DATA,
    }
}

// It is answered, and the caller learns nothing.
pub fn reply_with(link: Link, answer: Reply) -> Turn
    ensures { moved result ≡ answers link (sent answer) }
{
    Turn {
        reply: answer,
        ..stay(link)
    }
}

// A detected error: nothing of the record stays but the edition.
pub fn break_off(link: Link) -> Turn
    ensures { moved result ≡ broken link.edition }
{
    Turn {
        event: Event::DetectedError,
        ..stay(link_state::restart(link.edition))
    }
}

// Whether a pull of the line opens a connection.
fn is_waiting(phase: Phase) -> bool
    ensures { result ≡ by_phase phase true false false }
{
    matches!(phase, Phase::Start)
}

// A pulled line.
pub fn pull_line(link: Link, tick: u32) -> Turn
    ensures { moved result ≡ pulled link tick }
{
    if is_waiting(link.phase) {
        let next = link_state::enter(
            link.edition,
            Phase::Baud,
            link_state::FIRST_RATE,
            tick,
            false,
        );
        reply_with(next, Reply::Heartbeat)
    } else {
        stay(link)
    }
}

// Whether bytes that come are read.
pub fn is_listening(phase: Phase, dead: bool) -> bool
    ensures { result ≡ listens phase dead }
{
    match phase {
        Phase::Start => false,
        Phase::Baud => true,
        Phase::Open => !dead,
    }
}

// A reply at the front of the buffer; how many bytes it has. Where they do not fit none is written, and `Writes` has 0.
pub fn write_reply(answer: Reply, buffer: &mut [u8]) -> usize
    ensures { Writes (fitting buffer.old (sent answer)) buffer.old result buffer.new }
{
    match answer {
        Reply::Nothing => 0,
        Reply::Heartbeat => link_frames::write_heartbeat(buffer),
        Reply::Status(code) => link_frames::write_status(code, buffer),
    }
}
