// The link's record: how a phase starts, the rates, and what time does to a record.
#![tactic(auto)]

mod clock;

ghost use Rattle.std.specs.Prelude.{◌≡◌};
ghost use Rattle.link_state.specs.Link.{entering, fresh, renewed};
ghost use Rattle.link_state.specs.Opening.{opening};
ghost use Rattle.link_state.specs.Silence.{lost, checked};
ghost use Rattle.link_state.specs.Rates.{on_list};

use link_frames::Holder;

// The rate of a connection until another is agreed on, and of the line in Start and Baud.
pub const FIRST_RATE: u32 = 9600;

// The refusal of an edition other than 1 or 2.
const UNKNOWN_EDITION: u8 = 18;

// The phases of a connection. The caller keeps the line at 9600 but in Open.
#[derive(Clone, Copy)]
pub enum Phase {
    // No connection: a pull of the line is awaited, and bytes are ignored.
    Start,
    // The line was pulled: a baud frame is awaited.
    Baud,
    // A rate is agreed on, and the line is at it. For the first 25 ms, dead time, bytes are ignored.
    Open,
}

// The link's record. A caller makes it with `new`, hands it to each call and keeps the one that comes back; it sets no field itself.
#[derive(Clone, Copy)]
pub struct Link {
    // What the link was opened for: 1, the first edition of the protocol, or 2, the later one. No call changes it. A number, since refusal 5
    // judges records that hold any (`link_claims::EditionJudged`).
    pub edition: u8,
    // The module has asked for the 5 V, which the caller then gives: on only in Open, under the later edition. A loss or a detected error
    // switches them off.
    pub power: bool,
    // The flags and the rate stand beside it and not in its cases: refusal 5 judges records in which they do not go with it.
    pub phase: Phase,
    // What the line is to be at: 9600 but in Open. The reply to the baud frame that changes it is still sent at 9600.
    pub rate: u32,
    // The tick of the last activity, which is entry to Baud and the last byte of a frame that is no detected error, whatever status it
    // gets. A byte that is held is not activity, nor is what is sent. Dead time counts from it too: the baud frame is the last activity then.
    pub last: u32,
    // Dead time runs: bytes are ignored, and a send is refused with 12. The first call at 25 ms or more that is not refused ends it; a
    // send is judged as if it had ended then.
    pub dead: bool,
    // RPC is open: only then is data handed over, and can data be sent.
    pub rpc: bool,
    // A data frame of ours waits for its status: until then a send is refused with 13. A loss or a detected error drops it.
    pub outstanding: bool,
    // How many bytes of the frame being received are held: its type byte, `kind`, and then its contents in `frame`. All behind them is zero.
    // `kind` is a byte, since refusal 5 judges records that hold any; the scope names an array for the contents.
    pub held: usize,
    pub kind: u8,
    pub frame: Holder,
}

// A fresh record of an edition, which a return to Start gives: nothing is held.
pub fn restart(edition: u8) -> Link
    ensures { result ≡ fresh edition }
{
    let frame = [0u8; link_frames::MOST_CONTENTS];
    Link {
        edition,
        power: false,
        phase: Phase::Start,
        rate: FIRST_RATE,
        last: 0,
        dead: false,
        rpc: false,
        outstanding: false,
        held: 0,
        kind: 0,
        frame,
    }
}

// The record at the start of a phase: the parameters are the fields that a start sets.
pub fn enter(edition: u8, phase: Phase, rate: u32, last: u32, dead: bool) -> Link
    ensures { result ≡ entering edition phase rate last dead }
{
    Link {
        phase,
        rate,
        last,
        dead,
        ..restart(edition)
    }
}

// The record after a whole frame: the holder is at rest again.
pub fn renew(link: Link, tick: u32) -> Link
    ensures { result ≡ renewed link tick }
{
    Link {
        last: tick,
        held: 0,
        kind: 0,
        frame: [0u8; link_frames::MOST_CONTENTS],
        ..link
    }
}

// The rates that this end can run at.
pub fn on_list(rate: u32) -> bool
    ensures { result ≡ on_list rate }
{
    matches!(rate, FIRST_RATE | 19200 | 38400 | 57600 | 115200 | 230400)
}

// Whether the link is lost to silence; in Start there is nothing to lose.
pub fn is_lost(phase: Phase, last: u32, tick: u32) -> bool
    ensures { result ≡ lost phase last tick }
{
    match phase {
        Phase::Start => false,
        Phase::Baud | Phase::Open => clock::silent(last, tick),
    }
}

// The record after the silence and dead time checks.
pub fn after_checks(link: Link, tick: u32) -> Link
    ensures { result ≡ checked link tick }
{
    if is_lost(link.phase, link.last, tick) {
        restart(link.edition)
    } else {
        Link {
            dead: clock::still_dead(link.dead, link.last, tick),
            ..link
        }
    }
}

// What opening a link gives. It is no Result: the record comes with 18 too, one of the edition that was asked for, as
// `link_claims::OpeningIs` says.
#[derive(Clone, Copy)]
pub struct Opening {
    // 0, or 18 where there is no such edition.
    pub refusal: u8,
    // The fresh record; with 18 one that every call refuses with 5.
    pub link: Link,
}

// Opens a link for the first edition, 1, or the later one, 2. The line is to be at 9600, and the 5 V off.
pub fn new(edition: u8) -> Opening
    ensures { result ≡ opening edition }
{
    let refusal = if link_frames::is_edition(edition) {
        0
    } else {
        UNKNOWN_EDITION
    };
    let link = restart(edition);
    Opening { refusal, link }
}
