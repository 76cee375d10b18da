// What the link makes of a whole frame, all of it but the checksum held.
#![tactic(auto)]

mod power;

ghost use Rattle.std.specs.Prelude.{◌≡◌, drop, get_or};
ghost use Rattle.link_events.specs.Moves.{said, ended, moved};
ghost use Rattle.link_effects.specs.Whole.{baud_frame, status_frame, start_frame, stop_frame, control_frame, taken_data, open_frame};

use link_events::{Event, Reply, Turn, break_off, reply_with, stay};
use link_frames::{Holder, Kind, Payload};
use link_state::{Link, Phase};

// A whole frame while the rate is agreed on. Its type is a byte, as in the record: a record can hold any.
pub fn baud_frame(link: Link, kind: u8, rate: u32, tick: u32) -> Turn
    ensures { moved result ≡ baud_frame link kind rate tick }
{
    if kind != u8::from(Kind::Baud) {
        break_off(link)
    } else if link_state::on_list(rate) {
        let opened = link_state::enter(link.edition, Phase::Open, rate, tick, true);
        Turn {
            event: Event::Opened(rate),
            ..reply_with(opened, Reply::Status(0))
        }
    } else {
        reply_with(link, Reply::Status(2))
    }
}

// How data that we sent has ended.
fn end_of(code: u8) -> Event
    ensures { said result ≡ ended code }
{
    if code == 0 {
        Event::Confirmed
    } else {
        Event::Failed(code)
    }
}

// A status: the answer to data that we sent.
fn status_frame(link: Link, code: u8) -> Turn
    ensures { moved result ≡ status_frame link code }
{
    if link.outstanding {
        let next = Link {
            outstanding: false,
            ..link
        };
        Turn {
            event: end_of(code),
            ..stay(next)
        }
    } else {
        break_off(link)
    }
}

// A start of RPC. It and a stop stay two functions, as they are two sentences of the protocol: each has its own definition.
fn start_frame(link: Link) -> Turn
    ensures { moved result ≡ start_frame link }
{
    if link.rpc {
        reply_with(link, Reply::Status(1))
    } else {
        reply_with(Link { rpc: true, ..link }, Reply::Status(0))
    }
}

// A stop of RPC; data that is outstanding stays so.
fn stop_frame(link: Link) -> Turn
    ensures { moved result ≡ stop_frame link }
{
    if link.rpc {
        reply_with(Link { rpc: false, ..link }, Reply::Status(0))
    } else {
        reply_with(link, Reply::Status(1))
    }
}

// A start or a stop of RPC, or power on or off. A good frame has none of these two under the first edition, and no other code. The
// code is a number here, since `open_frame` says what it makes of any: one that is neither start nor stop counts as one of power.
fn control_frame(link: Link, code: u8) -> Turn
    ensures { moved result ≡ control_frame link code }
{
    match code {
        link_frames::START => start_frame(link),
        link_frames::STOP => stop_frame(link),
        _ => power::power_frame(link, code == link_frames::POWER_ON),
    }
}

// Data: `count` bytes, zeros behind them.
fn data_frame(link: Link, count: u8, bytes: Payload) -> Turn
    ensures { moved result ≡ taken_data link count bytes }
{
    let open = link.rpc;
    if open {
        Turn {
            event: Event::Handed(usize::from(count)),
            bytes,
            ..reply_with(link, Reply::Status(0))
        }
    } else {
        reply_with(link, Reply::Status(1))
    }
}

// A whole frame in Open.
pub fn open_frame(link: Link, kind: u8, frame: &Holder) -> Turn
    ensures { moved result ≡ open_frame link kind (get_or frame.now 0 0) (drop 1 frame.now) }
{
    match Kind::try_from(kind) {
        Ok(Kind::Heartbeat) => reply_with(link, Reply::Heartbeat),
        Ok(Kind::Status) => status_frame(link, frame[0]),
        Ok(Kind::Baud) => break_off(link),
        Ok(Kind::Control) => control_frame(link, frame[0]),
        Ok(Kind::Data) => data_frame(link, frame[0], link_frames::contents(frame)),
        Err(_) => break_off(link),
    }
}
