// The calls of the link for an interrupt handler: the record is lent, and is found updated; a refused call leaves it as it was.
// What each asks of the caller stands at the call of the same name in `link`, and at `link::Told` and `link::Event`: lend an answer
// buffer of at least 67 bytes, and send the first `sent` of them; on `lost` and on `DetectedError` the line goes back to 9600, the 5 V
// are switched off if they are on, and outstanding data is gone; on `Powered` they are switched, behind the reply. A record is lent to one call
// at a time, so a handler must not interrupt another call on it.
// Each function is thin: it calls the step of its name by value and stores the record that comes back. A function for that would save no line.
#![tactic(auto)]

ghost use Rattle.std.specs.Prelude.{◌≡◌};
ghost use Rattle.link.specs.Answers.{came};
ghost use Rattle.link.specs.Step.{pull_step, byte_step, poll_step, send_step};

use link::{Link, Told};

// The line was pulled: send the heartbeat, where there is one, at 9600.
pub fn pull(link: &mut Link, tick: u32, buffer: &mut [u8]) -> Told
    ensures { came link.new result buffer.new ≡ pull_step link.old tick buffer.old }
{
    let pulled = link::pull(*link, tick, buffer);
    *link = pulled.link;
    pulled.told
}

// A byte was received, at this tick. On `Opened` send the reply at 9600 before the line is switched to the rate.
pub fn byte(link: &mut Link, byte: u8, tick: u32, buffer: &mut [u8]) -> Told
    ensures { came link.new result buffer.new ≡ byte_step link.old byte tick buffer.old }
{
    let heard = link::byte(*link, byte, tick, buffer);
    *link = heard.link;
    heard.told
}

// Time has passed.
pub fn poll(link: &mut Link, tick: u32, buffer: &mut [u8]) -> Told
    ensures { came link.new result buffer.new ≡ poll_step link.old tick buffer.old }
{
    let polled = link::poll(*link, tick, buffer);
    *link = polled.link;
    polled.told
}

// Data is to be sent, at most 64 bytes; it is outstanding until `Confirmed` or `Failed`.
pub fn send(link: &mut Link, bytes: &[u8], tick: u32, buffer: &mut [u8]) -> Told
    ensures { came link.new result buffer.new ≡ send_step link.old bytes.now tick buffer.old }
{
    let sending = link::send(*link, bytes, tick, buffer);
    *link = sending.link;
    sending.told
}
