// The answer to a read packet, framed at the front of the answer buffer.
#![tactic(auto)]

ghost use Rattle.std.specs.Prelude.{◌≡◌, ◌++◌};
ghost use Rattle.loader_answers.specs.Answer.{status_bytes, answer_with, answer_bytes};
ghost use Rattle.loader_answers.specs.Reply.{Replies};

use digest::DigestBytes;
use esp_commands::status_of;
use slip_framing::LONGEST;

// The least answer buffer: no answer is longer than 26 bytes, 8 of header, 16 of digest and 2 of status, each escaped to at most two,
// between two C0.
pub const LONGEST_ANSWER: usize = 54;

// The direction of an answer.
const DIRECTION: u8 = 1;

// How many status bytes end an answer.
const STATUS_LENGTH: usize = 2;

type StatusBytes = [u8; STATUS_LENGTH];

// The status bytes that end an answer.
fn status_bytes(error: u8) -> StatusBytes
    ensures { result ≡ status_bytes error }
{
    [status_of(error), error]
}

// Writes an answer with a body of any length and the status bytes behind it; how many bytes from the front of the buffer are to be sent.
// 0 is no error here: `Replies.sent` has it where nothing is sent. The parameters are the parts of an answer, in their order.
fn send(command: u8, value: u32, body: &[u8], status: &StatusBytes, answer: &mut [u8]) -> usize
    ensures { Replies (answer_with command value (body.now ++ status.now))
        answer.old result answer.new }
{
    if LONGEST < body.len() {
        return 0;
    }
    let size = body.len() + STATUS_LENGTH;
    let head = fields::header(DIRECTION, command, size as u32, value);
    slip_framing::frame_parts(&head, body, status, answer).unwrap_or(0)
}

// Writes an answer, with a digest before its status bytes where there is one; how many bytes from the front of the buffer are to be sent.
// Where the buffer is too short for it, none; LONGEST_ANSWER bytes hold every answer. The error is a byte: any is sent.
// The parameters are the parts of an answer, as at `send`.
pub fn reply(
    command: u8,
    error: u8,
    value: u32,
    body: Option<DigestBytes>,
    answer: &mut [u8],
) -> usize
    ensures { Replies (answer_bytes command error value body) answer.old result answer.new }
{
    let status = status_bytes(error);
    match body {
        Some(digest) => send(command, value, &digest, &status, answer),
        None => send(command, value, b"", &status, answer),
    }
}
