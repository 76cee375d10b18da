// Framing of packets by C0, with escapes.
#![tactic(auto)]

ghost use Rattle.std.specs.Prelude.{◌≡◌, ◌++◌, ◌+◌, ◌≤◌, min, length};
ghost use Rattle.lists.specs.Lay.{lay};
ghost use Rattle.slip_framing.specs.Frame.{longest, escape_of, escaped, framed, framing, frame_number, written_as, Frames};

use lists::ensure;

// The longest packet, unescaped.
pub const LONGEST: usize = 4120;

// The longest frame: each of its bytes escaped to two, between two C0.
pub const LONGEST_FRAME: usize = 2 * LONGEST + 2;

// The byte that ends one packet and opens the next; the byte that begins an escape, and the two that may follow it.
pub const END: u8 = 0xC0;

pub const ESC: u8 = 0xDB;

pub const ESC_END: u8 = 0xDC;

pub const ESC_ESC: u8 = 0xDD;

// Why a packet is not framed: nothing is written then, and there is nothing to send.
#[derive(Clone, Copy, PartialEq, Eq)]
pub enum FrameError {
    Empty,
    TooLong,
    BufferTooShort,
}

impl From<FrameError> for u8 {
    ghost from_gives = { λ error number. number ≡ frame_number error };

    fn from(error: FrameError) -> u8 {
        match error {
            FrameError::Empty => 6,
            FrameError::TooLong => 7,
            FrameError::BufferTooShort => 8,
        }
    }
}

// The byte that stands behind ESC for this one, or none where it is written as it is.
fn escape(byte: u8) -> Option<u8>
    ensures { escape_of byte ≡ written_as byte result }
{
    match byte {
        END => Some(ESC_END),
        ESC => Some(ESC_ESC),
        _ => None,
    }
}

// One byte of a packet, escaped, from `at` on; the next place.
fn put(buffer: &mut [u8], at: usize, byte: u8) -> usize
    requires { at + length (escape_of byte) ≤ length buffer.old }
    ensures { (result ≡ at + length (escape_of byte)) × (buffer.new ≡ lay buffer.old at (escape_of byte)) }
{
    match escape(byte) {
        Some(second) => {
            buffer[at] = ESC;
            buffer[at + 1] = second;
            at + 2
        }
        None => {
            buffer[at] = byte;
            at + 1
        }
    }
}

// How many bytes a byte is escaped to.
fn width(byte: u8) -> usize
    ensures { result ≡ length (escape_of byte) }
{
    match escape(byte) {
        Some(_) => 2,
        None => 1,
    }
}

// How many bytes a packet is escaped to.
fn escaped_len(packet: &[u8]) -> usize
    requires { length packet.now ≤ longest }
    ensures { result ≡ length (escaped packet.now) }
{
    let mut n: usize = 0;
    for byte in packet {
        n += width(*byte);
    }
    n
}

// The bytes of a part, escaped, from `at` on; the next place.
fn put_all(buffer: &mut [u8], at: usize, part: &[u8]) -> usize
    requires { at + length (escaped part.now) ≤ length buffer.old }
    ensures { (result ≡ at + length (escaped part.now))
        × (buffer.new ≡ lay buffer.old at (escaped part.now)) }
{
    let mut to = at;
    for byte in part {
        to = put(buffer, to, *byte);
    }
    to
}

// The framed packet at the front of the buffer, which has the space.
fn write_frame(head: &[u8], body: &[u8], tail: &[u8], buffer: &mut [u8])
    requires { length (framed (head.now ++ (body.now ++ tail.now))) ≤ length buffer.old }
    ensures { buffer.new
        ≡ lay buffer.old 0 (framed (head.now ++ (body.now ++ tail.now))) }
{
    buffer[0] = END;
    let after_head = put_all(buffer, 1, head);
    let after_body = put_all(buffer, after_head, body);
    let after_tail = put_all(buffer, after_body, tail);
    buffer[after_tail] = END;
}

// A part's length, counted no further than one past the longest packet: three of them never overflow.
fn counted(part: &[u8]) -> usize
    ensures { result ≡ min (length part.now) (longest + 1) }
{
    part.len().min(LONGEST + 1)
}

// A packet that comes in three parts, framed as `frame` does, with no copy made of it.
pub fn frame_parts(
    head: &[u8],
    body: &[u8],
    tail: &[u8],
    buffer: &mut [u8],
) -> Result<usize, FrameError>
    ensures { Frames (framing (head.now ++ (body.now ++ tail.now)) buffer.old)
        result buffer.new }
{
    let total = counted(head) + counted(body) + counted(tail);
    ensure(0 < total, FrameError::Empty)?;
    ensure(total <= LONGEST, FrameError::TooLong)?;
    let n = escaped_len(head) + escaped_len(body) + escaped_len(tail) + 2;
    ensure(n <= buffer.len(), FrameError::BufferTooShort)?;
    write_frame(head, body, tail, buffer);
    Ok(n)
}

// A packet framed at the front of a buffer: the framed length, how many bytes from the front to send. A buffer of 8,242 bytes holds every
// packet's frame. It is lent, since there is no heap.
pub fn frame(packet: &[u8], buffer: &mut [u8]) -> Result<usize, FrameError>
    ensures { Frames (framing packet.now buffer.old) result buffer.new }
{
    frame_parts(packet, b"", b"", buffer)
}
