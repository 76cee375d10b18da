// The requests around the blocks of a load into flash, framed: SYNC, FLASH_BEGIN, FLASH_END.
#![tactic(auto)]

ghost use Rattle.std.specs.Prelude.{◌≡◌, ◌++◌};
ghost use Rattle.fields.specs.Words.{bytes_of};
ghost use Rattle.slip_framing.specs.Frame.{framing, Frames};
ghost use Rattle.esp_requests.specs.Requests.{sync_packet, begin_packet, end_packet};

use esp_begin::Begin;
use esp_commands::Command;
use slip_framing::FrameError;

// The direction of a request.
pub const DIRECTION: u8 = 0;

// "Checksum fields outside the blocks are 0."
const NO_SUM: u32 = 0;

// The word of FLASH_END: stay in the loader.
const STAY: u32 = 1;

// The bytes of four words.
pub type FourWords = [u8; 16];

// Four words, end to end. (digest has one of two words. One function for both would need a length that is four times a const parameter,
// which cannot be said.)
pub fn four_words(a: u32, b: u32, c: u32, d: u32) -> FourWords
    ensures { result ≡ bytes_of a ++ (bytes_of b ++ (bytes_of c ++ bytes_of d)) }
{
    let p = fields::bytes_of(a);
    let q = fields::bytes_of(b);
    let r = fields::bytes_of(c);
    let s = fields::bytes_of(d);
    [
        p[0], p[1], p[2], p[3], q[0], q[1], q[2], q[3], r[0], r[1], r[2], r[3], s[0], s[1], s[2],
        s[3],
    ]
}

// SYNC, framed.
pub fn sync(buffer: &mut [u8]) -> Result<usize, FrameError>
    ensures { Frames (framing sync_packet buffer.old) result buffer.new }
{
    let head = fields::header(DIRECTION, u8::from(Command::Sync), 36, NO_SUM);
    let rest = [0x55u8; 32];
    slip_framing::frame_parts(&head, b"\x07\x07\x12\x20", &rest, buffer)
}

// FLASH_BEGIN, framed.
pub fn begin(begin: Begin, buffer: &mut [u8]) -> Result<usize, FrameError>
    ensures { Frames (framing (begin_packet begin) buffer.old) result buffer.new }
{
    let head = fields::header(DIRECTION, u8::from(Command::FlashBegin), 16, NO_SUM);
    let words = four_words(begin.size, begin.count, begin.block, begin.offset);
    slip_framing::frame_parts(&head, &words, b"", buffer)
}

// FLASH_END, framed.
pub fn end(buffer: &mut [u8]) -> Result<usize, FrameError>
    ensures { Frames (framing end_packet buffer.old) result buffer.new }
{
    let head = fields::header(DIRECTION, u8::from(Command::FlashEnd), 4, NO_SUM);
    let word = fields::bytes_of(STAY);
    slip_framing::frame_parts(&head, &word, b"", buffer)
}
