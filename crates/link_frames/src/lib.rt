// Frames of the expansion protocol: how they are read byte by byte, by the edition, and how they are written.
#![tactic(auto)]

mod editions;
mod kinds;

ghost use Rattle.std.specs.Prelude.{◌≡◌, ◌∷◌, drop};
ghost use Rattle.lists.specs.Bytes.{all_are};
ghost use Rattle.link_frames.specs.Frames.{known, size, heartbeat, status};
ghost use Rattle.link_frames.specs.Reading.{begins, lacks_sum};
ghost use Rattle.link_frames.specs.Writing.{Writes, fitting, data_framed};

pub use editions::{FIRST_EDITION, LATER_EDITION, POWER_ON, START, STOP, is_edition};
pub use kinds::{Kind, UnknownKind};

// The most bytes: of data in a frame; of contents, which are a size and data; of what is held before the checksum comes, the type
// in front; and of a frame.
pub const MOST_DATA: usize = 64;

pub const MOST_CONTENTS: usize = MOST_DATA + 1;

pub const MOST_HELD: usize = MOST_CONTENTS + 1;

pub const LONGEST_FRAME: usize = MOST_HELD + 1;

// The contents of a frame, zeros behind what is held of them; and the data of a data frame, zeros behind it.
// Arrays with a count beside them, since there is no heap: the record is copied whole, and refusal 5 judges any bytes in it.
pub type Holder = [u8; MOST_CONTENTS];

pub type Payload = [u8; MOST_DATA];

// Whether a type is one of the five, with a first byte that it allows: a control code by the edition.
fn is_known(edition: u8, kind: u8, first: u8) -> bool
    ensures { result ≡ known edition kind first }
{
    match Kind::try_from(kind) {
        Ok(Kind::Heartbeat) => true,
        Ok(Kind::Status) => first <= 2,
        Ok(Kind::Baud) => true,
        Ok(Kind::Control) => first <= editions::most_control(edition),
        Ok(Kind::Data) => usize::from(first) <= MOST_DATA,
        Err(_) => false,
    }
}

// How many bytes of a frame stand before its checksum.
fn size_of(kind: u8, first: u8) -> usize
    ensures { result ≡ size kind first }
{
    match Kind::try_from(kind) {
        Ok(Kind::Heartbeat) => 1,
        Ok(Kind::Status) => 2,
        Ok(Kind::Baud) => 5,
        Ok(Kind::Control) => 2,
        Ok(Kind::Data) => usize::from(first) + 2,
        Err(_) => 0,
    }
}

// Whether so many bytes begin a good frame that is longer than they are.
// The type is a byte here: refusal 5 judges records that hold any (`link_claims::EditionJudged`). The four are fields of the link's record,
// which stands above this crate.
pub fn is_begun(edition: u8, count: usize, kind: u8, first: u8) -> bool
    ensures { result ≡ begins edition count kind first }
{
    count == 0 || (is_known(edition, kind, first) && count <= size_of(kind, first))
}

// Whether they are all of a good frame but its checksum.
pub fn lacks_sum(edition: u8, count: usize, kind: u8, first: u8) -> bool
    ensures { result ≡ lacks_sum edition count kind first }
{
    is_known(edition, kind, first) && count == size_of(kind, first)
}

// Whether the bytes behind those held are zero; the type byte counts as the first of them.
pub fn zero_behind(held: usize, kind: u8, frame: &[u8]) -> bool
    ensures { result ≡ all_are 0 (drop held (kind ∷ frame.now)) }
{
    match held.checked_sub(1) {
        Some(from) => lists::all_from(frame, from, 0),
        None => kind == 0 && lists::all_from(frame, 0, 0),
    }
}

// The bytes of a data frame, behind its size.
pub fn contents(frame: &Holder) -> Payload
    ensures { result ≡ drop 1 frame.now }
{
    let mut bytes = [0u8; MOST_DATA];
    bytes.copy_from_slice(&frame[1..]);
    bytes
}

// Bytes at the front of the buffer; how many. Where they do not fit none is written, and `Writes` has 0, no error.
fn write(bytes: &[u8], buffer: &mut [u8]) -> usize
    ensures { Writes (fitting buffer.old bytes.now) buffer.old result buffer.new }
{
    if bytes.len() <= buffer.len() {
        lists::copy_at(buffer, 0, bytes);
        bytes.len()
    } else {
        0
    }
}

// A heartbeat; its checksum is that of the type alone.
pub fn write_heartbeat(buffer: &mut [u8]) -> usize
    ensures { Writes (fitting buffer.old heartbeat) buffer.old result buffer.new }
{
    let kind = u8::from(Kind::Heartbeat);
    let frame = [kind, kind];
    write(&frame, buffer)
}

// A status of one code, which is a number: whatever byte is given, its frame is written.
pub fn write_status(code: u8, buffer: &mut [u8]) -> usize
    ensures { Writes (fitting buffer.old (status code)) buffer.old result buffer.new }
{
    let kind = u8::from(Kind::Status);
    let frame = [kind, code, kind ^ code];
    write(&frame, buffer)
}

// A data frame; data of more than 64 bytes has none. Then, and where it does not fit, `Writes` has 0, no error.
pub fn write_data(bytes: &[u8], buffer: &mut [u8]) -> usize
    ensures { Writes (fitting buffer.old (data_framed bytes.now)) buffer.old result buffer.new }
{
    let n = bytes.len();
    if n <= MOST_DATA && n + 3 <= buffer.len() {
        let kind = u8::from(Kind::Data);
        let size = n as u8;
        buffer[0] = kind;
        buffer[1] = size;
        lists::copy_at(buffer, 2, bytes);
        buffer[n + 2] = fields::xor_from(kind ^ size, bytes, 0);
        n + 3
    } else {
        0
    }
}
