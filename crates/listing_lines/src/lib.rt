// The lines of the listing: a packet's number in decimal, and its fields behind it.
#![tactic(auto)]

ghost use Rattle.std.specs.Prelude.{◌≡◌, ◌++◌, ◌+◌, ◌≤◌, ◌<◌, length};
ghost use Rattle.lists.specs.Lay.{lay};
ghost use Rattle.loader_act.specs.Told.{told};
ghost use Rattle.listing_lines.specs.Numbers.{decimal};
ghost use Rattle.listing_lines.specs.Lines.{line_of, longest_line, has_space, Appends, Writes};

use listing_columns::{dropped_fields, read_fields};
use loader_act::Answer;

// The bytes that hold every line: a number of 20 digits, and 13 bytes.
pub const LONGEST_LINE: usize = 33;

// A line of a number and the fields behind it, from `used` on, where the buffer has the space; how many bytes are used then.
fn write_row(number: u64, fields: &[u8], buffer: &mut [u8], used: usize) -> usize
    requires { used + (length (decimal number) + length fields.now) ≤ length buffer.old }
    ensures { (result ≡ used + length (decimal number ++ fields.now))
        × (buffer.new ≡ lay buffer.old used (decimal number ++ fields.now)) }
{
    // std's `write!` into a slice promises no bytes, and that into a `fmt::Write` not that it succeeds
    let mut text = itoa::Buffer::new();
    let digits = text.format(number).as_bytes();
    let at = used + digits.len();
    let end = at + fields.len();
    buffer[used..at].copy_from_slice(digits);
    buffer[at..end].copy_from_slice(fields);
    end
}

// Every line fits behind the used bytes of a buffer.
pub fn has_space(length: usize, used: usize) -> bool
    ensures { result ≡ has_space length used }
{
    LONGEST_LINE <= length && used <= length - LONGEST_LINE
}

// The line of a call of the loader, behind the used bytes of a buffer; how many are used then.
fn put_line(number: u64, answer: Answer, buffer: &mut [u8], used: usize) -> usize
    requires { used + longest_line ≤ length buffer.old }
    ensures { Appends (line_of number (told answer)) buffer.old used result buffer.new }
{
    match answer {
        Answer::Refused(_) | Answer::Taken => used,
        Answer::Dropped { reason, .. } => write_row(number, dropped_fields(reason), buffer, used),
        Answer::Answered { command, error, .. } => {
            write_row(number, &read_fields(command, error), buffer, used)
        }
    }
}

// The line of a call of the loader, behind the used bytes of a buffer; how many are used then. Where fewer than 33 bytes are left, nothing
// is written, and that is none. The buffer is lent whole beside `used`, since `Writes` says of all of it what it holds at exit.
pub fn line(number: u64, answer: Answer, buffer: &mut [u8], used: usize) -> Option<usize>
    ensures { Writes (line_of number (told answer)) buffer.old used result buffer.new }
{
    if !has_space(buffer.len(), used) {
        return None;
    }
    Some(put_line(number, answer, buffer, used))
}
