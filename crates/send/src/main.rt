// Writes a load into flash to standard output, framed, packet by packet: what a bench sends to the loader. The image is a file; its
// offset, the block size and the flash length are numbers, decimal or hexadecimal behind 0x. Nothing is written unless the load is accepted.
#![tactic(auto)]

use esp_begin::LONGEST_FLASH;
use sender::{LONGEST_FRAME, LoadError, PacketError, Place};
use std::env::FillError;
use std::fmt::InlineText;
use std::fs::File;
use std::io::Read;
use std::rt::{Env, Files};
use std::{fmt, io};

// The space for an argument: that of the longest path.
const ARGUMENT_SPACE: usize = 4096;

// The space for the text of an error.
const REASON_SPACE: usize = 256;

// One byte more than the longest flash, so that an image that fits leaves space: a file that fills the buffer is refused.
const IMAGE_SPACE: usize = LONGEST_FLASH + 1;

// Why a load is not sent, or not whole.
#[derive(Drop)]
enum Failure {
    Refused(PacketError),
    Image(io::Error),
    Output(io::Error),
}

impl From<LoadError> for Failure {
    fn from(error: LoadError) -> Failure {
        Failure::Refused(PacketError::Load(error))
    }
}

impl From<PacketError> for Failure {
    fn from(error: PacketError) -> Failure {
        Failure::Refused(error)
    }
}

// A refusal, as it is said.
#[derive(Clone, Copy)]
struct Refusal(PacketError);

// A load is refused with 3 or 15. A packet of an accepted one is not, as its number is in range and the buffer long enough.
impl fmt::Display for Refusal {
    fn fmt<W: fmt::Write>(&self, f: &mut fmt::Formatter<W>) -> fmt::Result {
        let number = u8::from(self.0);
        let reason = match self.0 {
            PacketError::Load(LoadError::FlashLength) => {
                "the flash length must be a multiple of 4096, from 4096 to 4194304"
            }
            PacketError::Load(LoadError::DoesNotFit) => {
                "the load does not fit: the block size must be 1 to 4096, the offset a multiple of 4096, and the image end within the flash"
            }
            _ => "the packet cannot be written",
        };
        write!(f, "refused, {number}: {reason}")
    }
}

fn say_usage(rt: &impl Eprint) {
    let _ = rt.eprintln("usage: send IMAGE OFFSET BLOCK FLASH");
    let _ = rt.eprintln(
        "IMAGE is a file. OFFSET, BLOCK (the block size) and FLASH (the flash length) are numbers: decimal, or hexadecimal behind 0x.",
    );
}

// What the system says of an error, without the error's number.
fn words(text: &str) -> &str {
    match text.split_once(" (os error ") {
        Some((words, _)) => words,
        None => text,
    }
}

// Writes a line to standard error: what failed, and why. `listing` has `words`, this function and `is_given` too: a library's `fail` and
// `is_given` could promise nothing of what is printed or given, and `words` is four lines for these two.
fn fail(rt: &impl Eprint, what: &str, error: &io::Error) {
    let text = InlineText::<REASON_SPACE>::of(error);
    let _ = eprintln!(rt; "{what}: {}", words(text.as_str()));
}

// Writes the packets of a load to standard output, in order. Of the buffer so many bytes were read.
fn send_load(rt: &impl Print, buffer: &[u8], read: usize, place: Place) -> Result<(), Failure> {
    let count = sender::file_packet_count(buffer, read, place)?;
    let image = &buffer[..read];
    let mut frame = [0u8; LONGEST_FRAME];
    for number in 0..count {
        let n = sender::packet(image, place, number, &mut frame)?;
        rt.write_all(&frame[..n]).map_err(Failure::Output)?;
    }
    Ok(())
}

// Reads an image into a buffer, or as much of it as there is space for: how many bytes were read. `sender::file_packet_count` judges a file by
// the buffer's length beside that. A read may bring less than it was asked for.
fn read_image(rt: &impl Files, name: &str, buffer: &mut [u8]) -> io::Result<usize> {
    let mut file = File::open(rt, name)?;
    let space = buffer.len();
    let mut rest = buffer;
    while !rest.is_empty() {
        let n = file.read(rest)?;
        if n == 0 {
            break;
        }
        rest = &mut rest[n..];
    }
    Ok(space - rest.len())
}

// Reads an image and sends it. In a function of its own, which knows the array's length by its type, no proof counts its bytes.
fn send_image(
    rt: &(impl Files + Print),
    name: &str,
    buffer: &mut [u8; IMAGE_SPACE],
    place: Place,
) -> Result<(), Failure> {
    let read = read_image(rt, name, buffer).map_err(Failure::Image)?;
    send_load(rt, buffer, read, place)
}

fn send_file(rt: &(impl Files + Print), name: &str, place: Place) -> Result<(), Failure> {
    let mut buffer = [0u8; IMAGE_SPACE];
    send_image(rt, name, &mut buffer, place)
}

// The number that an argument says. One that is missing, or longer than the space for it, says none. (Not by `env::args`, which fails for
// all arguments where one is not UTF-8.)
fn number_at(rt: &impl Env, i: usize) -> Option<usize> {
    let mut text = [0u8; ARGUMENT_SPACE];
    let n = rt.arg(i, &mut text).ok()?;
    sender_numbers::read(&text[..n])
}

// Where the arguments say that the image goes.
fn place_given(rt: &impl Env) -> Option<Place> {
    let offset = number_at(rt, 2)?;
    let block = number_at(rt, 3)?;
    let flash = number_at(rt, 4)?;
    Some(Place {
        offset,
        block,
        flash,
    })
}

// Takes the arguments, of which there are four. std opens a file by a name that is UTF-8, and by no other.
fn send_named(rt: &(impl Env + Files + Print + Eprint)) {
    let Some(place) = place_given(rt) else {
        say_usage(rt);
        return;
    };
    let mut space = [0u8; ARGUMENT_SPACE];
    let Ok(n) = rt.arg(1, &mut space) else {
        let _ = rt.eprintln("send: File name too long");
        return;
    };
    let Ok(name) = str::from_utf8(&space[..n]) else {
        let _ = rt.eprintln("send: the name of the image is not UTF-8");
        return;
    };
    match send_file(rt, name, place) {
        Ok(()) => {}
        Err(Failure::Refused(error)) => {
            let refusal = Refusal(error);
            let _ = eprintln!(rt; "send: {refusal}");
        }
        Err(Failure::Image(error)) => fail(rt, name, &error),
        Err(Failure::Output(error)) => fail(rt, "standard output", &error),
    }
}

// Whether there is an argument with a number, whatever its bytes: `env::args` fails where any argument is not UTF-8.
fn is_given(rt: &impl Env, i: usize) -> bool {
    !matches!(rt.arg(i, &mut []), Err(FillError::NotPresent))
}

fn main(rt: HostRuntime) {
    if is_given(&rt, 4) && !is_given(&rt, 5) {
        send_named(&rt);
    } else {
        say_usage(&rt);
    }
}
