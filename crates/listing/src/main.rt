// Lists what a captured line says: a heading, and a line for each packet that it closes. The line's bytes are read to their end,
// from the file that the argument names, or from standard input where there is none, into a fresh loader.
#![tactic(auto)]

ghost use Rattle.std.specs.Prelude.{◌≡◌, length, replicate};
ghost use Rattle.listing_report.specs.Listing.{fresh_listing};

use listing_report::{ListError, Listing};
use std::env::FillError;
use std::fmt::InlineText;
use std::fs::File;
use std::io;
use std::io::Read;
use std::rt::{Env, Files};

// The bytes of one read.
const INPUT: usize = 65536;

// The space for an argument: that of the longest path.
const ARGUMENT_SPACE: usize = 4096;

// The space for the text of an error.
const REASON_SPACE: usize = 256;

// The lines of one write: some 40 of them. Captures fill it often, so that a full text is no rare case.
const TEXT: usize = 512;

// The bytes of the packet buffer that the loader is lent: the fewest that it takes.
const PACKET: usize = slip_framing::LONGEST;

// The bytes of the answer buffer: the fewest that it takes.
const ANSWER: usize = loader::LONGEST_ANSWER;

// The bytes of flash.
const FLASH: usize = 65536;

// The words of memory.
const WORDS: usize = 4096;

// Why a listing ends before its input does.
#[derive(Drop)]
enum Failure {
    Input(io::Error),
    Output(io::Error),
    // no call of this program is refused, as its buffers are long enough
    Refused,
}

// A listing, and the memory that it lends to the loader. The programs with vectors have such a struct each, which keeps other things of a call.
#[derive(Drop)]
struct Lister {
    listing: Listing,
    packet: [u8; PACKET],
    answer: [u8; ANSWER],
    flash: [u8; FLASH],
    words: [u32; WORDS],
}

impl Lister {
    // "a fresh loader with 64 KiB of 0xFF flash and 4,096 zero words". The clauses have the lengths as numbers, so that no constant changes
    // them unseen; the arrays keep them while the listing goes on.
    fn new() -> Lister
        ensures fresh { result.listing ≡ fresh_listing }
        ensures packet { length result.packet ≡ 4120 }
        ensures answer { length result.answer ≡ 54 }
        ensures flash { length result.flash ≡ 65536 }
        ensures words { length result.words ≡ 4096 }
        ensures erased { result.flash ≡ replicate (length result.flash) 0xFF }
        ensures zeros { result.words ≡ replicate (length result.words) 0 }
    {
        Lister {
            listing: listing_report::new(),
            packet: [0; PACKET],
            answer: [0; ANSWER],
            flash: [0xFF; FLASH],
            words: [0; WORDS],
        }
    }

    // Feeds what was read, and writes the lines of the packets that it closes: at the end, and before that where the text's buffer
    // is full, after which the bytes that were not fed come again. A call stops after a packet, so the rest is handed over until all is
    // taken.
    fn list_run(&mut self, rt: &impl Print, run: &[u8]) -> Result<(), Failure> {
        let mut text = [0u8; TEXT];
        let mut filled = 0;
        let mut rest = run;
        while !rest.is_empty() {
            match listing_report::feed_run(
                self.listing,
                rest,
                &mut self.packet,
                &mut self.answer,
                &mut self.flash,
                &mut self.words,
                &mut text,
                filled,
            ) {
                Ok(fed) => {
                    self.listing = fed.listing;
                    filled = fed.used;
                    rest = &rest[fed.taken..];
                }
                Err(ListError::NoSpace) => {
                    write_out(rt, &text[..filled])?;
                    filled = 0;
                }
                Err(ListError::Refused(_)) => return Err(Failure::Refused),
            }
        }
        write_out(rt, &text[..filled])
    }
}

fn write_out(rt: &impl Print, text: &[u8]) -> Result<(), Failure> {
    rt.write_all(text).map_err(Failure::Output)
}

// Lists an open input. A proved loop has to end, and nothing says that an input does. So the loop counts its reads, up to a number that
// no run reaches.
fn list(rt: &impl Print, input: &mut impl Read) -> Result<(), Failure> {
    let mut lister = Lister::new();
    write_out(rt, &listing_report::heading())?;
    let mut run = [0u8; INPUT];
    for _ in 0..u64::MAX {
        let n = input.read(&mut run).map_err(Failure::Input)?;
        if n == 0 {
            break;
        }
        lister.list_run(rt, &run[..n])?;
    }
    Ok(())
}

// What the system says of an error, without the error's number.
fn words(text: &str) -> &str {
    match text.split_once(" (os error ") {
        Some((words, _)) => words,
        None => text,
    }
}

// Writes a line to standard error: what failed, and why. `send` has `words`, this function and `is_given` too: a library's `fail` and
// `is_given` could promise nothing of what is printed or given, and `words` is four lines for these two.
fn fail(rt: &impl Eprint, what: &str, error: &io::Error) {
    let text = InlineText::<REASON_SPACE>::of(error);
    let _ = eprintln!(rt; "{what}: {}", words(text.as_str()));
}

// Lists an open input, and says why where that ends early, so that an input that cannot be read does not pass for one that ended.
fn list_open(rt: &(impl Print + Eprint), input: &mut impl Read, name: &str) {
    let Err(failure) = list(rt, input) else {
        return;
    };
    match failure {
        Failure::Input(error) => fail(rt, name, &error),
        Failure::Output(error) => fail(rt, "standard output", &error),
        Failure::Refused => {
            let _ = rt.eprintln("listing: the loader refused the call");
        }
    }
}

fn say_usage(rt: &impl Eprint) {
    let _ = rt.eprintln("usage: listing [FILE]");
}

// Lists the file that the argument names. One that begins with a dash is taken for an option, and there are none. std opens a file by a
// name that is UTF-8, and by no other.
fn list_file(rt: &(impl Env + Files + Print + Eprint)) {
    let mut space = [0u8; ARGUMENT_SPACE];
    let Ok(n) = rt.arg(1, &mut space) else {
        let _ = rt.eprintln("listing: File name too long");
        return;
    };
    let argument = &space[..n];
    if argument.starts_with(b"-") {
        say_usage(rt);
        return;
    }
    let Ok(name) = str::from_utf8(argument) else {
        let _ = rt.eprintln("listing: the name of the file is not UTF-8");
        return;
    };
    match File::open(rt, name) {
        Ok(mut file) => list_open(rt, &mut file, name),
        Err(error) => fail(rt, name, &error),
    }
}

// Whether there is an argument with a number, whatever its bytes: `env::args` fails where any argument is not UTF-8, and of two the program
// says its usage all the same.
fn is_given(rt: &impl Env, i: usize) -> bool {
    !matches!(rt.arg(i, &mut []), Err(FillError::NotPresent))
}

fn main(rt: HostRuntime) {
    if !is_given(&rt, 1) {
        list_open(&rt, &mut rt.stdin(), "standard input");
    } else if !is_given(&rt, 2) {
        list_file(&rt);
    } else {
        say_usage(&rt);
    }
}
