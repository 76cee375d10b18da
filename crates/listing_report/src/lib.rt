// The listing of received bytes: the call that lists a run of them.
#![tactic(auto)]

ghost use Rattle.std.specs.Prelude.{◌≡◌};
ghost use Rattle.loader_act.specs.Told.{told};
ghost use Rattle.listing_report.specs.Listing.{fresh_listing, number_after, list_report, report_of, list_step, Lists};

pub use listing_columns::heading;
use listing_lines::has_space;
pub use listing_lines::{LONGEST_LINE, line};
use loader::{Answer, Loader};

// A loader, and the number of the next packet.
#[derive(Clone, Copy)]
pub struct Listing {
    pub loader: Loader,
    pub number: u64,
}

// What a call that fed its run comes to.
#[derive(Clone, Copy)]
pub struct Fed {
    // the next state
    pub listing: Listing,
    // how many bytes of the text's buffer are used
    pub used: usize,
    // how many bytes of the run were taken, from the front. The rest is to be handed over again
    pub taken: usize,
}

// Why a call fed nothing, and changed nothing.
#[derive(Clone, Copy, Debug, PartialEq, Eq)]
pub enum ListError {
    // fewer than 33 bytes are left in the text's buffer
    NoSpace,
    // the loader refused the call, with its number from 1 to 5, as `loader_act::Answer::Refused` has it
    Refused(u8),
}

// The listing before the first byte.
pub fn new() -> Listing
    ensures { result ≡ fresh_listing }
{
    Listing {
        loader: loader::new(),
        number: 1,
    }
}

// The number of the packet after a call.
fn next_number(answer: Answer, number: u64) -> u64
    ensures { result ≡ number_after (told answer) number }
{
    match answer {
        Answer::Refused(_) | Answer::Taken => number,
        Answer::Dropped { .. } | Answer::Answered { .. } => number.wrapping_add(1),
    }
}

// What a call says by the loader's answer: the number of a refusal, or what else it comes to.
fn listed_as(answer: Answer, fed: Fed) -> Result<Fed, ListError>
    ensures { list_report result ≡ report_of (told answer) fed.listing fed.used fed.taken }
{
    match answer {
        Answer::Refused(number) => Err(ListError::Refused(number)),
        Answer::Taken | Answer::Dropped { .. } | Answer::Answered { .. } => Ok(fed),
    }
}

// A run of received bytes, fed to the loader; where it closes a packet, the packet's line is written behind the used bytes of `text`.
// "The call stops after the byte that closes a packet and says how many bytes it took; an empty run takes none."
// The space for a line is judged first, so that no line is lost; a run closes at most one packet, so that the space for one is enough. On
// `NoSpace` the caller empties `text` and hands the run over again.
// Each lent buffer is a parameter of its own, `text` whole beside `used`: `Lists` says of each what it holds at exit, and callers read them
// between calls.
pub fn feed_run(
    listing: Listing,
    run: &[u8],
    packet: &mut [u8],
    answer: &mut [u8],
    flash: &mut [u8],
    words: &mut [u32],
    text: &mut [u8],
    used: usize,
) -> Result<Fed, ListError>
    ensures { Lists
        (list_step listing run.now packet.old answer.old flash.old words.old
        text.old used)
        result packet.new answer.new flash.new words.new text.new }
{
    if !has_space(text.len(), used) {
        return Err(ListError::NoSpace);
    }
    let number = listing.number;
    let fed = loader::feed_run(listing.loader, run, packet, answer, flash, words);
    // there is space, so `line` is not none
    let filled = line(number, fed.answer, text, used).ok_or(ListError::NoSpace)?;
    let listing = Listing {
        loader: fed.loader,
        number: next_number(fed.answer, number),
    };
    listed_as(
        fed.answer,
        Fed {
            listing,
            used: filled,
            taken: fed.taken,
        },
    )
}
