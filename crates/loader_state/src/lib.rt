// The loader's record, and refusals 1 to 5.
#![tactic(auto)]

ghost use Rattle.std.specs.Prelude.{◌≡◌};
ghost use Rattle.lists.specs.Checks.{number_by};
ghost use Rattle.loader_state.specs.Record.{fresh_loader};
ghost use Rattle.loader_state.specs.Refusals.{word_count, record_good, refusal_number, refusal};

use esp_begin::{Lengths, flash_length_good};
use lists::ensure;
use loader_answers::LONGEST_ANSWER;
use loader_sessions::{Session, session_good};
use slip_framing::LONGEST;
use slip_unframing::Line;

// The loader's record. The caller keeps what each call hands back, and hands it to the next call.
#[derive(Clone, Copy)]
pub struct Loader {
    pub line: Line,
    pub session: Session,
    pub attach: u32,
}

// The lengths of what a call lends.
#[derive(Clone, Copy)]
pub struct BufferLengths {
    pub packet: usize,
    pub answer: usize,
    pub flash: usize,
    pub words: usize,
}

// Why a call is refused: by a buffer that is lent to it, or by its record.
#[derive(Clone, Copy, PartialEq, Eq)]
pub enum Refusal {
    PacketBuffer = 1,
    AnswerBuffer = 2,
    Flash = 3,
    Words = 4,
    Record = 5,
}

// The number that the caller is told.
impl From<Refusal> for u8 {
    ghost from_gives = { λ r n. n ≡ refusal_number r };

    fn from(refusal: Refusal) -> u8 {
        refusal as u8
    }
}

// The record that a start begins with: for the first call.
pub fn new() -> Loader
    ensures { result ≡ fresh_loader }
{
    Loader {
        line: slip_unframing::new(),
        session: Session::Closed,
        attach: 0,
    }
}

// Refusal 4: 1 to 16,384 words.
#[tactic(auto, unfolding(crate::specs::Refusals::word_count))]
fn word_count_good(n: usize) -> bool
    ensures { result ≡ word_count n }
{
    (1 <= n) & (n <= 16384)
}

// Refusal 5: the bytes held, the session for these lengths, and the attach word.
#[tactic(auto, unfolding(crate::specs::Refusals::record_good))]
fn record_good(lengths: Lengths, loader: Loader) -> bool
    ensures { result ≡ record_good lengths loader }
{
    (loader.line.held <= LONGEST)
        & (session_good(lengths, loader.session) & esp_attach::attach_good(loader.attach))
}

// Whether a call is let pass, by its record and the lengths of its buffers, else the first refusal.
#[tactic(auto, unfolding(crate::specs::Refusals::refusal, crate::specs::Refusals::buffer_checks, lists::specs::Checks::first))]
pub fn judge(loader: Loader, buffers: BufferLengths) -> Result<(), Refusal>
    ensures { number_by refusal_number result ≡ refusal loader buffers }
{
    let lengths = Lengths {
        flash: buffers.flash,
        words: buffers.words,
    };
    ensure(LONGEST <= buffers.packet, Refusal::PacketBuffer)?;
    ensure(LONGEST_ANSWER <= buffers.answer, Refusal::AnswerBuffer)?;
    ensure(flash_length_good(buffers.flash), Refusal::Flash)?;
    ensure(word_count_good(buffers.words), Refusal::Words)?;
    ensure(record_good(lengths, loader), Refusal::Record)
}
