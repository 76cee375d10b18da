// The refusals of the link's calls: which records refusal 5 lets pass, and the others in their order.
#![tactic(auto)]

ghost use Rattle.std.specs.Prelude.{◌≡◌, ◌∷◌, true, false, nat_le};
ghost use Rattle.lists.specs.Checks.{first, ensured, number_by};
ghost use Rattle.link_state.specs.Link.{by_phase};
ghost use Rattle.link_refusals.specs.Sound.{fits_phase, fits_edition, holder_good, sound};
ghost use Rattle.link_refusals.specs.Refusals.{refusal_number, shortest_buffer, checks, send_checks};

use link_frames::Holder;
use link_state::{FIRST_RATE, Link, Phase};

// Why a call is refused, with the number that the caller is told.
#[derive(Clone, Copy, Debug, PartialEq, Eq)]
pub enum Refusal {
    // The record is none that a call gave, or of an edition that there is not: open a link anew.
    Record = 5,
    // The answer buffer is under 67 bytes.
    AnswerBuffer = 8,
    // The others are a send's. There is no connection yet.
    NotOpen = 10,
    RpcClosed = 11,
    DeadTime = 12,
    // A data frame of ours is not confirmed yet.
    Unconfirmed = 13,
    // The data is over 64 bytes.
    TooLong = 14,
}

impl From<Refusal> for u8 {
    ghost from_gives = { λ refusal number. number ≡ refusal_number refusal };

    fn from(refusal: Refusal) -> u8 {
        refusal as u8
    }
}

// Whether the phase is Open: only there can data be sent and power be on.
fn is_open(phase: Phase) -> bool
    ensures { result ≡ by_phase phase false false true }
{
    matches!(phase, Phase::Open)
}

// Whether the rest of a record goes with its phase.
#[tactic(auto, unfolding(crate::specs::Sound::fits_phase))]
fn fits_phase(link: Link) -> bool
    ensures { result ≡ fits_phase link.phase link.dead link.rpc link.outstanding link.rate link.held }
{
    let closed = !link.dead && !link.rpc && !link.outstanding && link.rate == FIRST_RATE;
    match link.phase {
        Phase::Start => closed && link.held == 0,
        Phase::Baud => closed,
        Phase::Open => true,
    }
}

// Whether a record's edition is one, and power is on only under the later one, in Open.
#[tactic(auto, unfolding(crate::specs::Sound::fits_edition))]
fn fits_edition(link: Link) -> bool
    ensures { result ≡ fits_edition link.edition link.power link.phase }
{
    link_frames::is_edition(link.edition)
        && (!link.power || (link.edition == link_frames::LATER_EDITION && is_open(link.phase)))
}

// Whether what is held begins a longer good frame, with zeros behind it.
fn holder_good(edition: u8, held: usize, kind: u8, frame: &Holder) -> bool
    ensures { result ≡ holder_good edition held (kind ∷ frame.now) }
{
    held <= link_frames::MOST_HELD
        && link_frames::zero_behind(held, kind, frame)
        && link_frames::is_begun(edition, held, kind, frame[0])
}

// Whether refusal 5 lets the record pass.
#[tactic(auto, unfolding(crate::specs::Sound::sound))]
pub fn is_sound(link: Link) -> bool
    ensures { result ≡ sound link }
{
    holder_good(link.edition, link.held, link.kind, &link.frame)
        && link_state::on_list(link.rate)
        && fits_phase(link)
        && fits_edition(link)
}

// Refusal 8: the buffer has no space for the longest frame.
fn judge_buffer(buffer: usize) -> Result<(), Refusal>
    ensures { result ≡ ensured (nat_le shortest_buffer buffer) Refusal.AnswerBuffer }
{
    lists::ensure(link_frames::LONGEST_FRAME <= buffer, Refusal::AnswerBuffer)
}

// The refusals of pull, byte and poll. 5 judges the record as it came: every call gives it first, and whether a record is sound does
// not hang on the clock.
pub fn judge(link: Link, buffer: usize) -> Result<(), Refusal>
    ensures { number_by refusal_number result ≡ first (checks link buffer) }
{
    lists::ensure(is_sound(link), Refusal::Record)?;
    judge_buffer(buffer)
}

// The refusals of send; 5 judges the record as it came, as in every call, the others the record after the silence and dead time checks.
pub fn judge_send(link: Link, later: Link, count: usize, buffer: usize) -> Result<(), Refusal>
    ensures { number_by refusal_number result ≡ first (send_checks link later count buffer) }
{
    lists::ensure(is_sound(link), Refusal::Record)?;
    lists::ensure(is_open(later.phase), Refusal::NotOpen)?;
    lists::ensure(!later.dead, Refusal::DeadTime)?;
    lists::ensure(later.rpc, Refusal::RpcClosed)?;
    lists::ensure(!later.outstanding, Refusal::Unconfirmed)?;
    lists::ensure(count <= link_frames::MOST_DATA, Refusal::TooLong)?;
    judge_buffer(buffer)
}
