// The editions of the protocol. They are numbers, since a link's record can name any, which refusal 5 judges
// (`link_claims::EditionJudged`), and opening one gives 18 (`link_claims::OpeningIs`).
ghost use Rattle.std.specs.Prelude.{◌≡◌};
ghost use Rattle.link_frames.specs.Editions.{is_edition, most_control};

pub const FIRST_EDITION: u8 = 1;

pub const LATER_EDITION: u8 = 2;

// The codes of a control frame: a start and a stop of RPC; under the later edition also power on and off.
// They are numbers in their order, since a code is allowed up to the greatest of its edition, `most_control`.
pub const START: u8 = 0;

pub const STOP: u8 = 1;

pub const POWER_ON: u8 = 2;

const POWER_OFF: u8 = 3;

// Whether a number is that of an edition.
pub fn is_edition(edition: u8) -> bool
    ensures { result ≡ is_edition edition }
{
    edition == FIRST_EDITION || edition == LATER_EDITION
}

// The greatest code of a control frame.
pub fn most_control(edition: u8) -> u8
    ensures { result ≡ most_control edition }
{
    if edition == LATER_EDITION {
        POWER_OFF
    } else {
        STOP
    }
}
