// The error of a read packet: document 01's table, in its order, and 0xC7 of request Seven.
#![tactic(auto)]

ghost use Rattle.std.specs.Prelude.{◌≡◌};
ghost use Rattle.lists.specs.Checks.{first, number_by};
ghost use Rattle.loader_errors.specs.Codes.{error_byte};
ghost use Rattle.loader_errors.specs.Errors.{plain_checks, attach_checks, data_checks, end_checks, error_of};

use esp_begin::Lengths;
use esp_commands::{Command, FOUR_WORDS};
use fields::{FIRST_WORD, SECOND_WORD};
use lists::ensure;
use loader_sessions::{Session, accepted_by, announced_by, flash_open, memory_open};

// Why a read packet fails, in the order of document 01's table, with that of request Seven behind `BadParameter`.
#[derive(Clone, Copy, PartialEq, Eq)]
pub enum CommandError {
    UnknownCommand = 0xFF,
    WrongSize = 0xC0,
    NoSession = 0xC6,
    WrongBlockSize = 0xC2,
    BadParameter = 0xC5,
    EqualPins = 0xC7,
    AllAccepted = 0xC9,
    OutOfSequence = 0xC3,
    WrongChecksum = 0xC1,
    BadPadding = 0xC4,
    BlocksMissing = 0xC8,
}

// The error byte that an answer carries.
impl From<CommandError> for u8 {
    ghost from_gives = { λ e n. n ≡ error_byte e };

    fn from(error: CommandError) -> u8 {
        error as u8
    }
}

// Any other command that needs no session: its shape and its parameters.
#[tactic(auto, unfolding(crate::specs::Errors::plain_checks, lists::specs::Checks::first))]
fn plain_error(shaped: bool, ruled: bool) -> Result<(), CommandError>
    ensures { number_by error_byte result ≡ first (plain_checks shaped ruled) }
{
    ensure(shaped, CommandError::WrongSize)?;
    ensure(ruled, CommandError::BadParameter)
}

// SPI_ATTACH: its shape, its word's rule, and whether two lines have the same pin.
#[tactic(auto, unfolding(crate::specs::Errors::attach_checks, lists::specs::Checks::first))]
fn attach_error(shaped: bool, word: u32) -> Result<(), CommandError>
    ensures { number_by error_byte result ≡ first (attach_checks shaped word) }
{
    ensure(shaped, CommandError::WrongSize)?;
    ensure(esp_attach::attach_ruled(word), CommandError::BadParameter)?;
    ensure(esp_attach::attach_apart(word), CommandError::EqualPins)
}

// A data command, where a session of its kind is open or not.
#[tactic(auto, unfolding(crate::specs::Errors::data_checks, lists::specs::Checks::first))]
fn data_error(is_open: bool, session: Session, packet: &[u8]) -> Result<(), CommandError>
    ensures { number_by error_byte result ≡ first (data_checks is_open session packet.now) }
{
    let begin = announced_by(session);
    let k = accepted_by(session);
    ensure(
        esp_commands::data_shape_good(packet),
        CommandError::WrongSize,
    )?;
    ensure(is_open, CommandError::NoSession)?;
    ensure(
        fields::word_at(packet, FIRST_WORD) == begin.block,
        CommandError::WrongBlockSize,
    )?;
    ensure(
        esp_commands::zero_words_good(packet),
        CommandError::BadParameter,
    )?;
    ensure(k < begin.count, CommandError::AllAccepted)?;
    ensure(
        fields::word_at(packet, SECOND_WORD) == k,
        CommandError::OutOfSequence,
    )?;
    ensure(esp_commands::sum_good(packet), CommandError::WrongChecksum)?;
    ensure(
        esp_commands::padding_good(begin, k, packet),
        CommandError::BadPadding,
    )
}

// An END command: its shape, whether a session of its kind is open, its parameters, and whether all blocks are accepted.
#[tactic(auto, unfolding(crate::specs::Errors::end_checks, lists::specs::Checks::first))]
fn end_error(shaped: bool, is_open: bool, ruled: bool, session: Session) -> Result<(), CommandError>
    ensures { number_by error_byte result ≡ first (end_checks shaped is_open ruled session) }
{
    let begin = announced_by(session);
    ensure(shaped, CommandError::WrongSize)?;
    ensure(is_open, CommandError::NoSession)?;
    ensure(ruled, CommandError::BadParameter)?;
    ensure(
        accepted_by(session) == begin.count,
        CommandError::BlocksMissing,
    )
}

// Whether a read packet passes its checks, else the error of the first that fails.
pub fn error_of(lengths: Lengths, session: Session, packet: &[u8]) -> Result<(), CommandError>
    ensures { number_by error_byte result ≡ error_of lengths session packet.now }
{
    let Ok(command) = Command::try_from(esp_commands::command_of(packet)) else {
        return Err(CommandError::UnknownCommand);
    };
    match command {
        Command::FlashBegin => plain_error(
            esp_commands::shape_good(packet, FOUR_WORDS),
            esp_begin::flash_good(lengths, esp_begin::begin_of(packet)),
        ),
        Command::FlashData => data_error(flash_open(session), session, packet),
        Command::FlashEnd => end_error(
            esp_commands::shape_good(packet, 4),
            flash_open(session),
            esp_parameters::flash_end_good(packet),
            session,
        ),
        Command::MemBegin => plain_error(
            esp_commands::shape_good(packet, FOUR_WORDS),
            esp_begin::memory_good(lengths, esp_begin::begin_of(packet)),
        ),
        Command::MemEnd => end_error(
            esp_commands::shape_good(packet, 8),
            memory_open(session),
            esp_parameters::memory_end_good(lengths, packet),
            session,
        ),
        Command::MemData => data_error(memory_open(session), session, packet),
        Command::Sync => plain_error(
            esp_commands::shape_good(packet, 36),
            esp_parameters::sync_good(packet),
        ),
        Command::WriteReg => plain_error(
            esp_commands::shape_good(packet, FOUR_WORDS),
            esp_parameters::write_good(lengths, packet),
        ),
        Command::ReadReg => plain_error(
            esp_commands::shape_good(packet, 4),
            esp_parameters::register_good(lengths, fields::word_at(packet, FIRST_WORD)),
        ),
        Command::SpiAttach => attach_error(
            esp_commands::shape_good(packet, 4),
            fields::word_at(packet, FIRST_WORD),
        ),
        Command::SpiFlashMd5 => plain_error(
            esp_commands::shape_good(packet, FOUR_WORDS),
            esp_parameters::digest_good(lengths, packet),
        ),
    }
}
