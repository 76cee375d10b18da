// What packets say: a read one's command, the shape of its body, a block's data; an answer's status. No record, no session.
#![tactic(auto)]

ghost use Rattle.std.specs.Prelude.{◌≡◌};
ghost use Rattle.esp_commands.specs.Names.{command_number, Names};
ghost use Rattle.esp_commands.specs.Header.{command, sized, shaped, data_shaped};
ghost use Rattle.esp_commands.specs.Block.{zero_words, sum_good, padding_good};
ghost use Rattle.esp_commands.specs.Status.{status_of};

use esp_begin::Begin;
use fields::{FIRST_WORD, FOURTH_WORD, HEADER, THIRD_WORD};

// ---- the commands

// The commands that the loader knows, by their numbers.
#[derive(Clone, Copy, PartialEq, Eq)]
pub enum Command {
    FlashBegin = 0x02,
    FlashData = 0x03,
    FlashEnd = 0x04,
    MemBegin = 0x05,
    MemEnd = 0x06,
    MemData = 0x07,
    Sync = 0x08,
    WriteReg = 0x09,
    ReadReg = 0x0A,
    SpiAttach = 0x0D,
    SpiFlashMd5 = 0x13,
}

// A number that is no command's.
#[derive(Clone, Copy, PartialEq, Eq)]
pub struct UnknownCommand(pub u8);

impl From<Command> for u8 {
    ghost from_gives = { λ c n. n ≡ command_number c };

    fn from(command: Command) -> u8 {
        command as u8
    }
}

impl TryFrom<u8> for Command {
    type Error = UnknownCommand;

    ghost try_from_gives = { Names };

    fn try_from(number: u8) -> Result<Self, UnknownCommand> {
        match number {
            0x02 => Ok(Command::FlashBegin),
            0x03 => Ok(Command::FlashData),
            0x04 => Ok(Command::FlashEnd),
            0x05 => Ok(Command::MemBegin),
            0x06 => Ok(Command::MemEnd),
            0x07 => Ok(Command::MemData),
            0x08 => Ok(Command::Sync),
            0x09 => Ok(Command::WriteReg),
            0x0A => Ok(Command::ReadReg),
            0x0D => Ok(Command::SpiAttach),
            0x13 => Ok(Command::SpiFlashMd5),
            _ => Err(UnknownCommand(number)),
        }
    }
}

// The length of four words: the whole body of a BEGIN, WRITE_REG or SPI_FLASH_MD5, and what stands before the data of a data command. Where
// the data begin.
pub const FOUR_WORDS: usize = 16;

pub const DATA_AT: usize = 24;

// ---- the header

// The command's number.
#[tactic(auto, unfolding(crate::specs::Header::command))]
pub fn command_of(packet: &[u8]) -> u8
    ensures { result ≡ command packet.now }
{
    match packet {
        [_, command, ..] => *command,
        _ => 0,
    }
}

// Whether the size field is the body's length.
#[tactic(auto, unfolding(crate::specs::Header::sized))]
fn size_told(packet: &[u8]) -> bool
    ensures { result ≡ sized packet.now }
{
    fields::half_at(packet, 2) as usize == packet.len().saturating_sub(HEADER)
}

// Whether a packet passes the 0xC0 check of a command whose body is n bytes long.
#[tactic(auto, unfolding(crate::specs::Header::shaped))]
pub fn shape_good(packet: &[u8], n: usize) -> bool
    ensures { result ≡ shaped n packet.now }
{
    size_told(packet) & (packet.len().saturating_sub(HEADER) == n)
}

// Whether a packet passes the 0xC0 check of a data command.
#[tactic(auto, unfolding(crate::specs::Header::data_shaped))]
pub fn data_shape_good(packet: &[u8]) -> bool
    ensures { result ≡ data_shaped packet.now }
{
    let length = packet.len().saturating_sub(HEADER);
    let size = fields::word_at(packet, FIRST_WORD) as usize;
    size_told(packet) & ((FOUR_WORDS <= length) & (size == length.saturating_sub(FOUR_WORDS)))
}

// ---- a data command

// Whether the third and fourth words are 0.
#[tactic(auto, unfolding(crate::specs::Block::zero_words))]
pub fn zero_words_good(packet: &[u8]) -> bool
    ensures { result ≡ zero_words packet.now }
{
    (fields::word_at(packet, THIRD_WORD) == 0) & (fields::word_at(packet, FOURTH_WORD) == 0)
}

// Whether the whole checksum field is the checksum of the data.
#[tactic(auto, unfolding(crate::specs::Block::sum_good, crate::specs::Block::payload))]
pub fn sum_good(packet: &[u8]) -> bool
    ensures { result ≡ sum_good packet.now }
{
    let sum = fields::checksum_from(packet, DATA_AT);
    fields::word_at(packet, 4) == u32::from(sum)
}

// Whether the data of block k is 0xFF past the announced size.
pub fn padding_good(begin: Begin, k: u32, packet: &[u8]) -> bool
    ensures { result ≡ padding_good begin k packet.now }
{
    let left = begin.size - esp_begin::reach(begin, k);
    lists::all_from(packet, DATA_AT + left as usize, 0xFF)
}

// ---- an answer

// The status byte that is sent with an error byte, which may be any.
pub fn status_of(error: u8) -> u8
    ensures { result ≡ status_of error }
{
    u8::from(error != 0)
}
