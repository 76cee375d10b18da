// The sending end of a load into flash: its packets, framed, one by one.
#![tactic(auto)]

ghost use Rattle.std.specs.Prelude.{◌≡◌, ◌≤◌, length};
ghost use Rattle.lists.specs.Checks.{number_by};
ghost use Rattle.slip_framing.specs.Frame.{framing, Frames};
ghost use Rattle.esp_begin.specs.Begin.{flash_rule};
ghost use Rattle.sender.specs.Load.{announces};
ghost use Rattle.sender.specs.Packets.{block_packet, packet_of};
ghost use Rattle.sender.specs.Parts.{HasBlock, HasPacket};
ghost use Rattle.sender.specs.Sending.{load_number, load_refusal, packet_number, sending, Sends, count_report, counting, counting_file};
ghost use Rattle.sender.specs.declared.PacketError.TheVariants.{Load, Frame};

use esp_begin::{Begin, LARGEST_BLOCK, Lengths, flash_length_good};
use lists::ensure;
pub use slip_framing::{FrameError, LONGEST_FRAME};

// Where in flash an image goes, in blocks of what size, and how long the flash is: all in bytes.
#[derive(Clone, Copy, Debug, PartialEq, Eq)]
pub struct Place {
    pub offset: usize,
    pub block: usize,
    pub flash: usize,
}

// Why a load is not sent.
#[derive(Clone, Copy, Debug, PartialEq, Eq)]
pub enum LoadError {
    FlashLength,
    // the loader would refuse its BEGIN
    DoesNotFit,
}

impl From<LoadError> for u8 {
    ghost from_gives = { λ error number. number ≡ load_number error };

    fn from(error: LoadError) -> u8 {
        match error {
            LoadError::FlashLength => 3,
            LoadError::DoesNotFit => 15,
        }
    }
}

// Why a packet is not framed.
#[derive(Clone, Copy, PartialEq, Eq)]
pub enum PacketError {
    Load(LoadError),
    // its number is past that of the END
    NoSuchPacket,
    Frame(FrameError),
}

impl From<LoadError> for PacketError {
    ghost from_gives = { λ error packet. packet ≡ Load error };

    fn from(error: LoadError) -> PacketError {
        PacketError::Load(error)
    }
}

impl From<FrameError> for PacketError {
    ghost from_gives = { λ error packet. packet ≡ Frame error };

    fn from(error: FrameError) -> PacketError {
        PacketError::Frame(error)
    }
}

impl From<PacketError> for u8 {
    ghost from_gives = { λ error number. number ≡ packet_number error };

    fn from(error: PacketError) -> u8 {
        match error {
            PacketError::Load(load) => load.into(),
            PacketError::NoSuchPacket => 16,
            PacketError::Frame(frame) => frame.into(),
        }
    }
}

// What the load announces.
fn announced(size: u32, offset: u32, block: u32) -> Begin
    ensures { result ≡ announces size offset block }
{
    Begin {
        size,
        count: esp_begin::count_of(size, block),
        block,
        offset,
    }
}

// Whether the load's BEGIN keeps its rule. Numbers past the flash, or past the largest block, break it and are made no 32-bit words.
fn begin_good(size: usize, place: Place) -> bool
    requires { place.flash ≤ 4194304 }
    ensures { result ≡ flash_rule (record { flash = place.flash; words = 0 }) (announces size place.offset place.block) }
{
    let Place {
        offset,
        block,
        flash,
    } = place;
    if flash < size {
        return false;
    }
    if flash < offset {
        return false;
    }
    if (LARGEST_BLOCK as usize) < block {
        return false;
    }
    let begin = announced(size as u32, offset as u32, block as u32);
    esp_begin::flash_good(Lengths { flash, words: 0 }, begin)
}

// Whether a load of so many bytes is sent: its flash length, then its BEGIN.
fn judge(size: usize, place: Place) -> Result<(), LoadError>
    ensures { number_by load_number result ≡ load_refusal size place.offset place.block place.flash }
{
    ensure(flash_length_good(place.flash), LoadError::FlashLength)?;
    ensure(begin_good(size, place), LoadError::DoesNotFit)
}

// Block k of the image, framed.
fn frame_block(begin: Begin, k: u32, image: &[u8], buffer: &mut [u8]) -> Result<usize, FrameError>
    requires { HasBlock begin k image.now }
    ensures { Frames (framing (block_packet image.now begin.block k) buffer.old)
        result buffer.new }
{
    let from = esp_begin::reach(begin, k) as usize;
    let upto = esp_begin::reach_after(begin, k) as usize;
    esp_data::block(begin.block, k, &image[from..upto], buffer)
}

// The packet with this number, of those that the load has, framed. The number is the caller's, so the four kinds are told apart by it.
fn frame_numbered(
    begin: Begin,
    number: usize,
    image: &[u8],
    buffer: &mut [u8],
) -> Result<usize, FrameError>
    requires { HasPacket begin number image.now }
    ensures { Frames (framing (packet_of image.now begin.offset begin.block number) buffer.old)
        result buffer.new }
{
    if number == 0 {
        return esp_requests::sync(buffer);
    }
    if number == 1 {
        return esp_requests::begin(begin, buffer);
    }
    let k = number - 2;
    if k < begin.count as usize {
        return frame_block(begin, k as u32, image, buffer);
    }
    esp_requests::end(buffer)
}

// The packet with this number, from 0, framed at the front of the buffer: SYNC, FLASH_BEGIN, the blocks, FLASH_END; its framed length. A
// buffer of LONGEST_FRAME bytes is never too short. Only the bytes of this block are looked at, whatever the image's length.
pub fn packet(
    image: &[u8],
    place: Place,
    number: usize,
    buffer: &mut [u8],
) -> Result<usize, PacketError>
    ensures { Sends (sending image.now place.offset place.block place.flash number buffer.old)
        result buffer.new }
{
    judge(image.len(), place)?;
    let begin = announced(image.len() as u32, place.offset as u32, place.block as u32);
    ensure(number < begin.count as usize + 3, PacketError::NoSuchPacket)?;
    Ok(frame_numbered(begin, number, image, buffer)?)
}

// How many packets the load has: number these from 0. Refused as each of its packets is.
pub fn packet_count(image: &[u8], place: Place) -> Result<usize, LoadError>
    ensures { count_report result ≡ counting (length image.now) place.offset place.block place.flash }
{
    judge(image.len(), place)?;
    Ok(esp_begin::count_of(image.len() as u32, place.block as u32) as usize + 3)
}

// How many packets the load of a file has, of which `read` bytes are read to the front of a buffer. A file that fills the buffer may go on
// behind it: it is refused as one that does not fit, behind a bad flash length. One byte more than the longest flash (LONGEST_FLASH) holds
// every image that fits.
pub fn file_packet_count(buffer: &[u8], read: usize, place: Place) -> Result<usize, LoadError>
    ensures { count_report result ≡ counting_file (length buffer.now) read place.offset place.block place.flash }
{
    if read < buffer.len() {
        return packet_count(&buffer[..read], place);
    }
    if flash_length_good(place.flash) {
        return Err(LoadError::DoesNotFit);
    }
    Err(LoadError::FlashLength)
}
