// FLASH_DATA, framed.
#![tactic(auto)]

ghost use Rattle.std.specs.Prelude.{◌≡◌, ◌++◌, ◌+◌, ◌≤◌, length};
ghost use Rattle.fields.specs.Words.{bytes_of};
ghost use Rattle.fields.specs.Header.{header_of};
ghost use Rattle.slip_framing.specs.Frame.{framing, Frames};
ghost use Rattle.esp_commands.specs.Numbers.{flash_data_command};
ghost use Rattle.esp_data.specs.Data.{padded, data_packet};

use esp_begin::LARGEST_BLOCK;
use esp_commands::Command;
use esp_requests::DIRECTION;
use lists::ensure;
use slip_framing::FrameError;

// The largest block as a length.
const LARGEST: usize = LARGEST_BLOCK as usize;

// What fills a block up.
static PADDING: [u8; LARGEST] = [0xFF; LARGEST];

// The header and the four words that stand before so many bytes of data: the data size field, the sequence number, 0, 0.
fn block_head(sum: u8, size: u32, block: u32, k: u32) -> [u8; 24]
    requires { size ≤ 4096 }
    ensures { result ≡ header_of 0 flash_data_command (16 + size) sum ++ (bytes_of block ++ (bytes_of k ++ (bytes_of 0 ++ bytes_of 0))) }
{
    let mut head = [0u8; 24];
    head[..8].copy_from_slice(&fields::header(
        DIRECTION,
        u8::from(Command::FlashData),
        16 + size,
        u32::from(sum),
    ));
    head[8..].copy_from_slice(&esp_requests::four_words(block, k, 0, 0));
    head
}

// FLASH_DATA, framed, with its data in two parts: the image's bytes, and padding that no copy joins to them.
fn data_parts(
    block: u32,
    k: u32,
    part: &[u8],
    padding: &[u8],
    buffer: &mut [u8],
) -> Result<usize, FrameError>
    requires { length part.now + length padding.now ≤ 4096 }
    ensures { Frames (framing (data_packet block k (part.now ++ padding.now)) buffer.old)
        result buffer.new }
{
    let sum = fields::xor_from(fields::checksum_from(part, 0), padding, 0);
    let size = part.len() + padding.len();
    let head = block_head(sum, size as u32, block, k);
    slip_framing::frame_parts(&head, part, padding, buffer)
}

// FLASH_DATA, framed: block k with these bytes, filled up to the block size; `TooLong` where that is more than a packet may hold. The sending end
// gives no more bytes than a block has; more would stand behind a data size that is not theirs.
pub fn block(block: u32, k: u32, part: &[u8], buffer: &mut [u8]) -> Result<usize, FrameError>
    ensures { Frames (framing (data_packet block k (padded block part.now)) buffer.old)
        result buffer.new }
{
    ensure(block <= LARGEST_BLOCK, FrameError::TooLong)?;
    ensure(part.len() <= LARGEST, FrameError::TooLong)?;
    let missing = (block as usize).saturating_sub(part.len());
    data_parts(block, k, part, &PADDING[..missing], buffer)
}
