// The parameter rules of the commands but BEGIN and data.
#![tactic(auto)]

ghost use Rattle.std.specs.Prelude.{◌≡◌};
ghost use Rattle.esp_parameters.specs.Parameters.{flash_end_rule, in_words, memory_end_rule, sync_rule, register_rule, write_rule, digest_rule, place};

use esp_begin::{Lengths, MEMORY_START};
use fields::{FIRST_WORD, FOURTH_WORD, SECOND_WORD};

// Whether the word of FLASH_END is 0 or 1.
pub fn flash_end_good(packet: &[u8]) -> bool
    ensures { result ≡ flash_end_rule packet.now }
{
    fields::word_at(packet, FIRST_WORD) <= 1
}

// Whether an address lies in the words, aligned or not.
fn in_words(lengths: Lengths, address: u32) -> bool
    ensures { result ≡ in_words lengths address }
{
    (MEMORY_START <= address) & esp_begin::up_to_end(lengths, u64::from(address) + 1)
}

// Whether MEM_END's flag is 1, or 0 with an entry in the words.
pub fn memory_end_good(lengths: Lengths, packet: &[u8]) -> bool
    ensures { result ≡ memory_end_rule lengths packet.now }
{
    let flag = fields::word_at(packet, FIRST_WORD);
    (flag == 1) | ((flag == 0) & in_words(lengths, fields::word_at(packet, SECOND_WORD)))
}

// Whether the body is that of SYNC: four fixed bytes, then 0x55.
pub fn sync_good(packet: &[u8]) -> bool
    ensures { result ≡ sync_rule packet.now }
{
    let lead = b"\x07\x07\x12\x20";
    if packet.len() < SECOND_WORD {
        return false;
    }
    lists::same(&packet[FIRST_WORD..SECOND_WORD], lead) & lists::all_from(packet, SECOND_WORD, 0x55)
}

// Whether an address is a multiple of 4 inside the words.
pub fn register_good(lengths: Lengths, address: u32) -> bool
    ensures { result ≡ register_rule lengths address }
{
    in_words(lengths, address) & (address % 4 == 0)
}

// Whether WRITE_REG's address is good and its delay 0.
pub fn write_good(lengths: Lengths, packet: &[u8]) -> bool
    ensures { result ≡ write_rule lengths packet.now }
{
    let address = fields::word_at(packet, FIRST_WORD);
    let delay = fields::word_at(packet, FOURTH_WORD);
    register_good(lengths, address) & (delay == 0)
}

// Whether the bytes that SPI_FLASH_MD5 names lie in flash, and its other two words are 0.
pub fn digest_good(lengths: Lengths, packet: &[u8]) -> bool
    ensures { result ≡ digest_rule lengths packet.now }
{
    let address = fields::word_at(packet, FIRST_WORD);
    let size = fields::word_at(packet, SECOND_WORD);
    let end = u64::from(address) + u64::from(size);
    esp_commands::zero_words_good(packet) & (end <= lengths.flash as u64)
}

// The place among the words of an address.
pub fn place_of(address: u64) -> usize
    ensures { result ≡ place address }
{
    (address as usize).saturating_sub(MEMORY_START as usize) >> 2
}
