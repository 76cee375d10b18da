// WRITE_REG and READ_REG on the words.
#![tactic(auto)]

ghost use Rattle.std.specs.Prelude.{◌≡◌};
ghost use Rattle.loader_registers.specs.Registers.{register_read, register_written};

use fields::{FIRST_WORD, SECOND_WORD, THIRD_WORD};

// WRITE_REG: the merged word in its place, and nothing where the words have no such place; 0xC5 lets none such pass.
pub fn write(packet: &[u8], words: &mut [u32])
    ensures { words.new ≡ register_written packet.now words.old }
{
    let at = esp_parameters::place_of(u64::from(fields::word_at(packet, FIRST_WORD)));
    if at < words.len() {
        let old = words[at];
        words[at] = fields::merge(
            old,
            fields::word_at(packet, SECOND_WORD),
            fields::word_at(packet, THIRD_WORD),
        );
    }
}

// READ_REG: the word in its place, 0 where the words have no such place.
pub fn read(packet: &[u8], words: &[u32]) -> u32
    ensures { result ≡ register_read packet.now words.now }
{
    let at = esp_parameters::place_of(u64::from(fields::word_at(packet, FIRST_WORD)));
    words.get(at).copied().unwrap_or(0)
}
