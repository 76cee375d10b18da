// Blocks of a load, written into flash and into the words.
#![tactic(auto)]

ghost use Rattle.std.specs.Prelude.{◌≡◌, ◌+◌, ◌≤◌, length};
ghost use Rattle.lists.specs.Lay.{lay};
ghost use Rattle.esp_commands.specs.Block.{payload};
ghost use Rattle.loader_blocks.specs.Flash.{flash_written};
ghost use Rattle.loader_blocks.specs.Memory.{words_of, words_written};

use esp_begin::Begin;
use esp_commands::DATA_AT;

// Block k of a flash session: its data from the old reach to the new, 0xFF up to the end of that sector. Nothing is written
// where the packet or flash is too short for it.
pub fn write_flash(begin: Begin, k: u32, packet: &[u8], flash: &mut [u8])
    ensures { flash.new ≡ flash_written begin k packet.now flash.old }
{
    let old = esp_begin::reach(begin, k);
    let new = esp_begin::reach_after(begin, k);
    let n = (new - old) as usize;
    let at = begin.offset as usize + old as usize;
    let last = begin.offset as usize + esp_begin::round_up(new) as usize;
    if DATA_AT + n <= packet.len() {
        if last <= flash.len() {
            lists::copy_at(flash, at, &packet[DATA_AT..DATA_AT + n]);
            lists::fill(flash, at + n, last, 0xFF);
        }
    }
}

// The first n words of a packet's data, from a place on.
fn pack_at(words: &mut [u32], at: usize, packet: &[u8], n: usize)
    requires { (at + n ≤ length words.old) × (n ≤ 0x40000000) }
    ensures { words.new ≡ lay words.old at (words_of (payload packet.now) n) }
{
    for (i, word) in words[at..at + n].iter_mut().enumerate() {
        *word = fields::word_at(packet, DATA_AT + (i << 2));
    }
}

// Block k of a memory session, four bytes to a word. Nothing is written where the packet is too short for it or the words are too
// few.
pub fn write_words(begin: Begin, k: u32, packet: &[u8], words: &mut [u32])
    ensures { words.new ≡ words_written begin k packet.now words.old }
{
    let old = esp_begin::reach(begin, k);
    let new = esp_begin::reach_after(begin, k);
    let at = esp_parameters::place_of(u64::from(begin.offset) + u64::from(old));
    let size = new - old;
    let n = (size / 4) as usize;
    if DATA_AT + size as usize <= packet.len() {
        if n <= words.len() {
            if at <= words.len() - n {
                pack_at(words, at, packet, n);
            }
        }
    }
}
