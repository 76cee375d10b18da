// What a BEGIN announces, and the rules for its numbers and for the length of flash.
#![tactic(auto)]

ghost use Rattle.std.specs.Prelude.{◌≡◌, ◌+◌, nat_le};
ghost use Rattle.esp_begin.specs.Begin.{begin_of, round_up, counted, flash_rule, memory_end, memory_rule, reached};
ghost use Rattle.esp_begin.specs.Count.{count_of};
ghost use Rattle.esp_begin.specs.Flash.{flash_length};

use fields::{FIRST_WORD, FOURTH_WORD, SECOND_WORD, THIRD_WORD};

// What a BEGIN announces: size S, block count n, block size b, and the offset or address.
#[derive(Clone, Copy)]
pub struct Begin {
    pub size: u32,
    pub count: u32,
    pub block: u32,
    pub offset: u32,
}

// The lengths lent: flash in bytes, memory in words.
#[derive(Clone, Copy)]
pub struct Lengths {
    pub flash: usize,
    pub words: usize,
}

// The numbers of a BEGIN, read from its packet.
pub fn begin_of(packet: &[u8]) -> Begin
    ensures { result ≡ begin_of packet.now }
{
    Begin {
        size: fields::word_at(packet, FIRST_WORD),
        count: fields::word_at(packet, SECOND_WORD),
        block: fields::word_at(packet, THIRD_WORD),
        offset: fields::word_at(packet, FOURTH_WORD),
    }
}

// A sector's length in bytes.
pub const SECTOR: u32 = 4096;

// The largest block.
pub const LARGEST_BLOCK: u32 = 4096;

// Rounded up to a sector.
pub fn round_up(x: u32) -> u64
    ensures { result ≡ round_up x }
{
    u64::from(x) + u64::from((SECTOR - x % SECTOR) % SECTOR)
}

// The longest flash: 4 MiB.
pub const LONGEST_FLASH: usize = 4194304;

// Refusal 3, the sending end's too: flash is a multiple of a sector, up to 4 MiB. A sector's length is a power of 2, so a multiple has
// none of the bits below.
pub fn flash_length_good(n: usize) -> bool
    ensures { result ≡ flash_length n }
{
    (1 <= n) & (((n & (SECTOR as usize - 1)) == 0) & (n <= LONGEST_FLASH))
}

// The count of no bytes, and of blocks of none.
const NO_BLOCKS: u32 = 0;

// How many blocks hold so many bytes: S/b rounded up, and none where b is 0. With S from 1 this is (S - 1)/b + 1: no product, and a sum
// of at most S. Not by u32::div_ceil, since it calls nothing (docs/wide-operations).
pub fn count_of(size: u32, block: u32) -> u32
    ensures { result ≡ count_of size block }
{
    if block == 0 {
        return NO_BLOCKS;
    }
    if size == 0 {
        return NO_BLOCKS;
    }
    (size - 1) / block + 1
}

// Whether the block count is the size over the block size, rounded up.
fn count_good(begin: Begin) -> bool
    ensures { result ≡ counted begin }
{
    let block = begin.block;
    if block == 0 {
        return false;
    }
    begin.count == count_of(begin.size, block)
}

// Whether a flash BEGIN's numbers are good.
pub fn flash_good(lengths: Lengths, begin: Begin) -> bool
    ensures { result ≡ flash_rule lengths begin }
{
    let block = begin.block;
    let offset = begin.offset;
    let last = u64::from(offset) + round_up(begin.size);
    let placed = (offset % SECTOR == 0) & (last <= lengths.flash as u64);
    (1 <= block) & ((block <= LARGEST_BLOCK) & (count_good(begin) & placed))
}

// The address of the first word.
pub const MEMORY_START: u32 = 0x40100000;

// Whether an address is at most the one past the last word. The words are doubled twice and not multiplied; so many that this would
// wrap reach past every address.
pub fn up_to_end(lengths: Lengths, address: u64) -> bool
    ensures { result ≡ nat_le address (memory_end lengths) }
{
    let start = u64::from(MEMORY_START);
    if address <= start {
        return true;
    }
    let words = lengths.words as u64;
    if 0x4000_0000_0000_0000 <= words {
        return true;
    }
    let twice = words + words;
    if address - start <= twice + twice {
        return true;
    }
    false
}

// Whether a memory BEGIN's numbers are good.
pub fn memory_good(lengths: Lengths, begin: Begin) -> bool
    ensures { result ≡ memory_rule lengths begin }
{
    let size = begin.size;
    let block = begin.block;
    let address = begin.offset;
    let last = u64::from(address) + u64::from(size);
    let placed = (MEMORY_START <= address) & up_to_end(lengths, last);
    let aligned = (size % 4 == 0) & ((block % 4 == 0) & ((address % 4 == 0) & placed));
    (4 <= block) & ((block <= LARGEST_BLOCK) & (count_good(begin) & aligned))
}

// How many bytes k blocks reach, of the announced size. The product is taken only where it is at most the size.
pub fn reach(begin: Begin, k: u32) -> u32
    ensures { result ≡ reached begin k }
{
    let size = begin.size;
    let block = begin.block;
    if block == 0 {
        return 0;
    }
    if k <= size / block { k * block } else { size }
}

// How many bytes are reached once block k is accepted too: a block more, or all.
pub fn reach_after(begin: Begin, k: u32) -> u32
    ensures { result ≡ reached begin (k + 1) }
{
    let size = begin.size;
    let block = begin.block;
    let old = reach(begin, k);
    let left = size - old;
    if block <= left { old + block } else { size }
}
