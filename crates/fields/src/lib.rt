// The fields of packets and frames: their places, words, headers, checksums, the masked merge.
#![tactic(auto)]

ghost use Rattle.std.specs.Prelude.{◌≡◌, ◌<◌, ◌%◌, get_or, drop};
ghost use Rattle.fields.specs.Words.{word, half, bytes_of};
ghost use Rattle.fields.specs.Header.{header_of};
ghost use Rattle.fields.specs.Checksum.{xored, checksum};
ghost use Rattle.fields.specs.Merge.{merged};

// Places of a packet

// The header's length, and the places of the body's first four words.
pub const HEADER: usize = 8;

pub const FIRST_WORD: usize = 8;

pub const SECOND_WORD: usize = 12;

pub const THIRD_WORD: usize = 16;

pub const FOURTH_WORD: usize = 20;

// Words

// The byte at a place; one past the end counts as 0.
fn byte_at(s: &[u8], at: usize) -> u8
    ensures { result ≡ get_or s.now at 0 }
{
    s.get(at).map_or(0, |byte| *byte)
}

// The word at a place, least byte first.
pub fn word_at(s: &[u8], at: usize) -> u32
    ensures { result ≡ word s.now at }
{
    if s.len() <= at {
        return 0;
    }
    u32::from_le_bytes([
        byte_at(s, at),
        byte_at(s, at + 1),
        byte_at(s, at + 2),
        byte_at(s, at + 3),
    ])
}

// The number of two bytes at a place, least byte first.
pub fn half_at(s: &[u8], at: usize) -> u32
    ensures { result ≡ half s.now at }
{
    if s.len() <= at {
        return 0;
    }
    u32::from(u16::from_le_bytes([byte_at(s, at), byte_at(s, at + 1)]))
}

// The four bytes of a word.
pub type WordBytes = [u8; 4];

// The four bytes of a word, least first.
pub fn bytes_of(x: u32) -> WordBytes
    ensures { result ≡ bytes_of x }
{
    x.to_le_bytes()
}

// Headers

// The bytes of a header.
pub type HeaderBytes = [u8; 8];

// The header before a body of this size: direction, command, the size's two low bytes, and a word, a request's checksum or an answer's
// value.
pub fn header(direction: u8, command: u8, size: u32, word: u32) -> HeaderBytes
    ensures { result ≡ header_of direction command size word }
{
    let s = bytes_of(size);
    let w = bytes_of(word);
    [direction, command, s[0], s[1], w[0], w[1], w[2], w[3]]
}

// Checksums

// The bytes from a place on, none where that is past the end. By the place alone: the kit's `skip` goes over the bytes before it one by one.
fn behind(s: &[u8], from: usize) -> &[u8]
    ensures { result.now ≡ drop from s.now }
{
    &s[from.min(s.len())..]
}

// A seed XORed with each byte from a place on.
pub fn xor_from(seed: u8, s: &[u8], from: usize) -> u8
    ensures { result ≡ xored seed (drop from s.now) }
{
    behind(s, from).iter().fold(seed, |x, byte| x ^ *byte)
}

// What a checksum of data starts from.
const SEED: u8 = 0xEF;

// The checksum of the bytes from a place on.
pub fn checksum_from(s: &[u8], from: usize) -> u8
    ensures { result ≡ checksum (drop from s.now) }
{
    xor_from(SEED, s, from)
}

// The masked merge

// Bits under the mask come from the value, the others stay.
pub fn merge(old: u32, value: u32, mask: u32) -> u32
    ensures { result ≡ merged old value mask }
{
    (old & !mask) | (value & mask)
}
