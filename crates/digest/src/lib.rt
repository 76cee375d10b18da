// The digest of RFC 1321, MD5, of a part of flash.
#![tactic(auto)]

ghost use Rattle.std.specs.Prelude.{◌≡◌, ◌++◌, ◌%◌, ◌^◌, length, take, drop};
ghost use Rattle.fields.specs.Words.{bytes_of};
ghost use Rattle.digest_block.specs.Tables.{sines};
ghost use Rattle.digest.specs.Padding.{length_of};
ghost use Rattle.digest.specs.Tail.{tail_size, tail_of};
ghost use Rattle.digest.specs.Blocks.{start, words_of, chained};
ghost use Rattle.digest.specs.Digest.{output_of, md5_of};

use digest_block::{BlockWords, Registers, Sines};
use fields::{bytes_of, word_at};

// The bytes of a digest.
pub type DigestBytes = [u8; 16];

// Parts of bytes

// The bytes from a place on; none past the end.
fn from(s: &[u8], at: usize) -> &[u8]
    ensures { result.now ≡ drop at s.now }
{
    &s[at.min(s.len())..]
}

// The first `n` bytes; all where there are fewer.
fn first(s: &[u8], n: usize) -> &[u8]
    ensures { result.now ≡ take n s.now }
{
    &s[..n.min(s.len())]
}

// Padding

// Two words as bytes, the low-order byte of each first. Not u64::to_le_bytes, which divides in 64 bits (docs/wide-operations).
fn two_words(x: u32, y: u32) -> [u8; 8]
    ensures { result ≡ bytes_of x ++ bytes_of y }
{
    let a = bytes_of(x);
    let b = bytes_of(y);
    [a[0], a[1], a[2], a[3], b[0], b[1], b[2], b[3]]
}

// The low-order word of a number. Masked, since a cast may lose no bits.
fn low_word(x: usize) -> u32
    ensures { result ≡ x % 2 ^ 32 }
{
    (x & 0xFFFF_FFFF) as u32
}

// The length in bits: the low-order 64 of them, as two words, the low-order one first.
fn length_bytes(n: usize) -> [u8; 8]
    ensures { result ≡ length_of n }
{
    let bits = n << 3;
    two_words(low_word(bits), (bits >> 32) as u32)
}

// How many of n bytes stand behind the last whole block. A mask: `%` would divide in 64 bits (docs/wide-operations).
fn rest(n: usize) -> usize
    ensures { result ≡ n % 64 }
{
    n & 63
}

// How long the tail is: a block, or two where the length does not fit into the block in which the message ends.
fn tail_size(n: usize) -> usize
    ensures { result ≡ tail_size n }
{
    if rest(n) < 56 { 64 } else { 128 }
}

// The tail of the padded message, at the front of two blocks, of which `tail_size` tells how many bytes it has: there is no heap.
fn tail(m: &[u8]) -> [u8; 128]
    ensures { take (tail_size (length m.now)) result ≡ tail_of m.now }
{
    let n = m.len();
    let behind = rest(n);
    let mut t = [0u8; 128];
    lists::copy_at(&mut t, 0, from(m, n - behind));
    t[behind] = 0x80;
    let bits = length_bytes(n);
    lists::copy_at(&mut t, tail_size(n) - 8, &bits);
    t
}

// Blocks

// The registers before the first block.
fn start() -> Registers
    ensures { result ≡ start }
{
    Registers {
        a: 0x67452301,
        b: 0xefcdab89,
        c: 0x98badcfe,
        d: 0x10325476,
    }
}

// The sixteen words of a block. Places are shifted, since `4 * k` is a product of 64 bits.
fn words(s: &[u8]) -> BlockWords
    ensures { result ≡ words_of s.now }
{
    let mut x = [0; 16];
    for (k, word) in x.iter_mut().enumerate() {
        *word = word_at(s, k << 2);
    }
    x
}

// The registers after all whole blocks of `s`. `t` is the table T. Not by chunks_exact, which divides in 64 bits (docs/wide-operations).
fn chain(r: Registers, s: &[u8], t: &Sines) -> Registers
    requires { t.now ≡ sines }
    ensures { result ≡ chained r s.now }
{
    let mut q = r;
    let mut left = s;
    while 64 <= left.len() {
        let (block, behind) = left.split_at(64);
        q = digest_block::block(q, &words(block), t);
        left = behind;
    }
    q
}

// The digest

// The bytes of the registers, from A to D.
fn output(r: Registers) -> DigestBytes
    ensures { result ≡ output_of r }
{
    let mut d = [0u8; 16];
    lists::copy_at(&mut d, 0, &two_words(r.a, r.b));
    lists::copy_at(&mut d, 8, &two_words(r.c, r.d));
    d
}

// The digest of a message, of which only what is behind its last whole block is copied.
fn digest(m: &[u8]) -> DigestBytes
    ensures { result ≡ md5_of m.now }
{
    let t = digest_block::table();
    let r = chain(start(), m, &t);
    let last = tail(m);
    output(chain(r, first(&last, tail_size(m.len())), &t))
}

// The MD5 of `size` bytes of flash from `at` on, or of as many as there are. They are read where they stand.
pub fn md5(flash: &[u8], at: usize, size: usize) -> DigestBytes
    ensures { result ≡ md5_of (take size (drop at flash.now)) }
{
    digest(first(from(flash, at), size))
}
