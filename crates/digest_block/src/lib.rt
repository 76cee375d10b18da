// A block of sixteen words, mixed into the four registers as RFC 1321, 3.4, says.
#![tactic(auto)]

ghost use Rattle.std.specs.Prelude.{◌≡◌, ◌+◌, ◌*◌, ◌<◌, ◌≤◌, ◌%◌};
ghost use Rattle.digest_block.specs.Functions.{number, mixed};
ghost use Rattle.digest_block.specs.Tables.{sines, place_of, shifts_of};
ghost use Rattle.digest_block.specs.Rounds.{operation_of, four_of, round_of, rounds_of, block_of};

// The registers A, B, C and D.
#[derive(Clone, Copy)]
pub struct Registers {
    pub a: u32,
    pub b: u32,
    pub c: u32,
    pub d: u32,
}

// The words X[0] to X[15] of a block.
pub type BlockWords = [u32; 16];

// The table T, which is made from sines.
pub type Sines = [u32; 64];

// T[1] to T[64].
const T: Sines = [
    0xd76aa478, 0xe8c7b756, 0x242070db, 0xc1bdceee, 0xf57c0faf, 0x4787c62a, 0xa8304613, 0xfd469501,
    0x698098d8, 0x8b44f7af, 0xffff5bb1, 0x895cd7be, 0x6b901122, 0xfd987193, 0xa679438e, 0x49b40821,
    0xf61e2562, 0xc040b340, 0x265e5a51, 0xe9b6c7aa, 0xd62f105d, 0x02441453, 0xd8a1e681, 0xe7d3fbc8,
    0x21e1cde6, 0xc33707d6, 0xf4d50d87, 0x455a14ed, 0xa9e3e905, 0xfcefa3f8, 0x676f02d9, 0x8d2a4c8a,
    0xfffa3942, 0x8771f681, 0x6d9d6122, 0xfde5380c, 0xa4beea44, 0x4bdecfa9, 0xf6bb4b60, 0xbebfbc70,
    0x289b7ec6, 0xeaa127fa, 0xd4ef3085, 0x04881d05, 0xd9d4d039, 0xe6db99e5, 0x1fa27cf8, 0xc4ac5665,
    0xf4292244, 0x432aff97, 0xab9423a7, 0xfc93a039, 0x655b59c3, 0x8f0ccc92, 0xffeff47d, 0x85845dd1,
    0x6fa87e4f, 0xfe2ce6e0, 0xa3014314, 0x4e0811a1, 0xf7537e82, 0xbd3af235, 0x2ad7d2bb, 0xeb86d391,
];

// The table T, to be lent to `block`.
pub fn table() -> Sines
    ensures { result ≡ sines }
{
    T
}

// The function of a round, by which the round is named here.
#[derive(Clone, Copy)]
enum Function {
    F,
    G,
    H,
    I,
}

// The k of operation `j` of a round.
fn place(function: Function, j: u32) -> u32
    requires { j < 16 }
    ensures { (result ≡ place_of (number function) j) × (result < 16) }
{
    match function {
        Function::F => j,
        Function::G => (5 * j + 1) % 16,
        Function::H => (3 * j + 5) % 16,
        Function::I => 7 * j % 16,
    }
}

// The place in the table of operation `j` of a round.
fn entry(function: Function, j: u32) -> u32
    requires { j < 16 }
    ensures { (result ≡ 16 * number function + j) × (result < 64) }
{
    match function {
        Function::F => j,
        Function::G => 16 + j,
        Function::H => 32 + j,
        Function::I => 48 + j,
    }
}

// The rotations of each four operations of a round.
fn rotations(function: Function) -> [u32; 4]
    ensures { result ≡ shifts_of (number function) }
{
    match function {
        Function::F => [7, 12, 17, 22],
        Function::G => [5, 9, 14, 20],
        Function::H => [4, 11, 16, 23],
        Function::I => [6, 10, 15, 21],
    }
}

// The function itself.
fn mix(function: Function, x: u32, y: u32, z: u32) -> u32
    ensures { result ≡ mixed (number function) x y z }
{
    match function {
        Function::F => (x & y) | (!x & z),
        Function::G => (x & z) | (y & !z),
        Function::H => x ^ y ^ z,
        Function::I => y ^ (x | !z),
    }
}

// Operation `j` of a round, with its rotation. The parameters are those of the RFC's line `[abcd k s i]`, block and table beside them.
fn operation(
    r: Registers,
    function: Function,
    j: u32,
    x: &BlockWords,
    t: &Sines,
    s: u32,
) -> Registers
    requires { (j < 16) × ((0 < s) × (s < 32)) }
    ensures { result ≡ operation_of t.now (number function) j s r x.now }
{
    let k = place(function, j) as usize;
    let i = entry(function, j) as usize;
    let f = r.a.wrapping_add(mix(function, r.b, r.c, r.d));
    let v = f.wrapping_add(x[k]).wrapping_add(t[i]);
    Registers {
        a: r.d,
        b: r.b.wrapping_add(v.rotate_left(s)),
        c: r.b,
        d: r.c,
    }
}

// Four operations of a round, from operation `j` on. Block and table are lent, so they are no fields of the registers.
fn four(r: Registers, function: Function, j: u32, x: &BlockWords, t: &Sines) -> Registers
    requires { j ≤ 12 }
    ensures { result ≡ four_of t.now (number function) j r x.now }
{
    let [s0, s1, s2, s3] = rotations(function);
    let e = operation(r, function, j, x, t, s0);
    let f = operation(e, function, j + 1, x, t, s1);
    let g = operation(f, function, j + 2, x, t, s2);
    operation(g, function, j + 3, x, t, s3)
}

// A round. Its function is handed down as a literal, so that each round is compiled to rotations by constants.
fn round(r: Registers, function: Function, x: &BlockWords, t: &Sines) -> Registers
    ensures { result ≡ round_of t.now (number function) r x.now }
{
    let e = four(r, function, 0, x, t);
    let f = four(e, function, 4, x, t);
    let g = four(f, function, 8, x, t);
    four(g, function, 12, x, t)
}

// The four rounds.
fn rounds(r: Registers, x: &BlockWords, t: &Sines) -> Registers
    ensures { result ≡ rounds_of t.now r x.now }
{
    let e = round(r, Function::F, x, t);
    let f = round(e, Function::G, x, t);
    let g = round(f, Function::H, x, t);
    round(g, Function::I, x, t)
}

// A block of sixteen words: the registers after the four rounds, each increased by what it had. The table is lent, and so laid out
// once for all blocks of a message.
pub fn block(r: Registers, x: &BlockWords, t: &Sines) -> Registers
    ensures { result ≡ block_of t.now r x.now }
{
    let h = rounds(r, x, t);
    Registers {
        a: h.a.wrapping_add(r.a),
        b: h.b.wrapping_add(r.b),
        c: h.c.wrapping_add(r.c),
        d: h.d.wrapping_add(r.d),
    }
}
