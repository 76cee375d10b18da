// The text of a table of vectors: fields that a byte ends, bytes in hex, and the line of a vector.
#![tactic(auto)]

ghost use Rattle.std.specs.Prelude.{◌≡◌, ℕ, List, Option, ⊤, ◌+◌, ◌-◌, ◌*◌, ◌/◌, ◌%◌, ◌<◌, ◌≤◌, false, IfOk, [], ◌∷◌, length, take, if◌then◌else◌, nat_le};
ghost use Rattle.std.specs.Io.KnownBytes.{Consumes, IsAtEnd};
ghost use Rattle.lists.specs.Lay.{lay, lay_if_fits};
ghost use Rattle.lists.specs.Bytes.{same_bytes};
ghost use Rattle.tables.specs.Fields.{part_of, past_of, places_of, fields, row_of};
ghost use Rattle.tables.specs.Rows.{is_comment, is_row, IsLine, RunsLine, Runs};
ghost use Rattle.tables.specs.Numbers.{number_of, known, Numbered};
ghost use Rattle.tables.specs.Hex.{is_digit, value_of, is_hex, all_digits, pair_at, bytes_in, unhex, hex_text, most_shown};

use std::io;
use std::io::Read;

pub const TAB: u8 = 9;

// The fields of a row: its source and its name, with the tabs that end them, its operation, the bytes in and the bytes expected.
#[derive(Clone, Copy)]
pub struct Row<'a> {
    pub head: &'a [u8],
    pub operation: &'a [u8],
    pub input: &'a [u8],
    pub expected: &'a [u8],
}

// What a name in a table stands for.
pub trait Named: Copy {
    // Holds of a name and what it names.
    ghost names: { List ℕ → Option Self → Type 0 };

    fn named(name: &[u8]) -> Option<Self>
        ensures { names name.now result };
}

// A line of a table: a comment, which an empty line is too, a row with its operation, or what is no row.
#[derive(Clone, Copy)]
pub enum Line<'a, O> {
    Comment,
    Row(O, Row<'a>),
    Bad,
}

// The bytes from a place up to another; none where these are not places of `s`, in order.
pub fn part(s: &[u8], from: usize, upto: usize) -> &[u8]
    ensures { result.now ≡ part_of s.now from upto }
{
    s.get(from..upto).unwrap_or(&[])
}

// The place behind the next `byte` of a text from a place on, or the text's end.
pub fn past(text: &[u8], from: usize, byte: u8) -> usize
    ensures { result ≡ past_of text.now from byte }
{
    for i in from..text.len() {
        if text[i] == byte {
            return i + 1;
        }
    }
    from.max(text.len())
}

// What stands from a place up to another, less the byte that ends it.
pub fn field(line: &[u8], from: usize, upto: usize) -> &[u8]
    ensures { result.now ≡ part_of line.now from (upto - 1) }
{
    part(line, from, upto.saturating_sub(1))
}

// Where the last three fields of a line start. Where tabs are missing, they start at the line's end.
#[derive(Clone, Copy)]
pub struct Places {
    pub operation: usize,
    pub input: usize,
    pub expected: usize,
}

pub fn places_of(line: &[u8]) -> Places
    ensures { result ≡ places_of line.now }
{
    let operation = past(line, past(line, 0, TAB), TAB);
    let input = past(line, operation, TAB);
    let expected = past(line, input, TAB);
    Places {
        operation,
        input,
        expected,
    }
}

// The fields of a line.
pub fn row_of(line: &[u8]) -> Row<'_>
    ensures { fields result ≡ row_of line.now }
{
    let places = places_of(line);
    Row {
        head: part(line, 0, places.operation),
        operation: field(line, places.operation, places.input),
        input: field(line, places.input, places.expected),
        expected: field(line, places.expected, line.len()),
    }
}

fn is_digit(c: u8) -> bool
    ensures { result ≡ is_digit c }
{
    matches!(c, b'0'..=b'9' | b'A'..=b'F')
}

// The value of a digit.
fn value(c: u8) -> u8
    ensures { (result ≡ value_of c) × (result < 16) }
{
    if c <= b'9' {
        return c.saturating_sub(b'0') % 16;
    }
    (c - (b'A' - 10)) % 16
}

fn all_digits(text: &[u8]) -> bool
    ensures { result ≡ all_digits text.now }
{
    text.iter().all(|c| is_digit(*c))
}

// Whether a text is bytes in hex.
pub fn is_hex(text: &[u8]) -> bool
    ensures { result ≡ is_hex text.now }
{
    text.len() % 2 == 0 && all_digits(text)
}

fn is_comment(line: &[u8]) -> bool
    ensures { result ≡ is_comment line.now }
{
    line.len() == 1 || past(line, 0, b'#') == 1
}

// Whether a line with these bytes in has all its fields, and they are in hex and at most so many.
fn is_row(line: &[u8], input: &[u8], most: usize) -> bool
    requires { input.now ≡ (row_of line.now).input }
    ensures { result ≡ is_row line.now most }
{
    places_of(line).expected < line.len() && is_hex(input) && input.len() / 2 <= most
}

// What a line that is no comment is, by its fields and by what its name means.
fn row_line<'a, O: Copy>(
    line: &[u8],
    row: Row<'a>,
    operation: Option<O>,
    most: usize,
) -> Line<'a, O>
    requires { (is_comment line.now ≡ false) × (fields row ≡ row_of line.now) }
    ensures { IsLine (λ _ named. named ≡ operation) line.now most result }
{
    match operation {
        Some(operation) if is_row(line, row.input, most) => Line::Row(operation, row),
        _ => Line::Bad,
    }
}

// What a line is, with its line feed. A row has five fields and the name of an operation, and its bytes in are at most so many.
pub fn line_of<O: Named>(line: &[u8], most: usize) -> Line<'_, O>
    ensures { IsLine O.names line.now most result }
{
    if is_comment(line) {
        return Line::Comment;
    }
    let row = row_of(line);
    row_line(line, row, O::named(row.operation), most)
}

// No operation has it.
const UNKNOWN: u8 = 255;

// The number of a name, by its place among names; a tab ends each of them, and it too.
fn number_of(name: &[u8], names: &[u8]) -> Option<u8>
    ensures { result ≡ known (number_of name.now names.now) }
{
    let mut number: u8 = 0;
    let mut rest = names;
    while !rest.is_empty() {
        let (first, others) = rest.split_at(past(rest, 0, TAB));
        if lists::same(name, first) {
            return (number < UNKNOWN).then_some(number);
        }
        number = number.wrapping_add(1);
        rest = others;
    }
    None
}

// What a line is, where the names of operations are given as text, a tab behind each: an operation is told by its place among them.
pub fn numbered_line_of<'a>(line: &'a [u8], names: &[u8], most: usize) -> Line<'a, u8>
    ensures { IsLine (Numbered names.now) line.now most result }
{
    if is_comment(line) {
        return Line::Comment;
    }
    let places = places_of(line);
    let number = number_of(part(line, places.operation, places.input), names);
    row_line(line, row_of(line), number, most)
}

// The byte that a pair of digits says.
fn pair(text: &[u8], at: usize) -> u8
    requires { at + 1 < length text.now }
    ensures { result ≡ pair_at text.now at }
{
    value(text[at]) * 16 + value(text[at + 1])
}

// The loop of `decode`, where the bytes fit.
fn decode_fitting(text: &[u8], dst: &mut [u8], n: usize)
    requires { (n ≤ length dst.old) × (2 * n ≤ length text.now) }
    ensures { dst.new ≡ lay dst.old 0 (bytes_in text.now n) }
{
    for i in 0..n {
        dst[i] = pair(text, 2 * i);
    }
}

// Writes the bytes that a text in hex says to the front of a buffer, or nothing where they do not fit. Not by the kit's hex, which takes lower
// case too: of any text it is promised what is written.
pub fn decode(text: &[u8], dst: &mut [u8])
    ensures { dst.new ≡ lay_if_fits dst.old 0 (unhex text.now) }
{
    let n = text.len() / 2;
    if n <= dst.len() {
        decode_fitting(text, dst, n);
    }
}

// The loop of `encode`, where the digits fit.
fn encode_fitting(bytes: &[u8], dst: &mut [u8])
    requires { 2 * length bytes.now ≤ length dst.old }
    ensures { dst.new ≡ lay dst.old 0 (hex_text bytes.now) }
{
    for (i, byte) in bytes.iter().enumerate() {
        let digits = digits::hex(*byte);
        dst[2 * i] = digits[0];
        dst[2 * i + 1] = digits[1];
    }
}

// Writes bytes in hex to the front of a buffer, or nothing where the digits do not fit. Not by the kit's hex, which writes lower case there.
pub fn encode(bytes: &[u8], dst: &mut [u8])
    ensures { dst.new ≡ lay_if_fits dst.old 0 (hex_text bytes.now) }
{
    if bytes.len() <= dst.len() / 2 {
        encode_fitting(bytes, dst);
    }
}

// Writes bytes to the front of a buffer, or nothing where they do not fit; how many bytes that is.
pub fn put(bytes: &[u8], dst: &mut [u8]) -> usize
    ensures { (result ≡ length bytes.now) × (dst.new ≡ lay_if_fits dst.old 0 bytes.now) }
{
    lists::copy_at(dst, 0, bytes);
    bytes.len()
}

// A word at the front of a buffer, the highest byte first, as its digits are written; how many bytes that is.
pub fn put_word(word: u32, dst: &mut [u8]) -> usize
    ensures { (result ≡ 4) × (dst.new ≡ lay_if_fits dst.old 0
        (word / 0x1000000 % 0x100 ∷ word / 0x10000 % 0x100 ∷ word / 0x100 % 0x100 ∷ word % 0x100 ∷ [])) }
{
    put(&word.to_be_bytes(), dst)
}

// The most bytes that are shown.
pub const MOST_SHOWN: usize = 128;

// Prints bytes. A program with vectors goes on where its output fails.
fn write(out: &impl Print, text: &[u8]) {
    let _ = out.write_all(text);
}

// Prints the line of a vector: its source and name, what was expected, as text in hex, and `ok`, or `WRONG` and what came. Whether it
// came as expected; more than 128 bytes are not, and are not shown.
pub fn show(out: &impl Print, head: &[u8], expected: &[u8], got: &[u8]) -> bool
    ensures { result ≡ (if nat_le (length got.now) most_shown then same_bytes expected.now (hex_text got.now) else false) }
{
    write(out, head);
    write(out, expected);
    if MOST_SHOWN < got.len() {
        write(out, b"\tWRONG\ttoo long\n");
        return false;
    }
    let mut digits = [0u8; 2 * MOST_SHOWN];
    encode(got, &mut digits);
    let text = &digits[..2 * got.len()];
    if lists::same(expected, text) {
        write(out, b"\tok\n");
        return true;
    }
    write(out, b"\tWRONG\t");
    write(out, text);
    write(out, b"\n");
    false
}

// What runs the rows of a table.
pub trait Runner {
    type Operation: Named;

    // Holds of a runner, an operation with its bytes in, and the runner after it. The programs promise nothing of what is run.
    ghost runs: { Self → Self.Operation → List ℕ → Self → Type 0 } = { λ _ _ _ _. ⊤ };

    // Runs an operation, and writes what it gives to the front of a buffer, lent as a library has no heap; how many bytes that is.
    fn run(&mut self, operation: Self::Operation, input: &[u8], got: &mut [u8]) -> usize
        ensures { runs self.old operation input.now self.new };
}

// Runs a row, whose bytes in are written to a buffer first.
fn run_row<R: Runner>(
    runner: &mut R,
    out: &impl Print,
    operation: R::Operation,
    row: Row<'_>,
    bytes: &mut [u8],
    got: &mut [u8],
)
    requires { length row.input.now / 2 ≤ length bytes.old }
    ensures { R.runs runner.old operation (unhex row.entry.input.now) runner.new }
{
    decode(row.input, bytes);
    let n = runner.run(operation, part(bytes, 0, row.input.len() / 2), got);
    show(out, row.head, row.expected, part(got, 0, n));
}

// Runs a line, with its line feed.
fn run_line<R: Runner>(
    runner: &mut R,
    out: &impl Print,
    line: &[u8],
    bytes: &mut [u8],
    got: &mut [u8],
)
    ensures { RunsLine R.Operation.names R.runs (length bytes.old) line.now runner.old runner.new }
{
    match line_of(line, bytes.len()) {
        Line::Comment => {},
        Line::Row(operation, row) => run_row(runner, out, operation, row, bytes, got),
        Line::Bad => {
            show(out, b"BAD LINE\t", field(line, 0, line.len()), b"");
        }
    }
}

// Runs the rows of a table, in order, and prints a line for each. A row's bytes in are to fit `bytes`, and what it gives stands at the
// front of `got`; a row finds there what the one before it left. No struct of what is lent: it would hold four borrows, three of them
// mutable, for these three functions alone.
pub fn run<R: Runner>(
    runner: &mut R,
    out: &impl Print,
    text: &[u8],
    bytes: &mut [u8],
    got: &mut [u8],
)
    ensures { Runs (RunsLine R.Operation.names R.runs (length bytes.old)) text.now runner.old runner.new }
{
    let mut rest = text;
    while !rest.is_empty() {
        let (line, others) = rest.split_at(past(rest, 0, b'\n'));
        run_line(runner, out, line, bytes, got);
        rest = others;
    }
}

// Reads a table until the buffer is full or the input ends, by a loop over `read`: std's `read_exact` fails at the input's end, and
// `read_to_end` reads to the heap. How many bytes it has. They are the input's next ones, where these are known.
pub fn read_full<R: Read>(input: &mut R, text: &mut [u8]) -> io::Result<usize>
    ensures within { IfOk result (λ n. n ≤ length text.new) }
    ensures taken { IfOk result (λ n. Consumes (R.remaining input.old) (R.remaining input.new) (take n text.new)) }
    ensures ended { IfOk result (λ n. n < length text.new → IsAtEnd (R.remaining input.new)) }
{
    let mut done: usize = 0;
    while done < text.len() {
        let n = input.read(&mut text[done..])?;
        if n == 0 {
            break;
        }
        done += n;
    }
    Ok(done)
}

// Reads a table, and says where a buffer has no room for more, as then the table may go on. What was read are the input's next bytes.
pub fn read<'a, R: Read>(
    input: &mut R,
    out: &impl Print,
    text: &'a mut [u8],
) -> io::Result<&'a [u8]>
    ensures taken { IfOk result (λ table. Consumes (R.remaining input.old) (R.remaining input.new) table.now) }
    ensures ended { IfOk result (λ table. length table.now < length text.old → IsAtEnd (R.remaining input.new)) }
{
    let n = read_full(input, text)?;
    if n == text.len() {
        show(out, b"", b"TABLE TOO LONG", b"");
    }
    Ok(&text[..n])
}
