// Numbers as they are typed behind a program's name: decimal, or hexadecimal behind 0x.
#![tactic(auto)]

ghost use Rattle.std.specs.Prelude.{◌≡◌, ◌≤◌};
ghost use Rattle.sender_numbers.specs.Numbers.{is_hex, digits_of, said, number_of};

// The number that a text of digits in a base says, or the largest of 64 bits where it is larger. An empty text says none. Not by
// `from_str_radix`, which takes a plus sign and fails where the number is larger.
fn digits(text: &[u8], base: u32) -> Option<usize>
    requires { (2 ≤ base) × (base ≤ 16) }
    ensures { said result ≡ digits_of base text.now }
{
    if text.is_empty() {
        return None;
    }
    let mut number: usize = 0;
    for byte in text {
        let digit = char::from(*byte).to_digit(base)?;
        number = number
            .saturating_mul(base as usize)
            .saturating_add(digit as usize);
    }
    Some(number)
}

// Whether 0x stands in front, in either case.
fn is_hex(text: &[u8]) -> bool
    ensures { result ≡ is_hex text.now }
{
    text.starts_with(b"0x") || text.starts_with(b"0X")
}

// The number that a text says, or the largest of 64 bits where it is larger. With a sign, a space or any other byte that is no digit it says
// none.
pub fn read(text: &[u8]) -> Option<usize>
    ensures { said result ≡ number_of text.now }
{
    if is_hex(text) {
        return digits(&text[2..], 16);
    }
    digits(text, 10)
}
