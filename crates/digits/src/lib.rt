// Numbers as text.
#![tactic(auto)]

ghost use Rattle.std.specs.Prelude.{◌≡◌, ◌<◌};
ghost use Rattle.digits.specs.Hex.{hex_digit, hex2};

// A byte's two digits.
pub type HexDigits = [u8; 2];

fn hex_digit(d: u8) -> u8
    requires { d < 16 }
    ensures { result ≡ hex_digit d }
{
    if d < 10 { b'0' + d } else { b'A' + (d - 10) }
}

// A byte as two hexadecimal digits, in upper case. The kit's hex writes these to the heap alone.
pub fn hex(byte: u8) -> HexDigits
    ensures { result ≡ hex2 byte }
{
    [hex_digit(byte / 16), hex_digit(byte % 16)]
}
