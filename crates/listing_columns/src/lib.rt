// The columns of the listing: its heading, and what stands behind a packet's number.
#![tactic(auto)]

ghost use Rattle.std.specs.Prelude.{◌≡◌};
ghost use Rattle.digits.specs.Hex.{hex2};
ghost use Rattle.slip_unframing.specs.Reasons.{letters};
ghost use Rattle.esp_commands.specs.Status.{status_of};
ghost use Rattle.listing_columns.specs.Columns.{heading as Columns·heading};
ghost use Rattle.listing_columns.specs.Columns.{fields_of, dashes};

use digits::hex;
use esp_commands::status_of;
use slip_unframing::Reason;

const TAB: u8 = b'\t';

const LINE_FEED: u8 = b'\n';

// The heading's bytes; what stands behind the number of a packet that was read.
pub type HeadingBytes = [u8; 24];

pub type RowFields = [u8; 10];

// The listing's first line.
pub fn heading() -> HeadingBytes
    ensures { result ≡ Columns·heading }
{
    *b"no\tcommand\tstatus\terror\n"
}

// What follows the number of a packet that was read. Command and error are bytes, since any is shown.
pub fn read_fields(command: u8, error: u8) -> RowFields
    ensures { result ≡ fields_of (hex2 command) (hex2 (status_of error)) (hex2 error) }
{
    let c = hex(command);
    let s = hex(status_of(error));
    let e = hex(error);
    [TAB, c[0], c[1], TAB, s[0], s[1], TAB, e[0], e[1], LINE_FEED]
}

// What follows the number of a packet that was dropped.
pub fn dropped_fields(reason: Reason) -> &'static [u8]
    ensures { result.now ≡ fields_of dashes dashes (letters reason) }
{
    match reason {
        Reason::BadEscape => b"\t--\t--\tESC\n",
        Reason::CutEscape => b"\t--\t--\tCUT\n",
        Reason::TooLong => b"\t--\t--\tLONG\n",
        Reason::TooShort => b"\t--\t--\tSHORT\n",
        Reason::WrongDirection => b"\t--\t--\tDIR\n",
    }
}
