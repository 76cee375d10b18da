// The pin word of SPI_ATTACH.
#![tactic(auto)]

ghost use Rattle.std.specs.Prelude.{◌≡◌};
ghost use Rattle.esp_attach.specs.Pins.{fields_of, no_pins, fields_good, two_equal, attach_rule, attach_apart, attach_good};

// The pins of an SPI flash, or the fields of a word that say them.
#[derive(Clone, Copy)]
pub struct Pins {
    pub hd: u32,
    pub q: u32,
    pub d: u32,
    pub cs: u32,
    pub clk: u32,
}

// The five fields of a word, highest first.
fn fields_of(word: u32) -> Pins
    ensures { result ≡ fields_of word }
{
    Pins {
        hd: (word >> 24) & 63,
        q: (word >> 18) & 63,
        d: (word >> 12) & 63,
        cs: (word >> 6) & 63,
        clk: word & 63,
    }
}

// Words 0 and 1 hold no pins: they mean the default pins and HSPI.
#[tactic(auto, unfolding(crate::specs::Pins::no_pins))]
fn no_pins(word: u32) -> bool
    ensures { result ≡ no_pins word }
{
    word == 0 || word == 1
}

// Whether a word holds five fields that say pins, and nothing above them.
#[tactic(auto, unfolding(crate::specs::Pins::fields_good))]
fn fields_good(word: u32) -> bool
    ensures { result ≡ fields_good word }
{
    let fields = fields_of(word);
    word < 0x4000_0000
        && fields.hd <= 31
        && fields.q <= 31
        && fields.d <= 31
        && fields.cs <= 31
        && fields.clk <= 31
}

// Whether two of the five are equal: the ten pairs.
#[tactic(auto, unfolding(crate::specs::Pins::two_equal))]
pub fn two_equal(pins: Pins) -> bool
    ensures { result ≡ two_equal pins }
{
    pins.hd == pins.q
        || pins.hd == pins.d
        || pins.hd == pins.cs
        || pins.hd == pins.clk
        || pins.q == pins.d
        || pins.q == pins.cs
        || pins.q == pins.clk
        || pins.d == pins.cs
        || pins.d == pins.clk
        || pins.cs == pins.clk
}

// Whether a word keeps SPI_ATTACH's rule under 0xC5.
#[tactic(auto, unfolding(crate::specs::Pins::attach_rule))]
pub fn attach_ruled(word: u32) -> bool
    ensures { result ≡ attach_rule word }
{
    no_pins(word) || fields_good(word)
}

// Whether a word gives no two lines the same pin, as 0xC7 asks.
#[tactic(auto, unfolding(crate::specs::Pins::attach_apart))]
pub fn attach_apart(word: u32) -> bool
    ensures { result ≡ attach_apart word }
{
    no_pins(word) || !two_equal(fields_of(word))
}

// Whether SPI_ATTACH takes a word.
#[tactic(auto, unfolding(crate::specs::Pins::attach_good))]
pub fn attach_good(word: u32) -> bool
    ensures { result ≡ attach_good word }
{
    attach_ruled(word) && attach_apart(word)
}
