// The packer of pins.
#![tactic(auto)]

ghost use Rattle.std.specs.Prelude.{◌≡◌, true};
ghost use Rattle.pins.specs.Packer.{pin_good, pin_field, pins_good, pins_word, pin_number, packing, packing_of};

pub use esp_attach::Pins;
use lists::ensure;

// Why pins have no word.
#[derive(Clone, Copy, PartialEq, Eq)]
pub enum PinError {
    // a pin that no field can say, or words 0 and 1, which mean the default pins and HSPI
    NoWord,
    // two lines have the same pin
    EqualPins,
}

impl From<PinError> for u8 {
    ghost from_gives = { λ error number. number ≡ pin_number error };

    fn from(error: PinError) -> u8 {
        match error {
            PinError::NoWord => 9,
            PinError::EqualPins => 17,
        }
    }
}

// Whether a field can say a pin.
#[tactic(auto, unfolding(crate::specs::Packer::pin_good))]
fn pin_good(pin: u32) -> bool
    ensures { result ≡ pin_good pin }
{
    pin < 30 || pin == 32 || pin == 33
}

// The field of a pin: 30 and 31 mean pins 32 and 33.
#[tactic(auto, unfolding(crate::specs::Packer::pin_field))]
fn pin_field(pin: u32) -> u32
    ensures { result ≡ pin_field pin }
{
    if pin < 30 { pin } else { pin - 2 }
}

// Whether all five pins can be said.
#[tactic(auto, unfolding(crate::specs::Packer::pins_good))]
fn pins_good(pins: Pins) -> bool
    ensures { result ≡ pins_good pins }
{
    pin_good(pins.hd)
        && pin_good(pins.q)
        && pin_good(pins.d)
        && pin_good(pins.cs)
        && pin_good(pins.clk)
}

// The word of good pins.
fn pins_word(pins: Pins) -> u32
    requires { pins_good pins ≡ true }
    ensures { result ≡ pins_word pins }
{
    let hd = pin_field(pins.hd);
    let q = pin_field(pins.q);
    let d = pin_field(pins.d);
    let cs = pin_field(pins.cs);
    let clk = pin_field(pins.clk);
    (hd << 24) | (q << 18) | (d << 12) | (cs << 6) | clk
}

// The word that says the pins. Equal pins are told after pins that have no word.
#[tactic(auto, unfolding(crate::specs::Packer::packing_of))]
pub fn pack(pins: Pins) -> Result<u32, PinError>
    ensures { packing result ≡ packing_of pins }
{
    ensure(pins_good(pins), PinError::NoWord)?;
    let word = pins_word(pins);
    ensure(1 < word, PinError::NoWord)?;
    ensure(!esp_attach::two_equal(pins), PinError::EqualPins)?;
    Ok(word)
}
