ghost use Rattle.std.specs.Prelude.{◌≡◌, ◌≤◌, ◌<◌, ◌++◌, ℕ, nat_lt, Ok, OnOk, OnErr, string_bytes};
ghost use Rattle.std.specs.Char.{digit_value};
ghost use Rattle.std.specs.List.{list_all};
ghost use Rattle.gtfs_field.specs.Kinds.{colour_of, is_six_hexadecimal};
ghost use Rattle.gtfs_field.specs.Canonical.{colour_text};
ghost use Rattle.gtfs_field.specs.Digits.{hex_digit as glyph};

use crate::OutOfMemory;
use crate::ascii::push_ascii;
use crate::fault::FieldFault;
use std::alloc::Global;
use std::marker::Model;

/// A colour of 24 bits: eight each of red, green and blue, red highest.
#[derive(Clone, Copy, Debug, PartialEq, Eq, PartialOrd, Ord)]
pub struct Colour {
    bits: u32,
}

impl Model for Colour {
    ghost use Rattle.std.specs.Prelude.{ℕ, ◌≤◌};

    ghost Value = { ℕ };

    ghost view = { λ c. c.bits };

    ghost invariant = { λ c. c.bits ≤ 0xFF_FFFF };

    ghost inverse = { λ n. record { bits = n } };
}

impl Colour {
    /// The colour of these 24 bits.
    pub fn from_bits(bits: u32) -> Colour
        requires { bits ≤ 0xFF_FFFF }
        ensures { result ≡ bits }
    {
        Colour { bits }
    }

    /// The 24 bits, 0 to 0xFFFFFF.
    pub fn bits(self) -> u32
        ensures value { result ≡ self }
        ensures bound { result ≤ 0xFF_FFFF }
    {
        self.bits
    }
}

/// Reads a colour: six hexadecimal digits of either case, two each for red, green and blue.
///
/// GTFS Schedule Reference, "Field Types", Color.
///
/// # Errors
/// `Form` for every other text. A colour is never out of range.
pub fn read_colour(text: &str) -> Result<Colour, FieldFault>
    ensures { result ≡ colour_of text.now }
{
    if !is_hexadecimal(text.as_bytes()) {
        return Err(FieldFault::Form);
    }
    match u32::from_str_radix(text, 16) {
        Ok(bits) => Ok(Colour::from_bits(bits)),
        Err(_) => Err(FieldFault::Form),
    }
}

// Whether a text is six hexadecimal digits.
fn is_hexadecimal(text: &[u8]) -> bool
    ensures { result ≡ is_six_hexadecimal text.now }
{
    text.len() == 6 && are_hexadecimal(text)
}

// Whether each byte is a hexadecimal digit.
fn are_hexadecimal(text: &[u8]) -> bool
    ensures { result ≡ list_all (λ b. nat_lt (digit_value b) 16) text.now }
{
    text.iter().all(|byte| char::from(*byte).is_digit(16))
}

/// Appends the canonical text of a colour: six hexadecimal digits in upper case.
///
/// # Errors
/// `OutOfMemory` where the text cannot grow; it is then as it was.
pub fn push_colour(_alloc: Global, text: &mut String, colour: Colour) -> Result<(), OutOfMemory>
    ensures appended { OnOk result
        (string_bytes text.new ≡ string_bytes text.old ++ colour_text colour) }
    ensures unchanged { OnErr result (string_bytes text.new ≡ string_bytes text.old) }
    ensures reads_back { colour_of (colour_text colour) ≡ Ok colour }
    ensures unique { (other : ℕ) → other ≤ 0xFF_FFFF → colour_text other ≡ colour_text colour
        → other ≡ colour }
{
    push_ascii(text, &hexadecimal(colour.bits()))
}

// The six hexadecimal digits of a colour, in upper case.
fn hexadecimal(bits: u32) -> [u8; 6]
    ensures { result ≡ colour_text bits }
{
    [
        hex_digit(bits / 0x10_0000 % 16),
        hex_digit(bits / 0x1_0000 % 16),
        hex_digit(bits / 0x1000 % 16),
        hex_digit(bits / 0x100 % 16),
        hex_digit(bits / 0x10 % 16),
        hex_digit(bits % 16),
    ]
}

// The upper-case hexadecimal digit of a number below 16.
fn hex_digit(value: u32) -> u8
    requires { value < 16 }
    ensures { result ≡ glyph value }
{
    if value < 10 {
        b'0' + value as u8
    } else {
        b'A' + (value - 10) as u8
    }
}
