ghost use Rattle.std.specs.Prelude.{◌≡◌, pos, negsuc, neg_ℤ, ◌≤ℤ◌, ◌≤◌, ◌<◌, ◌*◌, ◌-◌, ◌/◌, ◌^◌, Some, None, min, slice_index, length, if◌then◌else◌, ◌+◌, ◌++◌, ◌∷◌, [], ℤ, unsigned_abs, Ok, OnOk, OnErr, string_bytes, string_len};
ghost use Rattle.std.specs.String.{string_capacity};
ghost use Rattle.std.specs.List.{before_first, after_first};
ghost use Rattle.std.specs.Str.{all_ascii_digits};
ghost use Rattle.gtfs_field.specs.Digits.{number, wide, without_last_zeros};
ghost use Rattle.gtfs_field.specs.Canonical.{coordinate_text, degrees_text};
ghost use Rattle.gtfs_field.specs.Kinds.{coordinate_of, has_coordinate_shape, magnitude, unsigned_part, is_sign, is_point, are_digits, billionths, most_degrees};
ghost use Rattle.gtfs_field.specs.declared.coord.Axis.{Axis};

use crate::OutOfMemory;
use crate::ascii::{push_ascii, write_wide};
use crate::digits::digits_of;
use crate::fault::FieldFault;
use itoa::Buffer;
use std::alloc::Global;
use std::marker::Model;

/// Which of its two kinds a coordinate is.
#[derive(Clone, Copy, Debug, PartialEq, Eq)]
pub enum Axis {
    /// North or south of the equator: -90 to 90 degrees.
    Latitude,
    /// East or west of the prime meridian: -180 to 180 degrees.
    Longitude,
}

impl Axis {
    ghost use Rattle.gtfs_field.specs.Kinds.{most_degrees};

    // The most units of 10^-9 degree that the axis has on either side of zero.
    fn most_nanodegrees(self) -> u64
        ensures value { result ≡ most_degrees self * 10 ^ 9 }
        ensures bound { result ≤ 180_000_000_000 }
    {
        match self {
            Axis::Latitude => 90_000_000_000,
            Axis::Longitude => 180_000_000_000,
        }
    }
}

/// A latitude or a longitude in units of 10^-9 degree, from -180 to 180 degrees.
#[derive(Clone, Copy, Debug, PartialEq, Eq, PartialOrd, Ord)]
pub struct Coord {
    nanodegrees: i64,
}

impl Model for Coord {
    ghost use Rattle.std.specs.Prelude.{ℤ, pos, negsuc, ◌≤ℤ◌};

    ghost Value = { ℤ };

    ghost view = { λ c. c.nanodegrees };

    ghost invariant = { λ c. (negsuc 179_999_999_999 ≤ℤ c.nanodegrees)
        × (c.nanodegrees ≤ℤ pos 180_000_000_000) };

    ghost inverse = { λ n. record { nanodegrees = n } };
}

impl Coord {
    /// The coordinate of that many units of 10^-9 degree.
    pub fn from_nanodegrees(nanodegrees: i64) -> Coord
        requires low { negsuc 179_999_999_999 ≤ℤ nanodegrees }
        requires high { nanodegrees ≤ℤ pos 180_000_000_000 }
        ensures { result ≡ nanodegrees }
    {
        Coord { nanodegrees }
    }

    /// Units of 10^-9 degree, from -180,000,000,000 to 180,000,000,000.
    pub fn nanodegrees(self) -> i64
        ensures value { result ≡ self }
        ensures low { negsuc 179_999_999_999 ≤ℤ result }
        ensures high { result ≤ℤ pos 180_000_000_000 }
    {
        self.nanodegrees
    }
}

/// Reads a coordinate in degrees:
/// an optional sign, and digits with at most one point among them, at least one digit.
///
/// Digits after the ninth of the fraction are cut off, and the limit is judged after the cut: 90
/// degrees for a latitude, 180 for a longitude, on either side of zero (GTFS Schedule Reference,
/// "Field Types", Latitude and Longitude).
///
/// # Errors
/// `Form` for every other text, exponents included;
/// `Range` where the cut value lies beyond the limit.
pub fn read_coord(text: &str, axis: Axis) -> Result<Coord, FieldFault>
    ensures { result ≡ coordinate_of axis text.now }
{
    match magnitude_of(without_sign(text)) {
        None => Err(FieldFault::Form),
        Some(magnitude) if magnitude > axis.most_nanodegrees() => Err(FieldFault::Range),
        Some(magnitude) if text.starts_with('-') => Ok(Coord::from_nanodegrees(
            -(magnitude as i64),
        )),
        Some(magnitude) => Ok(Coord::from_nanodegrees(magnitude as i64)),
    }
}

// The text without a sign at its head.
fn without_sign(text: &str) -> &str
    ensures { result.now ≡ unsigned_part text.now }
{
    if begins_with_sign(text.as_bytes()) {
        &text[1..]
    } else {
        text
    }
}

// Whether the first byte is `+` or `-`.
fn begins_with_sign(text: &[u8]) -> bool
    ensures { result ≡ is_sign (slice_index text.now 0) }
{
    matches!(text, [b'+' | b'-', ..])
}

// Units of 10^-9 degree, `u64::MAX` where there are more;
// None where the text has no coordinate's shape.
fn magnitude_of(body: &str) -> Option<u64>
    ensures { result ≡ (if has_coordinate_shape body.now
        then Some (min (magnitude body.now) (2 ^ 64 - 1)) else None) }
{
    let (whole, fraction) = around_point(body);
    magnitude_from(whole.as_bytes(), fraction.as_bytes())
}

// The same, from what stands before the point and after it.
fn magnitude_from(whole: &[u8], fraction: &[u8]) -> Option<u64>
    ensures { result ≡ (if are_digits whole.now fraction.now
        then Some (min (billionths whole.now fraction.now) (2 ^ 64 - 1)) else None) }
{
    if whole.is_empty() && fraction.is_empty() {
        return None;
    }
    let degrees = digits_of(whole)?;
    let billionths = billionths_of(fraction)?;
    Some(
        degrees
            .saturating_mul(1_000_000_000)
            .saturating_add(billionths),
    )
}

// What stands before the first point, and after it.
fn around_point(body: &str) -> (&str, &str)
    ensures whole { result.0.now ≡ before_first is_point body.now }
    ensures fraction { result.1.now ≡ after_first is_point body.now }
{
    body.split_once('.').unwrap_or((body, ""))
}

// The billionths that the digits of a fraction mean, further digits cut off;
// None where a byte is no digit.
fn billionths_of(fraction: &[u8]) -> Option<u64>
    ensures value { result ≡ (if all_ascii_digits fraction.now
        then Some (number fraction.now * 10 ^ 9 / 10 ^ length fraction.now) else None) }
{
    let mut billionths: u64 = 0;
    let mut weight: u64 = 1_000_000_000;
    for byte in fraction {
        if !byte.is_ascii_digit() {
            return None;
        }
        weight /= 10;
        billionths += u64::from(*byte - b'0') * weight;
    }
    Some(billionths)
}

// How many units one degree has.
const NANODEGREES: u64 = 1_000_000_000;

/// Appends the canonical text of a coordinate in degrees: `-` where it is negative, and the digits
/// of the fraction up to the last that is not zero.
///
/// # Errors
/// `OutOfMemory` where the text cannot grow; it is then as it was.
pub fn push_coord(_alloc: Global, text: &mut String, coord: Coord) -> Result<(), OutOfMemory>
    ensures appended { OnOk result
        (string_bytes text.new ≡ string_bytes text.old ++ coordinate_text coord) }
    ensures unchanged { OnErr result (string_bytes text.new ≡ string_bytes text.old) }
    ensures reads_back { (axis : Axis) → unsigned_abs coord ≤ most_degrees axis * 10 ^ 9
        → coordinate_of axis (coordinate_text coord) ≡ Ok coord }
    ensures unique { (other : ℤ) → unsigned_abs other ≤ 180_000_000_000
        → coordinate_text other ≡ coordinate_text coord → other ≡ coord }
{
    let nanodegrees = coord.nanodegrees();
    // A sign, three digits of degrees, the point and nine digits of the fraction.
    text.reserve(14)?;
    push_sign(text, nanodegrees < 0);
    push_degrees(text, nanodegrees.unsigned_abs());
    Ok(())
}

// Appends the sign of a negative number.
fn push_sign(text: &mut String, is_negative: bool)
    requires room { string_len text.old + 1 ≤ string_capacity text.old }
    ensures appended { string_bytes text.new
        ≡ string_bytes text.old ++ (if is_negative then 45 ∷ [] else []) }
    ensures len { string_len text.new ≤ string_len text.old + 1 }
    ensures capacity { string_capacity text.old ≤ string_capacity text.new }
{
    if is_negative {
        text.push('-').unwrap();
    }
}

// Appends a number of nanodegrees in degrees.
fn push_degrees(text: &mut String, magnitude: u64)
    requires small { magnitude ≤ 180_000_000_000 }
    requires room { string_len text.old + 13 ≤ string_capacity text.old }
    ensures { string_bytes text.new ≡ string_bytes text.old ++ degrees_text magnitude }
{
    text.push_str(Buffer::new().format(magnitude / NANODEGREES))
        .unwrap();
    let digits = fraction_bytes(magnitude % NANODEGREES);
    let fraction = without_zeros(&digits);
    if !fraction.is_empty() {
        text.push('.').unwrap();
        push_ascii(text, fraction).unwrap();
    }
}

// The nine digits of a fraction.
fn fraction_bytes(billionths: u64) -> [u8; 9]
    requires { billionths < 10 ^ 9 }
    ensures { result ≡ wide 9 billionths }
{
    let mut bytes = [b'0'; 9];
    write_wide(billionths, 9, 9, &mut bytes);
    bytes
}

// Digits without the zeros at their end.
#[tactic(auto, using(crate::proofs::Zeros::last_zeros))]
fn without_zeros(digits: &[u8]) -> &[u8]
    ensures { result.now ≡ without_last_zeros digits.now }
{
    let mut rest = digits;
    while let [front @ .., b'0'] = rest {
        rest = front;
    }
    rest
}
