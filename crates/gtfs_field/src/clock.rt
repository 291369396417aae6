ghost use Rattle.std.specs.Prelude.{◌≡◌, ◌≤◌, ◌<◌, ◌&&◌, ◌∷◌, [], if◌then◌else◌, length, drop, nat_le, Some, None, IfSome, ℕ, ◌+◌, ◌-◌, ◌/◌, ◌%◌, ◌++◌, Ok, OnOk, OnErr, string_bytes};
ghost use Rattle.std.specs.Result.{result_ok};
ghost use Rattle.std.specs.Char.{is_ascii_digit};
ghost use Rattle.gtfs_field.specs.Digits.{is_number, number, wide};
ghost use Rattle.gtfs_field.specs.Kinds.{time_of, is_sixtieth};
ghost use Rattle.gtfs_field.specs.Canonical.{time_text, hours_text};

use crate::OutOfMemory;
use crate::ascii::{push_ascii, write_wide};
use crate::digits::two_digits;
use crate::fault::FieldFault;
use std::alloc::Global;
use std::marker::Model;

/// A time of a service day, in whole seconds from the day's origin: 0 to 7,199,999.
///
/// The origin is noon minus twelve hours, so a time may pass 24:00:00 (GTFS Schedule Reference,
/// "Field Types", Time). A file can hold times up to 999:59:59; the later ones are times of a
/// run that starts late.
#[derive(Clone, Copy, Debug, PartialEq, Eq, PartialOrd, Ord)]
pub struct Clock {
    seconds: u32,
}

impl Model for Clock {
    ghost use Rattle.std.specs.Prelude.{ℕ, ◌≤◌};

    ghost Value = { ℕ };

    ghost view = { λ c. c.seconds };

    ghost invariant = { λ c. c.seconds ≤ 7_199_999 };

    ghost inverse = { λ n. record { seconds = n } };
}

impl Clock {
    /// The time that many seconds after the origin.
    pub fn from_seconds(seconds: u32) -> Clock
        requires { seconds ≤ 7_199_999 }
        ensures { result ≡ seconds }
    {
        Clock { seconds }
    }

    /// Seconds from the origin, 0 to 7,199,999.
    pub fn seconds(self) -> u32
        ensures value { result ≡ self }
        ensures bound { result ≤ 7_199_999 }
    {
        self.seconds
    }
}

/// Reads a time: one to three digits of hours, `:MM:SS`;
/// 0 to 3,599,999 seconds from the origin of the service day.
///
/// GTFS Schedule Reference, "Field Types", Time.
///
/// # Errors
/// `Form` for every other text, also where the minutes or seconds are above 59.
/// A time is never out of range.
pub fn read_time(text: &str) -> Result<Clock, FieldFault>
    ensures { result ≡ time_of text.now }
{
    match seconds_of(text) {
        Some(seconds) => Ok(Clock::from_seconds(seconds)),
        None => Err(FieldFault::Form),
    }
}

/// Appends the canonical text of a time: H:MM:SS with at least two digits of hours.
///
/// Times from 1000:00:00 on, which only a run that starts late has,
/// take four digits of hours and are not read back.
///
/// # Errors
/// `OutOfMemory` where the text cannot grow; it is then as it was.
pub fn push_time(_alloc: Global, text: &mut String, clock: Clock) -> Result<(), OutOfMemory>
    ensures appended { OnOk result
        (string_bytes text.new ≡ string_bytes text.old ++ time_text clock) }
    ensures unchanged { OnErr result (string_bytes text.new ≡ string_bytes text.old) }
    ensures reads_back { clock ≤ 3_599_999 → time_of (time_text clock) ≡ Ok clock }
    ensures unique { (other : ℕ) → other ≤ 7_199_999 → time_text other ≡ time_text clock
        → other ≡ clock }
{
    let seconds = clock.seconds();
    push_ascii(text, &time_bytes(seconds)[spare_digits(seconds / 3600)..])
}

// A time with four digits of hours.
fn time_bytes(seconds: u32) -> [u8; 10]
    requires { seconds ≤ 7_199_999 }
    ensures { result ≡ wide 4 (seconds / 3600)
        ++ 58 ∷ wide 2 (seconds / 60 % 60) ++ 58 ∷ wide 2 (seconds % 60) }
{
    let mut bytes = *b"0000:00:00";
    write_wide(u64::from(seconds / 3600), 4, 4, &mut bytes);
    write_wide(u64::from(seconds / 60 % 60), 2, 7, &mut bytes);
    write_wide(u64::from(seconds % 60), 2, 10, &mut bytes);
    bytes
}

// How many of four digits of hours the canonical text leaves out.
fn spare_digits(hours: u32) -> usize
    requires { hours < 10_000 }
    ensures value { drop result (wide 4 hours) ≡ hours_text hours }
    ensures bound { result ≤ 2 }
{
    match hours {
        0..=99 => 2,
        100..=999 => 1,
        _ => 0,
    }
}

// The seconds that a text of the shape H:MM:SS means.
fn seconds_of(text: &str) -> Option<u32>
    ensures value { result ≡ result_ok (time_of text.now) }
    ensures bound { IfSome result (λ n. n ≤ 3_599_999) }
{
    let [hours @ .., b':', m1, m2, b':', s1, s2] = text.as_bytes() else {
        return None;
    };
    let hours = hours_of(hours)?;
    let minutes = sixtieth(*m1, *m2)?;
    let seconds = sixtieth(*s1, *s2)?;
    Some(3600 * hours + 60 * minutes + seconds)
}

// The number that one to three digits write.
fn hours_of(text: &[u8]) -> Option<u32>
    ensures value { result ≡ (if is_number text.now && nat_le (length text.now) 3
        then Some (number text.now) else None) }
    ensures bound { IfSome result (λ n. n < 1000) }
{
    match text {
        [ones] => digit(*ones),
        [tens, ones] => two_digits(*tens, *ones),
        [hundreds, tens, ones] => Some(100 * digit(*hundreds)? + two_digits(*tens, *ones)?),
        _ => None,
    }
}

// The number that a digit writes.
fn digit(byte: u8) -> Option<u32>
    ensures value { result ≡ (if is_ascii_digit byte then Some (byte - 48) else None) }
    ensures bound { IfSome result (λ n. n < 10) }
{
    if byte.is_ascii_digit() {
        Some(u32::from(byte - b'0'))
    } else {
        None
    }
}

// The number below 60 that two digits write.
fn sixtieth(tens: u8, ones: u8) -> Option<u32>
    ensures value { result ≡ (if is_sixtieth (tens ∷ ones ∷ [])
        then Some (number (tens ∷ ones ∷ [])) else None) }
    ensures bound { IfSome result (λ n. n < 60) }
{
    match two_digits(tens, ones) {
        Some(number) if number < 60 => Some(number),
        _ => None,
    }
}
