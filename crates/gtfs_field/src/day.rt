ghost use Rattle.std.specs.Prelude.{◌≡◌, pos, negsuc, ◌≤ℤ◌, ◌<◌, ◌^◌, ◌/◌, ◌%◌, ◌++◌, ℤ, Ok, OnOk, OnErr, string_bytes};
ghost use Rattle.jiff_core.specs.Date.{epoch_day};
ghost use Rattle.gtfs_field.specs.Kinds.{date_of, day_at};
ghost use Rattle.gtfs_field.specs.Canonical.{date_text, digits_of_date};

use crate::OutOfMemory;
use crate::ascii::{push_ascii, write_wide};
use crate::digits::number_of;
use crate::fault::FieldFault;
use jiff_core::civil::Date;
use std::alloc::Global;
use std::marker::Model;

// The first year that a date may have.
const FIRST_YEAR: i16 = 1900;

/// A date of the years 1900 to 9999, by its number: how many days it lies after 1970-01-01.
///
/// GTFS Schedule Reference, "Field Types", Date. The limits of the years are this toolkit's.
#[derive(Clone, Copy, Debug, PartialEq, Eq, PartialOrd, Ord)]
pub struct Day {
    number: i32,
}

impl Model for Day {
    ghost use Rattle.std.specs.Prelude.{ℤ, pos, negsuc, ◌≤ℤ◌};

    ghost Value = { ℤ };

    ghost view = { λ d. d.number };

    ghost invariant = { λ d. (negsuc 25_566 ≤ℤ d.number) × (d.number ≤ℤ pos 2_932_896) };

    ghost inverse = { λ n. record { number = n } };
}

impl Day {
    /// The date of that number: 0 is 1970-01-01, -25,567 is 1900-01-01, 2,932,896 is 9999-12-31.
    pub fn from_number(number: i32) -> Day
        requires low { negsuc 25_566 ≤ℤ number }
        requires high { number ≤ℤ pos 2_932_896 }
        ensures { result ≡ number }
    {
        Day { number }
    }

    // The date on `jiff`'s calendar.
    fn date(self) -> Date
        ensures number { epoch_day result ≡ self }
        ensures from { pos 1900 ≤ℤ result.year }
    {
        Date::from_unix_epoch_day(i64::from(self.number)).unwrap()
    }

    /// Days since 1970-01-01, from -25,567 to 2,932,896.
    pub fn number(self) -> i32
        ensures value { result ≡ self }
        ensures low { negsuc 25_566 ≤ℤ result }
        ensures high { result ≤ℤ pos 2_932_896 }
    {
        self.number
    }
}

/// Reads a date: the eight digits YYYYMMDD of a day that the calendar has, from 19000101 to 99991231.
///
/// GTFS Schedule Reference, "Field Types", Date.
///
/// # Errors
/// `Form` where the text is not eight digits,
/// `Range` where the calendar has no such day or the year is before 1900.
pub fn read_date(text: &str) -> Result<Day, FieldFault>
    ensures { result ≡ date_of text.now }
{
    match number_of(text.as_bytes()) {
        Some(digits) if text.len() == 8 => day_of(digits),
        _ => Err(FieldFault::Form),
    }
}

// The day that a number of eight digits YYYYMMDD writes.
fn day_of(digits: u64) -> Result<Day, FieldFault>
    requires { digits < 10 ^ 8 }
    ensures { result ≡ day_at (digits / 10_000) (digits / 100 % 100) (digits % 100) }
{
    let year = (digits / 10_000) as i16;
    let month = (digits / 100 % 100) as i8;
    let day = (digits % 100) as i8;
    if year < FIRST_YEAR {
        return Err(FieldFault::Range);
    }
    match Date::new(year, month, day) {
        Ok(date) => Ok(Day::from_number(date.to_unix_epoch_day())),
        Err(_) => Err(FieldFault::Range),
    }
}

/// Appends the canonical text of a date: YYYYMMDD.
///
/// # Errors
/// `OutOfMemory` where the text cannot grow; it is then as it was.
pub fn push_date(_alloc: Global, text: &mut String, day: Day) -> Result<(), OutOfMemory>
    ensures appended { OnOk result
        (string_bytes text.new ≡ string_bytes text.old ++ date_text day) }
    ensures unchanged { OnErr result (string_bytes text.new ≡ string_bytes text.old) }
    ensures reads_back { date_of (date_text day) ≡ Ok day }
    ensures unique { (other : ℤ) → negsuc 25_566 ≤ℤ other → other ≤ℤ pos 2_932_896
        → date_text other ≡ date_text day → other ≡ day }
{
    push_ascii(text, &date_bytes(day.date()))
}

// The eight digits of a date.
fn date_bytes(date: Date) -> [u8; 8]
    requires { pos 0 ≤ℤ date.year }
    ensures { result ≡ digits_of_date date }
{
    let mut bytes = [b'0'; 8];
    write_wide(u64::from(date.year.unsigned_abs()), 4, 4, &mut bytes);
    write_wide(u64::from(date.month), 2, 6, &mut bytes);
    write_wide(u64::from(date.day), 2, 8, &mut bytes);
    bytes
}
