//! Readers of the values of texts, one for each kind of column (GTFS Schedule Reference,
//! "Field Types").
//!
//! A text is a value of a record, cut of its blanks, as
//! [`Record::value`](gtfs_table::Record::value) gives it. Each reader answers None where
//! the text is empty or has no value of the kind. In tables that pass, only an empty text
//! has none (the clause `whole`).

ghost use Rattle.std.specs.Prelude.{◌≡◌, option_map, pos};
ghost use Rattle.gtfs_schema.specs.Columns as kind;
ghost use Rattle.gtfs_schema.specs.ReadFields.{amount_of, choice_of, is_id, seconds_of, word_of};
ghost use Rattle.gtfs_schema.specs.ReadRules.{FailsIfEmpty};
ghost use Rattle.gtfs_schema.specs.FieldValues.{meaning};

use crate::cell::{has_control, read_choice};
use gtfs_field::{
    Axis, Clock, Colour, Coord, Day, read_colour, read_coord, read_count, read_date, read_time,
};

/// An id, as it stands: a text with no control character ("ID").
pub fn id(text: &str) -> Option<&str>
    ensures { option_map (λ t. t.now) result ≡ word_of kind.id text.now }
{
    is_id(text).then_some(text)
}

/// Whether a text is a readable id ("ID").
pub fn is_id(text: &str) -> bool
    ensures { result ≡ is_id text.now }
{
    !text.is_empty() && !has_control(text)
}

/// A count, 0 to 2,147,483,647 ("Non-negative integer").
pub fn count(text: &str) -> Option<u32>
    ensures value { option_map pos result ≡ amount_of kind.count text.now }
    ensures whole { FailsIfEmpty kind.count text.now result }
{
    read_count(text).ok()
}

/// The number of a choice:
/// a count in one of the ranges, each given by its first and its last number ("Enum").
pub fn choice(ranges: &[(u32, u32)], text: &str) -> Option<u32>
    ensures value { option_map pos result ≡ amount_of (kind.choice ranges.now) text.now }
    ensures whole { FailsIfEmpty (kind.choice ranges.now) text.now result }
{
    read_choice(ranges, text).ok()
}

/// The number of a choice, where an empty text stands for the text `empty`,
/// to compare with other numbers ("Enum").
pub fn choice_or(ranges: &[(u32, u32)], empty: &str, text: &str) -> Option<i64>
    ensures { result ≡ choice_of ranges.now empty.now text.now }
{
    let number = choice(ranges, meant(empty, text))?;
    Some(i64::from(number))
}

/// The text that a text stands for, where an empty one stands for the text `empty`.
pub fn meant<'a>(empty: &'a str, text: &'a str) -> &'a str
    ensures { result.now ≡ meaning (kind.means empty.now) text.now }
{
    if text.is_empty() { empty } else { text }
}

/// A time of the service day in whole seconds, up to 999:59:59 ("Time").
pub fn clock(text: &str) -> Option<Clock>
    ensures value { option_map pos result ≡ amount_of kind.time text.now }
    ensures whole { FailsIfEmpty kind.time text.now result }
{
    read_time(text).ok()
}

/// The seconds of a time, from 0 for the origin of the service day to 3,599,999 ("Time").
pub fn seconds(text: &str) -> Option<u32>
    ensures { result ≡ seconds_of text.now }
{
    let clock = read_time(text).ok()?;
    Some(clock.seconds())
}

/// The seconds of a time, as a number to compare with others ("Time").
pub fn time(text: &str) -> Option<i64>
    ensures { result ≡ amount_of kind.time text.now }
{
    Some(i64::from(seconds(text)?))
}

/// A day from 1900-01-01 to 9999-12-31 ("Date").
pub fn day(text: &str) -> Option<Day>
    ensures value { result ≡ amount_of kind.date text.now }
    ensures whole { FailsIfEmpty kind.date text.now result }
{
    read_date(text).ok()
}

/// The number of a day, 0 for 1970-01-01, to compare with others ("Date").
pub fn date(text: &str) -> Option<i64>
    ensures { result ≡ amount_of kind.date text.now }
{
    let day = read_date(text).ok()?;
    Some(i64::from(day.number()))
}

/// A colour of 24 bits ("Color").
pub fn colour(text: &str) -> Option<Colour>
    ensures value { option_map pos result ≡ amount_of kind.colour text.now }
    ensures whole { FailsIfEmpty kind.colour text.now result }
{
    read_colour(text).ok()
}

/// A coordinate in units of 10^-9 degree, up to 90 degrees from zero as a latitude and 180 as a
/// longitude ("Latitude", "Longitude").
pub fn coordinate(axis: Axis, text: &str) -> Option<Coord>
    ensures value { result ≡ amount_of (kind.coordinate axis) text.now }
    ensures whole { FailsIfEmpty (kind.coordinate axis) text.now result }
{
    read_coord(text, axis).ok()
}
