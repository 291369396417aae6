//! Numbers of a row as its fields keep them.

ghost use Rattle.std.specs.Prelude.{◌≡◌, pos, true, unsigned_abs, unwrap_or, IfSome};
ghost use Rattle.gtfs_schema.specs.Columns as kind;
ghost use Rattle.gtfs_schema.specs.ReadFields.{amount_of, colour_or};
ghost use Rattle.gtfs_field.specs.Kinds.{is_in_ranges};
ghost use Rattle.gtfs_reading.specs.NumbersOfIds.{chosen, number_if_there, number_of};

use gtfs_field::{Clock, Colour, Day};
use gtfs_schema::values;

// A count that may be missing.
pub(crate) fn optional_count(text: &str) -> Option<u32>
    ensures { result ≡ number_if_there kind.count text.now }
{
    values::count(text)
}

// A count from 1 on, which is always there.
pub(crate) fn positive(text: &str) -> u32
    ensures { result ≡ number_of kind.positive text.now }
{
    values::choice(&[(1, 2_147_483_647)], text).unwrap_or(0)
}

// A time, which is always there.
pub(crate) fn clock(text: &str) -> Clock
    ensures { result ≡ number_of kind.time text.now }
{
    values::clock(text).unwrap_or(Clock::from_seconds(0))
}

// A day, which is always there.
pub(crate) fn day(text: &str) -> Day
    ensures { result ≡ unwrap_or (amount_of kind.date text.now) (pos 0) }
{
    values::day(text).unwrap_or(Day::from_number(0))
}

// The number of a choice, which is always there.
pub(crate) fn choice(ranges: &[(u32, u32)], text: &str) -> u32
    requires { is_in_ranges ranges.now 0 ≡ true }
    ensures value { result ≡ number_of (kind.choice ranges.now) text.now }
    ensures range { is_in_ranges ranges.now result ≡ true }
{
    values::choice(ranges, text).unwrap_or(0)
}

// The number of a choice whose empty value means the text `empty`.
pub(crate) fn choice_or(ranges: &[(u32, u32)], empty: &str, text: &str) -> u32
    requires { is_in_ranges ranges.now 0 ≡ true }
    ensures value { result ≡ chosen ranges.now empty.now text.now }
    ensures range { is_in_ranges ranges.now result ≡ true }
{
    choice(ranges, values::meant(empty, text))
}

// The number of a choice that may be missing.
pub(crate) fn optional_choice(ranges: &[(u32, u32)], text: &str) -> Option<u32>
    ensures value { result ≡ number_if_there (kind.choice ranges.now) text.now }
    ensures range { IfSome result (λ n. is_in_ranges ranges.now n ≡ true) }
{
    values::choice(ranges, text)
}

// A colour whose empty value means the text `empty`.
pub(crate) fn colour(empty: &str, text: &str) -> Colour
    ensures { result ≡ unsigned_abs (unwrap_or (colour_or empty.now text.now) (pos 0)) }
{
    values::colour(values::meant(empty, text)).unwrap_or(Colour::from_bits(0))
}
