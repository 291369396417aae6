//! Short canonical texts of numbers with the comma before them, made on the stack.
ghost use Rattle.std.specs.Prelude.{◌≡◌, ◌∷◌, ◌++◌, [], ◌<◌, ◌≤◌, ◌+◌, ◌%◌, Some, None};
ghost use Rattle.std.specs.Str.{IsAscii};
ghost use Rattle.csv.specs.Machine.{line_feed};
ghost use Rattle.csv.specs.Writing.{comma, default_writer, fields_text};
ghost use Rattle.gtfs_field.specs.Canonical.{count_text, time_text};
ghost use Rattle.gtfs_writing.specs.TakenRecords.{choice_fields};

use gtfs_rows::{DropOffType, PickupType, Timepoint};

// The text of a count of one digit.
pub(crate) fn one_digit(number: u32) -> [u8; 2]
    requires { number < 10 }
    ensures { result ≡ comma ∷ count_text number }
{
    [b',', b'0' + number as u8]
}

// The text of a count of two digits.
pub(crate) fn two_digits(number: u32) -> [u8; 3]
    requires ten { 10 ≤ number }
    requires hundred { number < 100 }
    ensures { result ≡ comma ∷ count_text number }
{
    [b',', digit(number / 10), digit(number)]
}

// The text of a time before 100:00:00, by its seconds.
pub(crate) fn short_time(seconds: u32) -> [u8; 9]
    requires { seconds < 360_000 }
    ensures { result ≡ comma ∷ time_text seconds }
{
    let hours = seconds / 3600;
    let minutes = seconds / 60 % 60;
    let last = seconds % 60;
    [
        b',',
        digit(hours / 10),
        digit(hours),
        b':',
        digit(minutes / 10),
        digit(minutes),
        b':',
        digit(last / 10),
        digit(last),
    ]
}

// The fields of choices at the end of a stop time without a headsign, and the end of the row.
pub(crate) fn choices(pickup: PickupType, drop_off: DropOffType) -> [u8; 7]
    ensures ascii { IsAscii result }
    ensures text { result ≡ fields_text default_writer (choice_fields pickup drop_off None)
        ++ line_feed ∷ [] }
{
    let pickup = digit(pickup.number());
    let drop_off = digit(drop_off.number());
    [b',', b',', pickup, b',', drop_off, b',', b'\n']
}

// The same where it is said whether the times are exact.
pub(crate) fn choices_with_timepoint(
    pickup: PickupType,
    drop_off: DropOffType,
    timepoint: Timepoint,
) -> [u8; 8]
    ensures ascii { IsAscii result }
    ensures text { result ≡ fields_text default_writer
        (choice_fields pickup drop_off (Some timepoint)) ++ line_feed ∷ [] }
{
    let pickup = digit(pickup.number());
    let drop_off = digit(drop_off.number());
    let timepoint = digit(timepoint.number());
    [b',', b',', pickup, b',', drop_off, b',', timepoint, b'\n']
}

// The last digit of a number.
fn digit(number: u32) -> u8
    ensures { result ≡ 48 + number % 10 }
{
    b'0' + (number % 10) as u8
}

// ASCII bytes as a text.
pub(crate) fn as_text(bytes: &[u8]) -> &str
    requires { IsAscii bytes.now }
    ensures { result.now ≡ bytes.now }
{
    unsafe { str::from_utf8_unchecked(bytes) }
}
