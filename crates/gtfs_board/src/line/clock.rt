ghost use Rattle.std.specs.Prelude.{◌≡◌, ◌++◌, ◌∷◌, [], ◌<◌, ◌≤◌, ◌+◌, ◌/◌, ◌%◌, ◌==◌, if◌then◌else◌, codes, int_lt, pos, string_bytes, string_len, unsigned_abs};
ghost use Rattle.std.specs.String.{string_capacity};
ghost use Rattle.std.specs.Str.{IsAscii};
ghost use Rattle.gtfs_field.specs.Digits.{wide};
ghost use Rattle.gtfs_board.specs.BoardLines.{clock_text};

use crate::pieces::{push_ascii, write_two_digits};
use gtfs_days::Civil;

// Appends a tab, the text `YYYY-MM-DD HH:MM:SS+HH:MM` of a clock, and a tab.
pub(crate) fn push_clock(text: &mut String, civil: Civil)
    requires { string_len text.old + 31 ≤ string_capacity text.old }
    ensures appended { string_bytes text.new
        ≡ string_bytes text.old ++ (codes "\t" ++ clock_text civil ++ codes "\t") }
    ensures len { string_len text.new ≤ string_len text.old + 31 }
    ensures capacity { string_capacity text.old ≤ string_capacity text.new }
{
    let start = if civil.year < 0 { 0 } else { 1 };
    let end = if civil.offset.unsigned_abs() % 60 == 0 {
        28
    } else {
        31
    };
    push_ascii(text, &clock_bytes(civil)[start..end]);
}

// A tab, a clock and a tab, with room for the sign of a year and the seconds of an offset. Where
// either is left out, the tab beside it stands in its place.
fn clock_bytes(civil: Civil) -> [u8; 31]
    ensures value { result ≡ codes "\t"
        ++ (if int_lt civil.year (pos 0) then codes "-" else codes "\t")
        ++ wide 4 (unsigned_abs civil.year) ++ codes "-" ++ wide 2 civil.month
        ++ codes "-" ++ wide 2 civil.day ++ codes " " ++ wide 2 civil.hour
        ++ codes ":" ++ wide 2 civil.minute ++ codes ":" ++ wide 2 civil.second
        ++ (if int_lt civil.offset (pos 0) then codes "-" else codes "+")
        ++ wide 2 (unsigned_abs civil.offset / 3600) ++ codes ":"
        ++ wide 2 (unsigned_abs civil.offset / 60 % 60)
        ++ (if unsigned_abs civil.offset % 60 == 0 then codes "\t" else codes ":")
        ++ wide 2 (unsigned_abs civil.offset % 60) ++ codes "\t" }
    ensures ascii { IsAscii result }
{
    let mut bytes = *b"\t-0000-00-00 00:00:00+00:00:00\t";
    let year = u32::from(civil.year.unsigned_abs());
    let offset = civil.offset.unsigned_abs();
    bytes[1] = before_year(civil.year);
    bytes[21] = before_offset(civil.offset);
    bytes[27] = after_minutes(offset);
    write_two_digits(&mut bytes, 2, year / 100);
    write_two_digits(&mut bytes, 4, year);
    write_two_digits(&mut bytes, 7, u32::from(civil.month));
    write_two_digits(&mut bytes, 10, u32::from(civil.day));
    write_two_digits(&mut bytes, 13, u32::from(civil.hour));
    write_two_digits(&mut bytes, 16, u32::from(civil.minute));
    write_two_digits(&mut bytes, 19, u32::from(civil.second));
    write_two_digits(&mut bytes, 22, offset / 3600);
    write_two_digits(&mut bytes, 25, offset / 60 % 60);
    write_two_digits(&mut bytes, 28, offset % 60);
    bytes
}

// What stands before the digits of a year: its sign, or the tab.
fn before_year(year: i16) -> u8
    ensures value { result ∷ [] ≡ (if int_lt year (pos 0) then codes "-" else codes "\t") }
    ensures ascii { result < 128 }
{
    if year < 0 { b'-' } else { b'\t' }
}

// What stands before the digits of an offset: its sign.
fn before_offset(offset: i32) -> u8
    ensures value { result ∷ [] ≡ (if int_lt offset (pos 0) then codes "-" else codes "+") }
    ensures ascii { result < 128 }
{
    if offset < 0 { b'-' } else { b'+' }
}

// What stands after the minutes of an offset of so many seconds: a colon before more seconds, or
// the tab.
fn after_minutes(offset: u32) -> u8
    ensures value { result ∷ [] ≡ (if offset % 60 == 0 then codes "\t" else codes ":") }
    ensures ascii { result < 128 }
{
    if offset % 60 == 0 { b'\t' } else { b':' }
}
