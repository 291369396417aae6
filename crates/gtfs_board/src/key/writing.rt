ghost use Rattle.std.specs.Prelude.{◌≡◌, ◌++◌, ◌≤◌, ◌+◌, codes, decimal, drop, length, string_bytes, string_len, Ok, OnOk, OnErr};
ghost use Rattle.std.specs.String.{string_capacity};
ghost use Rattle.gtfs_field.specs.Calendar.{date_of_day};
ghost use Rattle.gtfs_field.specs.Canonical.{date_text, digits_of_date};
ghost use Rattle.gtfs_rows.specs.Key.{IsInRange};
ghost use Rattle.gtfs_board.specs.KeyTexts.{key_text, key_of};
ghost use Rattle.gtfs_board.specs.LentKeys.{plain_key};

use crate::key::Key;
use crate::pieces::{push_ascii, write_two_digits};
use gtfs_field::{Day, OutOfMemory};
use itoa::{Buffer, write_digits};
use jiff_core::civil::Date;
use std::alloc::Global;

// How many bytes of a key's text are not the trip's id, at most: the instant has 20, run and
// sequence 10 each, the day 8, and one stands before each part.
pub(crate) const KEY_ROOM: usize = 53;

/// Appends the text of a key:
/// `@<instant>/<trip id>/<run>/<sequence>/<YYYYMMDD>`, numbers with no zero in front.
///
/// The text reads back, by [`read_key`](crate::read_key), to the key where its instant has
/// at most 12 digits, its run is at most 3,599,999 and its sequence at most 2,147,483,647,
/// as those of all departures are.
///
/// # Errors
/// `OutOfMemory` where the text cannot grow; it is then as it was.
pub fn push_key(_alloc: Global, text: &mut String, key: &Key<'_>) -> Result<(), OutOfMemory>
    ensures appended { OnOk result
        (string_bytes text.new ≡ string_bytes text.old ++ key_text (plain_key key.now)) }
    ensures unchanged { OnErr result (string_bytes text.new ≡ string_bytes text.old) }
    ensures reads_back { let k = plain_key key.now in IsInRange k → key_of (key_text k) ≡ Ok k }
{
    text.reserve(KEY_ROOM + key.trip.len())?;
    write_key(text, key);
    Ok(())
}

// Appends the text of a key, for which there is room.
pub(crate) fn write_key(text: &mut String, key: &Key<'_>)
    requires { string_len text.old + (53 + length key.now.trip.now) ≤ string_capacity text.old }
    ensures appended { string_bytes text.new
        ≡ string_bytes text.old ++ key_text (plain_key key.now) }
    ensures len { string_len text.new ≤ string_len text.old + (53 + length key.now.trip.now) }
    ensures capacity { string_capacity text.old ≤ string_capacity text.new }
{
    text.push('@').unwrap();
    text.push_str(Buffer::new().format(key.instant)).unwrap();
    text.push('/').unwrap();
    text.push_str(key.trip).unwrap();
    push_run(text, key.run, key.seq, key.day);
}

// Appends a run, a sequence and a day, `/<run>/<sequence>/<YYYYMMDD>`.
fn push_run(text: &mut String, run: u32, sequence: u32, day: Day)
    requires { string_len text.old + 31 ≤ string_capacity text.old }
    ensures appended { string_bytes text.new ≡ string_bytes text.old ++ (codes "/" ++ decimal run
        ++ codes "/" ++ decimal sequence ++ codes "/" ++ date_text day) }
    ensures len { string_len text.new ≤ string_len text.old + 31 }
    ensures capacity { string_capacity text.old ≤ string_capacity text.new }
{
    let mut bytes = date_bytes(date_of(day));
    let end = write_number(&mut bytes, 22, sequence);
    let start = write_number(&mut bytes, end, run);
    push_ascii(text, &bytes[start..]);
}

// Writes a slash and a number, whose digits end at an index, and answers where the slash stands.
fn write_number(bytes: &mut [u8], end: usize, number: u32) -> usize
    requires { (11 ≤ end) × (end ≤ length bytes.old) }
    ensures start { end ≤ result + 11 }
    ensures written { drop result bytes.new
        ≡ codes "/" ++ decimal number ++ drop end bytes.old }
{
    let start = write_digits(u64::from(number), bytes, end) - 1;
    bytes[start] = b'/';
    start
}

// A slash and a date, `/YYYYMMDD`, behind room for two numbers.
fn date_bytes(date: Date) -> [u8; 31]
    ensures { drop 22 result ≡ codes "/" ++ digits_of_date date }
{
    let mut bytes = *b"                      /00000000";
    let year = u32::from(date.year.unsigned_abs());
    write_two_digits(&mut bytes, 23, year / 100);
    write_two_digits(&mut bytes, 25, year);
    write_two_digits(&mut bytes, 27, u32::from(date.month));
    write_two_digits(&mut bytes, 29, u32::from(date.day));
    bytes
}

// The date of a day.
fn date_of(day: Day) -> Date
    ensures { result ≡ date_of_day day }
{
    Date::from_unix_epoch_day(i64::from(day.number())).unwrap()
}
