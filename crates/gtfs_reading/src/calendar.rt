//! The rows of calendar.txt (GTFS Schedule Reference, `calendar.txt`).

ghost use Rattle.std.specs.Ordering.{int_eq};
ghost use Rattle.std.specs.Prelude.{◌≡◌, pos, unwrap_or};
ghost use Rattle.gtfs_schema.specs.Calendars.{week_in};
ghost use Rattle.gtfs_schema.specs.Columns as kind;
ghost use Rattle.gtfs_schema.specs.ReadFields.{amount_of};
ghost use Rattle.gtfs_reading.specs.ColumnIndices.{column_indices};
ghost use Rattle.gtfs_table.specs.declared.file.File.TheVariants as file;

use crate::numbers::day;
use gtfs_days::Week;
use gtfs_schema::values;
use gtfs_table::{File, Tables};

// The week of a row. The weekdays stand under the columns 1 to 7, from Monday on.
pub(crate) fn week(tables: &Tables, columns: &[Option<usize>; 10], row: usize) -> Week
    requires { columns.now ≡ column_indices tables.now file.Calendar }
    ensures { result ≡ week_in tables.now row }
{
    let record = tables.record(File::Calendar, row);
    Week {
        days: [
            runs(record.value(columns[1])),
            runs(record.value(columns[2])),
            runs(record.value(columns[3])),
            runs(record.value(columns[4])),
            runs(record.value(columns[5])),
            runs(record.value(columns[6])),
            runs(record.value(columns[7])),
        ],
        start: day(record.value(columns[8])),
        end: day(record.value(columns[9])),
    }
}

// Whether a service runs on the weekday of this text.
fn runs(text: &str) -> bool
    ensures { result ≡ int_eq (unwrap_or (amount_of (kind.up_to 1) text.now) (pos 0)) (pos 1) }
{
    match values::choice(&[(0, 1)], text) {
        Some(number) => number == 1,
        None => false,
    }
}
