//! The rows of calendar_dates.txt (GTFS Schedule Reference, `calendar_dates.txt`).

ghost use Rattle.std.specs.Prelude.{◌≡◌, map, IfOk};
ghost use Rattle.gtfs_schema.specs.Calendars.{exception_in};
ghost use Rattle.gtfs_schema.specs.Columns as kind;
ghost use Rattle.gtfs_reading.specs.ColumnIndices.{column_indices};
ghost use Rattle.gtfs_reading.specs.NumbersOfIds.{exception_of};
ghost use Rattle.gtfs_table.specs.declared.file.File.TheVariants as file;

use crate::numbers::day;
use gtfs_days::Exception;
use gtfs_field::{Day, OutOfMemory};
use gtfs_schema::values;
use gtfs_table::{File, Tables};
use std::alloc::Global;

// The exceptions of rows, each with its id.
pub(crate) fn exceptions(
    alloc: Global,
    tables: &Tables,
    columns: &[Option<usize>; 3],
    rows: &[(&str, usize)],
) -> Result<Vec<(Day, Exception)>, OutOfMemory>
    requires { columns.now ≡ column_indices tables.now file.CalendarDates }
    ensures { IfOk result (λ exceptions. exceptions.items
        ≡ map (exception_in tables.now) (map (λ r. r.1) rows.now)) }
{
    let mut exceptions = Vec::new(alloc);
    for row in rows {
        exceptions.push(exception(tables, columns, row.1))?;
    }
    Ok(exceptions)
}

// The exception of a row.
fn exception(tables: &Tables, columns: &[Option<usize>; 3], row: usize) -> (Day, Exception)
    requires { columns.now ≡ column_indices tables.now file.CalendarDates }
    ensures { result ≡ exception_in tables.now row }
{
    let record = tables.record(File::CalendarDates, row);
    let day = day(record.value(columns[1]));
    (day, exception_type(record.value(columns[2])))
}

// Type 1 adds a day, and type 2 removes it.
fn exception_type(text: &str) -> Exception
    ensures { result ≡ exception_of text.now }
{
    match values::choice(&[(1, 2)], text) {
        Some(1) => Exception::Added,
        _ => Exception::Removed,
    }
}
