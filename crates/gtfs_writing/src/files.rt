ghost use Rattle.std.specs.Prelude.{◌≡◌, ◌++◌, IfOk, OnOk};
ghost use Rattle.gtfs_rows.specs.RowCells.{cells_in};
ghost use Rattle.gtfs_rows.specs.RowsInMemory.{IsSoundParts, content_of_parts};
ghost use Rattle.gtfs_rows.specs.WrittenContent.{records_of_cells, written};
ghost use Rattle.gtfs_rows.specs.WrittenForm.{IsWrittenForm};
ghost use Rattle.gtfs_table.specs.Tables.{empty_dataset, of_records, table_of, table_records, with_table};
ghost use Rattle.gtfs_writing.specs.TakenRecords.{rows_in, with_rows};

use crate::agencies::write_agencies;
use crate::calendar::write_weeks;
use crate::calendar_dates::write_exceptions;
use crate::fields::Fields;
use crate::frequencies::write_frequencies;
use crate::headers::write_header;
use crate::routes::write_routes;
use crate::sink::Sink;
use crate::stop_times::write_stop_times;
use crate::stops::write_stops;
use crate::table_rows::TableRows;
use crate::transfers::write_transfers;
use crate::trips::write_trips;
use gtfs_field::OutOfMemory;
use gtfs_rows::Parts;
use gtfs_table::{File, Tables};
use std::alloc::Global;

/// The nine files of a feed as tables: each has the header of its kept columns and a row
/// of canonical texts for each row of the feed (GTFS Schedule Reference, "Field
/// Definitions"). No other file is there.
///
/// The tables pass the validator, and read back they are the same feed. Memory that is refused is
/// an error, and nothing of the tables is left then.
pub fn tables(alloc: Global, parts: &Parts) -> Result<Tables, OutOfMemory>
    requires { IsSoundParts parts.now }
    ensures tables { IfOk result (λ tables. tables ≡ written (content_of_parts parts.now)) }
    ensures form { IsWrittenForm (content_of_parts parts.now) }
{
    let mut rows = Fields::new(alloc, TableRows::new(alloc));
    let outcome = write_tables(parts, &mut rows);
    let tables = rows.into_rows().into_tables();
    match outcome {
        Ok(()) => Ok(tables),
        Err(refused) => Err(refused),
    }
}

fn write_tables(parts: &Parts, rows: &mut Fields<TableRows>) -> Result<(), OutOfMemory>
    requires parts { IsSoundParts parts.now }
    requires empty { rows.old.tables ≡ empty_dataset }
    ensures { OnOk result (rows.new.tables ≡ written (content_of_parts parts.now)) }
{
    write_table(parts, File::Agency, rows)?;
    write_table(parts, File::Stops, rows)?;
    write_table(parts, File::Routes, rows)?;
    write_table(parts, File::Trips, rows)?;
    write_table(parts, File::StopTimes, rows)?;
    write_table(parts, File::Calendar, rows)?;
    write_table(parts, File::CalendarDates, rows)?;
    write_table(parts, File::Frequencies, rows)?;
    write_table(parts, File::Transfers, rows)
}

// The records of a file go to the end of its table.
fn write_table(parts: &Parts, file: File, rows: &mut Fields<TableRows>) -> Result<(), OutOfMemory>
    requires { IsSoundParts parts.now }
    ensures { OnOk result (rows.new.tables ≡ with_table rows.old.tables file
        (of_records (table_records (table_of rows.old.tables file)
        ++ records_of_cells file (cells_in (content_of_parts parts.now) file)))) }
{
    rows.go_to(file);
    write_file(parts, file, rows)
}

// The header of a file and its rows.
pub(crate) fn write_file<S: Sink>(
    parts: &Parts,
    file: File,
    rows: &mut Fields<S>,
) -> Result<(), OutOfMemory>
    requires { IsSoundParts parts.now }
    ensures { OnOk result (rows.new ≡ with_rows S.takes rows.old
        (records_of_cells file (cells_in (content_of_parts parts.now) file))) }
{
    write_header(file, rows)?;
    write_rows(parts, file, rows)
}

fn write_rows<S: Sink>(parts: &Parts, file: File, rows: &mut Fields<S>) -> Result<(), OutOfMemory>
    requires { IsSoundParts parts.now }
    ensures { OnOk result
        (rows.new ≡ with_rows S.takes rows.old (rows_in (content_of_parts parts.now) file)) }
{
    match file {
        File::Agency => write_agencies(parts, rows),
        File::Stops => write_stops(parts, rows),
        File::Routes => write_routes(parts, rows),
        File::Trips => write_trips(parts, rows),
        File::StopTimes => write_stop_times(parts, rows),
        File::Calendar => write_weeks(parts, rows),
        File::CalendarDates => write_exceptions(parts, rows),
        File::Frequencies => write_frequencies(parts, rows),
        File::Transfers => write_transfers(parts, rows),
    }
}
