ghost use Rattle.std.specs.Prelude.{◌≡◌, map, OnOk};
ghost use Rattle.gtfs_schema.specs.Columns.{columns_of};
ghost use Rattle.gtfs_schema.specs.steps.ColumnView.{column_of};
ghost use Rattle.gtfs_writing.specs.TakenRecords.{with_fields, with_row};

use crate::fields::Fields;
use crate::sink::Sink;
use gtfs_field::OutOfMemory;
use gtfs_schema::{
    Column, agency_columns, calendar_columns, calendar_dates_columns, frequencies_columns,
    routes_columns, stop_times_columns, stops_columns, transfers_columns, trips_columns,
};
use gtfs_table::File;

// The header of a file: the names of its kept columns.
pub(crate) fn write_header<S: Sink>(file: File, rows: &mut Fields<S>) -> Result<(), OutOfMemory>
    ensures { OnOk result
        (rows.new ≡ with_row S.takes rows.old (map (λ c. c.name) (columns_of file))) }
{
    match file {
        File::Agency => write_names(&agency_columns(), rows),
        File::Stops => write_names(&stops_columns(), rows),
        File::Routes => write_names(&routes_columns(), rows),
        File::Trips => write_names(&trips_columns(), rows),
        File::StopTimes => write_names(&stop_times_columns(), rows),
        File::Calendar => write_names(&calendar_columns(), rows),
        File::CalendarDates => write_names(&calendar_dates_columns(), rows),
        File::Frequencies => write_names(&frequencies_columns(), rows),
        File::Transfers => write_names(&transfers_columns(), rows),
    }
}

fn write_names<S: Sink>(columns: &[Column], rows: &mut Fields<S>) -> Result<(), OutOfMemory>
    ensures { OnOk result (rows.new
        ≡ with_row S.takes rows.old (map (λ c. c.name) (map column_of columns.now))) }
{
    let [first, others @ ..] = columns else {
        return Ok(());
    };
    rows.first(first.name)?;
    write_further_names(others, rows)?;
    rows.last()
}

fn write_further_names<S: Sink>(columns: &[Column], rows: &mut Fields<S>) -> Result<(), OutOfMemory>
    ensures { OnOk result (rows.new
        ≡ with_fields S.takes rows.old (map (λ c. c.name) (map column_of columns.now))) }
{
    for column in columns {
        rows.text(column.name)?;
    }
    Ok(())
}
