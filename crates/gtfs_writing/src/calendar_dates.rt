ghost use Rattle.std.specs.Prelude.{◌≡◌, map, OnOk};
ghost use Rattle.gtfs_schema.specs.Columns.{columns_of};
ghost use Rattle.gtfs_rows.specs.Cells.{record_text};
ghost use Rattle.gtfs_rows.specs.RowCells.{exception_cells, exception_number};
ghost use Rattle.gtfs_rows.specs.RowsInMemory.{IsSoundParts, content_of_parts};
ghost use Rattle.gtfs_table.specs.declared.file.File.TheVariants as file;
ghost use Rattle.gtfs_writing.specs.TakenRecords.{rows_in, with_row, with_rows};

use crate::fields::Fields;
use crate::sink::Sink;
use gtfs_days::Exception;
use gtfs_field::{Day, OutOfMemory};
use gtfs_rows::{Parts, ServiceRow};

// The rows of calendar_dates.txt, service after service.
pub(crate) fn write_exceptions<S: Sink>(
    parts: &Parts,
    rows: &mut Fields<S>,
) -> Result<(), OutOfMemory>
    ensures { OnOk result (rows.new
        ≡ with_rows S.takes rows.old (rows_in (content_of_parts parts.now) file.CalendarDates)) }
{
    let services = parts.services.as_slice();
    for service in services {
        write_days(service, rows)?;
    }
    Ok(())
}

fn write_days<S: Sink>(row: &ServiceRow, rows: &mut Fields<S>) -> Result<(), OutOfMemory>
    ensures { OnOk result (rows.new ≡ with_rows S.takes rows.old
        (map (record_text (columns_of file.CalendarDates)) (map exception_cells
        (map (λ y. (row.now.service_id, y)) row.now.service.exceptions)))) }
{
    let exceptions = row.service.exceptions();
    for exception in exceptions {
        write_exception(row.service_id.as_str(), exception, rows)?;
    }
    Ok(())
}

fn write_exception<S: Sink>(
    service_id: &str,
    exception: &(Day, Exception),
    rows: &mut Fields<S>,
) -> Result<(), OutOfMemory>
    ensures { OnOk result (rows.new ≡ with_row S.takes rows.old
        (record_text (columns_of file.CalendarDates)
        (exception_cells (service_id.now, exception.now)))) }
{
    rows.first(service_id)?;
    rows.date(exception.0)?;
    rows.number(number_of(exception.1))?;
    rows.last()
}

// The number of an `exception_type`.
fn number_of(exception: Exception) -> u32
    ensures { result ≡ exception_number exception }
{
    match exception {
        Exception::Added => 1,
        Exception::Removed => 2,
    }
}
