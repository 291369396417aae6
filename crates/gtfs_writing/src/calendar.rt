ghost use Rattle.std.specs.Prelude.{◌≡◌, if◌then◌else◌, length, map, OnOk};
ghost use Rattle.gtfs_field.specs.Canonical.{count_text};
ghost use Rattle.gtfs_schema.specs.Columns.{columns_of};
ghost use Rattle.gtfs_rows.specs.Cells.{record_text};
ghost use Rattle.gtfs_rows.specs.RowCells.{week_cells, week_list};
ghost use Rattle.gtfs_rows.specs.RowsInMemory.{IsSoundParts, content_of_parts};
ghost use Rattle.gtfs_table.specs.declared.file.File.TheVariants as file;
ghost use Rattle.gtfs_writing.specs.TakenRecords.{rows_in, with_fields, with_row, with_rows};

use crate::fields::Fields;
use crate::sink::Sink;
use gtfs_days::Week;
use gtfs_field::OutOfMemory;
use gtfs_rows::{Parts, ServiceRow};

// The rows of calendar.txt: one for each service that has a week.
pub(crate) fn write_weeks<S: Sink>(parts: &Parts, rows: &mut Fields<S>) -> Result<(), OutOfMemory>
    ensures { OnOk result
        (rows.new
        ≡ with_rows S.takes rows.old (rows_in (content_of_parts parts.now) file.Calendar)) }
{
    let services = parts.services.as_slice();
    for service in services {
        write_week_if_any(service, rows)?;
    }
    Ok(())
}

fn write_week_if_any<S: Sink>(row: &ServiceRow, rows: &mut Fields<S>) -> Result<(), OutOfMemory>
    ensures { OnOk result (rows.new ≡ with_rows S.takes rows.old
        (map (record_text (columns_of file.Calendar)) (map week_cells
        (map (λ y. (row.now.service_id, y)) (week_list row.now.service.week))))) }
{
    match row.service.week() {
        Some(week) => write_week(row.service_id.as_str(), week, rows),
        None => Ok(()),
    }
}

fn write_week<S: Sink>(
    service_id: &str,
    week: &Week,
    rows: &mut Fields<S>,
) -> Result<(), OutOfMemory>
    ensures { OnOk result (rows.new ≡ with_row S.takes rows.old
        (record_text (columns_of file.Calendar) (week_cells (service_id.now, week.now)))) }
{
    rows.first(service_id)?;
    write_flags(days_of(week), rows)?;
    rows.date(week.start)?;
    rows.date(week.end)?;
    rows.last()
}

// The weekdays, of which there are seven.
fn days_of(week: &Week) -> &[bool]
    ensures days { result.now ≡ week.now.days }
    ensures seven { length result.now ≡ 7 }
{
    &week.days
}

fn write_flags<S: Sink>(days: &[bool], rows: &mut Fields<S>) -> Result<(), OutOfMemory>
    ensures { OnOk result (rows.new
        ≡ with_fields S.takes rows.old (map (λ d. count_text (if d then 1 else 0)) days.now)) }
{
    for day in days {
        rows.flag(*day)?;
    }
    Ok(())
}
