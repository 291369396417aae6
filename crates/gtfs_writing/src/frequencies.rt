ghost use Rattle.std.specs.Prelude.{◌≡◌, map, OnOk};
ghost use Rattle.gtfs_schema.specs.Columns.{columns_of};
ghost use Rattle.gtfs_rows.specs.Cells.{record_text};
ghost use Rattle.gtfs_rows.specs.RowCells.{frequency_cells};
ghost use Rattle.gtfs_rows.specs.RowsInMemory.{IsSoundParts, content_of_parts, frequency_of};
ghost use Rattle.gtfs_table.specs.declared.file.File.TheVariants as file;
ghost use Rattle.gtfs_writing.specs.TakenRecords.{rows_in, with_row, with_rows};

use crate::fields::Fields;
use crate::sink::Sink;
use gtfs_field::OutOfMemory;
use gtfs_rows::{Frequency, Parts, stretch};

// The rows of frequencies.txt, trip after trip.
pub(crate) fn write_frequencies<S: Sink>(
    parts: &Parts,
    rows: &mut Fields<S>,
) -> Result<(), OutOfMemory>
    requires { IsSoundParts parts.now }
    ensures { OnOk result
        (rows.new
        ≡ with_rows S.takes rows.old (rows_in (content_of_parts parts.now) file.Frequencies)) }
{
    let starts = parts.frequency_starts.as_slice();
    let frequencies = parts.frequencies.as_slice();
    let trips = parts.trips.as_slice();
    for (n, trip) in trips.iter().enumerate() {
        write_periods(trip.trip_id.as_str(), stretch(frequencies, starts, n), rows)?;
    }
    Ok(())
}

fn write_periods<S: Sink>(
    trip_id: &str,
    frequencies: &[Frequency],
    rows: &mut Fields<S>,
) -> Result<(), OutOfMemory>
    ensures { OnOk result (rows.new ≡ with_rows S.takes rows.old
        (map (record_text (columns_of file.Frequencies)) (map frequency_cells
        (map (λ y. (trip_id.now, y)) (map frequency_of frequencies.now))))) }
{
    for row in frequencies {
        write_frequency(trip_id, row, rows)?;
    }
    Ok(())
}

fn write_frequency<S: Sink>(
    trip_id: &str,
    row: &Frequency,
    rows: &mut Fields<S>,
) -> Result<(), OutOfMemory>
    ensures { OnOk result (rows.new ≡ with_row S.takes rows.old (record_text
        (columns_of file.Frequencies) (frequency_cells (trip_id.now, frequency_of row.now)))) }
{
    rows.first(trip_id)?;
    rows.time(row.start_time)?;
    rows.time(row.end_time)?;
    rows.number(row.headway_secs)?;
    rows.number(row.exact_times.number())?;
    rows.last()
}
