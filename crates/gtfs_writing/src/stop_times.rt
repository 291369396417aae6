ghost use Rattle.std.specs.Prelude.{◌≡◌, map, true, OnOk};
ghost use Rattle.std.specs.List.{list_all};
ghost use Rattle.csv.specs.Writing.{default_writer, needs_quotes};
ghost use Rattle.gtfs_schema.specs.Columns.{columns_of};
ghost use Rattle.gtfs_rows.specs.Cells.{record_text};
ghost use Rattle.gtfs_rows.specs.RowCells.{stop_time_cells};
ghost use Rattle.gtfs_rows.specs.RowsInMemory.{IsSoundParts, content_of_parts, stop_row_of, stop_time_names_rows};
ghost use Rattle.gtfs_table.specs.declared.file.File.TheVariants as file;
ghost use Rattle.gtfs_writing.specs.PlainStops.{AreIdsOf};
ghost use Rattle.gtfs_writing.specs.TakenRecords.{rows_in, with_row, with_rows};

use crate::fields::Fields;
use crate::names::headsign_if_any;
use crate::quoting::is_quoted;
use crate::sink::Sink;
use crate::stop_ids::StopIds;
use gtfs_field::OutOfMemory;
use gtfs_rows::{Parts, StopRow, Timepoint};

// The rows of stop_times.txt, trip after trip.
pub(crate) fn write_stop_times<S: Sink>(
    parts: &Parts,
    rows: &mut Fields<S>,
) -> Result<(), OutOfMemory>
    requires { IsSoundParts parts.now }
    ensures { OnOk result
        (rows.new
        ≡ with_rows S.takes rows.old (rows_in (content_of_parts parts.now) file.StopTimes)) }
{
    let stop_ids = StopIds::of(rows.alloc(), parts.stops.as_slice())?;
    let trips = parts.trips.as_slice();
    for (n, trip) in trips.iter().enumerate() {
        write_trip_rows(
            parts,
            trip.trip_id.as_str(),
            &stop_ids,
            parts.stop_times.of_trip(n),
            rows,
        )?;
    }
    Ok(())
}

// The rows of a trip.
pub(crate) fn write_trip_rows<S: Sink>(
    parts: &Parts,
    trip_id: &str,
    stop_ids: &StopIds,
    stop_rows: &[StopRow],
    rows: &mut Fields<S>,
) -> Result<(), OutOfMemory>
    requires stops { AreIdsOf parts.now.stops stop_ids.now }
    requires names { list_all (stop_time_names_rows parts.now) stop_rows.now ≡ true }
    ensures { OnOk result (rows.new ≡ with_rows S.takes rows.old
        (map (record_text (columns_of file.StopTimes)) (map stop_time_cells
        (map (λ y. (trip_id.now, y)) (map (stop_row_of parts.now) stop_rows.now))))) }
{
    let is_quoted = is_quoted(trip_id);
    for row in stop_rows {
        write_stop_time(parts, trip_id, is_quoted, stop_ids, row, rows)?;
    }
    Ok(())
}

fn write_stop_time<S: Sink>(
    parts: &Parts,
    trip_id: &str,
    is_quoted: bool,
    stop_ids: &StopIds,
    row: &StopRow,
    rows: &mut Fields<S>,
) -> Result<(), OutOfMemory>
    requires quoted { is_quoted ≡ needs_quotes default_writer trip_id.now }
    requires stops { AreIdsOf parts.now.stops stop_ids.now }
    requires names { stop_time_names_rows parts.now row.now ≡ true }
    ensures { OnOk result (rows.new ≡ with_row S.takes rows.old (record_text
        (columns_of file.StopTimes)
        (stop_time_cells (trip_id.now, stop_row_of parts.now row.now)))) }
{
    rows.known_first(trip_id, is_quoted)?;
    rows.optional_times(row.arrival_time.get(), row.departure_time.get())?;
    rows.known_text(stop_ids.id(row.stop_id), stop_ids.are_plain)?;
    rows.number(row.stop_sequence)?;
    match headsign_if_any(parts, row.stop_headsign) {
        "" => rows.choices(row.pickup_type, row.drop_off_type, row.timepoint),
        headsign => {
            rows.text(headsign)?;
            rows.number(row.pickup_type.number())?;
            rows.number(row.drop_off_type.number())?;
            rows.optional_choice(row.timepoint.map(Timepoint::number))?;
            rows.last()
        }
    }
}
