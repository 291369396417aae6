ghost use Rattle.std.specs.Prelude.{◌≡◌, List, true, OnOk};
ghost use Rattle.gtfs_schema.specs.Columns.{columns_of};
ghost use Rattle.gtfs_rows.specs.Cells.{record_text};
ghost use Rattle.gtfs_rows.specs.RowCells.{trip_cells};
ghost use Rattle.gtfs_rows.specs.RowsInMemory.{IsSoundParts, content_of_parts, trip_names_rows, trip_of};
ghost use Rattle.gtfs_table.specs.declared.file.File.TheVariants as file;
ghost use Rattle.gtfs_writing.specs.TakenRecords.{rows_in, with_row, with_rows};
ghost use Rattle.gtfs_rows.specs.declared.frequency.Frequency.{Frequency};
ghost use Rattle.gtfs_stop_times.specs.declared.stop_row.StopRow.{StopRow};

use crate::fields::Fields;
use crate::names::{route_id, service_id};
use crate::sink::Sink;
use gtfs_field::OutOfMemory;
use gtfs_rows::{Direction, Parts, Trip};

// The rows of trips.txt.
pub(crate) fn write_trips<S: Sink>(parts: &Parts, rows: &mut Fields<S>) -> Result<(), OutOfMemory>
    requires { IsSoundParts parts.now }
    ensures { OnOk result
        (rows.new ≡ with_rows S.takes rows.old (rows_in (content_of_parts parts.now) file.Trips)) }
{
    let trips = parts.trips.as_slice();
    for trip in trips {
        write_trip(parts, trip, rows)?;
    }
    Ok(())
}

// The row does not depend on the trip's stop times and frequencies.
fn write_trip<S: Sink>(parts: &Parts, trip: &Trip, rows: &mut Fields<S>) -> Result<(), OutOfMemory>
    requires { trip_names_rows parts.now trip.now ≡ true }
    ensures { OnOk result ((rs : List StopRow) (fs : List Frequency) → rows.new
        ≡ with_row S.takes rows.old
        (record_text (columns_of file.Trips) (trip_cells (trip_of parts.now trip.now rs fs)))) }
{
    rows.first(route_id(parts, trip.route_id))?;
    rows.text(service_id(parts, trip.service_id))?;
    rows.text(trip.trip_id.as_str())?;
    rows.optional_text(&trip.trip_headsign)?;
    rows.optional_text(&trip.trip_short_name)?;
    rows.optional_choice(trip.direction_id.map(Direction::number))?;
    rows.number(trip.wheelchair_accessible.number())?;
    rows.number(trip.bikes_allowed.number())?;
    rows.last()
}
