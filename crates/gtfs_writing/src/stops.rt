ghost use Rattle.std.specs.Prelude.{◌≡◌, true, OnOk};
ghost use Rattle.gtfs_schema.specs.Columns.{columns_of};
ghost use Rattle.gtfs_rows.specs.Cells.{record_text};
ghost use Rattle.gtfs_rows.specs.RowCells.{stop_cells};
ghost use Rattle.gtfs_rows.specs.RowsInMemory.{IsSoundParts, content_of_parts, names_stop, stop_of};
ghost use Rattle.gtfs_table.specs.declared.file.File.TheVariants as file;
ghost use Rattle.gtfs_writing.specs.TakenRecords.{rows_in, with_row, with_rows};

use crate::fields::Fields;
use crate::names::stop_id_if_any;
use crate::sink::Sink;
use gtfs_field::OutOfMemory;
use gtfs_rows::{Parts, Stop};

// The rows of stops.txt.
pub(crate) fn write_stops<S: Sink>(parts: &Parts, rows: &mut Fields<S>) -> Result<(), OutOfMemory>
    requires { IsSoundParts parts.now }
    ensures { OnOk result
        (rows.new ≡ with_rows S.takes rows.old (rows_in (content_of_parts parts.now) file.Stops)) }
{
    let stops = parts.stops.as_slice();
    for stop in stops {
        write_stop(parts, stop, rows)?;
    }
    Ok(())
}

fn write_stop<S: Sink>(parts: &Parts, stop: &Stop, rows: &mut Fields<S>) -> Result<(), OutOfMemory>
    requires { names_stop parts.now stop.now.parent_station ≡ true }
    ensures { OnOk result (rows.new ≡ with_row S.takes rows.old
        (record_text (columns_of file.Stops) (stop_cells (stop_of parts.now stop.now)))) }
{
    rows.first(stop.stop_id.as_str())?;
    rows.optional_text(&stop.stop_code)?;
    rows.optional_text(&stop.stop_name)?;
    rows.optional_text(&stop.tts_stop_name)?;
    rows.optional_text(&stop.stop_desc)?;
    rows.optional_coord(stop.stop_lat)?;
    rows.optional_coord(stop.stop_lon)?;
    rows.optional_text(&stop.stop_url)?;
    rows.number(stop.location_type.number())?;
    rows.text(stop_id_if_any(parts, stop.parent_station))?;
    rows.number(stop.wheelchair_boarding.number())?;
    rows.optional_text(&stop.platform_code)?;
    rows.last()
}
