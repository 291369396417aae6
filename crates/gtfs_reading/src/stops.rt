//! The rows of stops.txt (GTFS Schedule Reference, `stops.txt`).

ghost use Rattle.std.specs.Prelude.{◌≡◌, ℕ, [], IfOk, OnOk, codes, map, true};
ghost use Rattle.gtfs_schema.specs.Problems.{Passes};
ghost use Rattle.gtfs_schema.specs.steps.Ids.{first_rows, rows_by_number};
ghost use Rattle.gtfs_reading.specs.ColumnIndices.{column_indices};
ghost use Rattle.gtfs_reading.specs.NamedTexts.{ids_of, stop_with_texts};
ghost use Rattle.gtfs_rows.specs.NamedRows.{names_parent, stop_named};
ghost use Rattle.std.specs.List.{list_all};
ghost use Rattle.gtfs_rows.specs.ContentRead.{content_of, stop_in};
ghost use Rattle.gtfs_table.specs.Rows.{is_row, records_in};
ghost use Rattle.gtfs_table.specs.Tables.{Dataset, record_at};
ghost use Rattle.gtfs_table.specs.declared.file.File.TheVariants as file;

use crate::columns::column_indices;
use crate::read_choices::{location_type, wheelchair_boarding};
use crate::references::{as_stop, number};
use crate::texts::{empty, read_id, read_optional_text};
use gtfs_field::{Axis, List, OutOfMemory};
use gtfs_rows::Stop;
use gtfs_schema::{Finder, Ids, stops_columns, values};
use gtfs_table::{File, Record, Tables};
use std::alloc::Global;

// The stops by their ids.
pub(crate) fn stops(
    alloc: Global,
    tables: &Tables,
    ids: &Ids<'_>,
) -> Result<List<Stop>, OutOfMemory>
    requires passes { Passes tables.now }
    requires ids { ids.now ≡ first_rows tables.now file.Stops (codes "stop_id") }
    ensures rows { IfOk result (λ rows.
        map (stop_named (ids_of tables.now file.Stops "stop_id")) rows
        ≡ (content_of tables.now).stops) }
    ensures numbers { IfOk result (λ rows.
        list_all (names_parent (ids_of tables.now file.Stops "stop_id")) rows ≡ true) }
{
    let mut stops = Vec::with_capacity(alloc, ids.len())?;
    let mut finder = Finder::new(ids);
    push_stops(alloc, tables, ids, &mut finder, &mut stops).and(Ok(List::new(stops)))
}

// Fills a list, which has one owner whichever row finds no memory.
fn push_stops(
    alloc: Global,
    tables: &Tables,
    ids: &Ids<'_>,
    finder: &mut Finder<'_>,
    stops: &mut Vec<Stop>,
) -> Result<(), OutOfMemory>
    requires passes { Passes tables.now }
    requires ids { ids.now ≡ first_rows tables.now file.Stops (codes "stop_id") }
    requires finder { finder.old.ids.now ≡ first_rows tables.now file.Stops (codes "stop_id") }
    requires none { stops.old.items ≡ [] }
    ensures rows { OnOk result
        (map (stop_named (ids_of tables.now file.Stops "stop_id")) stops.new.items
        ≡ map (stop_in tables.now) (rows_by_number ids.now)) }
    ensures numbers { OnOk result
        (list_all (names_parent (ids_of tables.now file.Stops "stop_id")) stops.new.items
        ≡ true) }
{
    let columns = column_indices(tables, File::Stops, &stops_columns());
    for number in 0..ids.len() {
        stops.push(stop(alloc, tables, &columns, ids.row(number), finder)?)?;
    }
    Ok(())
}

// The stop of a row. Its parent is looked up among all stops.
fn stop(
    alloc: Global,
    tables: &Tables,
    columns: &[Option<usize>; 12],
    row: usize,
    stops: &mut Finder<'_>,
) -> Result<Stop, OutOfMemory>
    requires passes { Passes tables.now }
    requires columns { columns.now ≡ column_indices tables.now file.Stops }
    requires row { is_row (records_in tables.now file.Stops) row ≡ true }
    requires stops { stops.old.ids.now ≡ first_rows tables.now file.Stops (codes "stop_id") }
    ensures value { IfOk result (λ s. stop_named (ids_of tables.now file.Stops "stop_id") s
        ≡ stop_in tables.now row) }
    ensures number { IfOk result (λ s.
        names_parent (ids_of tables.now file.Stops "stop_id") s ≡ true) }
    ensures same { stops.new.ids.now ≡ stops.old.ids.now }
{
    let record = tables.record(File::Stops, row);
    let mut stop = Stop {
        stop_id: empty(alloc),
        stop_code: None,
        stop_name: None,
        tts_stop_name: None,
        stop_desc: None,
        stop_lat: values::coordinate(Axis::Latitude, record.value(columns[5])),
        stop_lon: values::coordinate(Axis::Longitude, record.value(columns[6])),
        stop_url: None,
        location_type: location_type(record.value(columns[8])),
        parent_station: as_stop(number(stops, record.value(columns[9]))),
        wheelchair_boarding: wheelchair_boarding(record.value(columns[10])),
        platform_code: None,
    };
    read_texts(alloc, columns, &record, &mut stop).and(Ok(stop))
}

// Reads the texts of a row into a stop, which has one owner whichever text finds no memory.
fn read_texts(
    alloc: Global,
    columns: &[Option<usize>; 12],
    fields: &Record<'_>,
    stop: &mut Stop,
) -> Result<(), OutOfMemory>
    ensures { OnOk result ((d : Dataset) (row : ℕ)
        → columns.now ≡ column_indices d file.Stops
        → fields.now ≡ record_at (records_in d file.Stops) row
        → stop.new ≡ stop_with_texts d row stop.old) }
{
    read_id(alloc, fields, columns[0], &mut stop.stop_id)?;
    read_optional_text(alloc, fields, columns[1], &mut stop.stop_code)?;
    read_optional_text(alloc, fields, columns[2], &mut stop.stop_name)?;
    read_optional_text(alloc, fields, columns[3], &mut stop.tts_stop_name)?;
    read_optional_text(alloc, fields, columns[4], &mut stop.stop_desc)?;
    read_optional_text(alloc, fields, columns[7], &mut stop.stop_url)?;
    read_optional_text(alloc, fields, columns[11], &mut stop.platform_code)
}
