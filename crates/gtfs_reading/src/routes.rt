//! The rows of routes.txt (GTFS Schedule Reference, `routes.txt`).

ghost use Rattle.std.specs.Prelude.{◌≡◌, ℕ, [], IfOk, OnOk, codes, map, true};
ghost use Rattle.gtfs_schema.specs.Problems.{Passes};
ghost use Rattle.gtfs_schema.specs.steps.Ids.{first_rows, rows_by_number};
ghost use Rattle.gtfs_reading.specs.ColumnIndices.{column_indices};
ghost use Rattle.gtfs_reading.specs.NamedTexts.{ids_of, route_with_texts};
ghost use Rattle.gtfs_rows.specs.NamedRows.{names_agency, route_named};
ghost use Rattle.std.specs.List.{list_all};
ghost use Rattle.gtfs_rows.specs.ContentRead.{content_of, route_in};
ghost use Rattle.gtfs_table.specs.Rows.{is_row, records_in};
ghost use Rattle.gtfs_table.specs.Tables.{Dataset, record_at};
ghost use Rattle.gtfs_table.specs.declared.file.File.TheVariants as file;

use crate::columns::column_indices;
use crate::numbers::{colour, optional_count};
use crate::read_choices::route_type;
use crate::references::number;
use crate::texts::{empty, read_id, read_optional_text};
use gtfs_field::{List, OutOfMemory};
use gtfs_rows::{AgencyNo, Route};
use gtfs_schema::{Finder, Ids, routes_columns};
use gtfs_table::{File, Record, Tables};
use std::alloc::Global;

// The routes by their ids.
pub(crate) fn routes(
    alloc: Global,
    tables: &Tables,
    agencies: &Ids<'_>,
    ids: &Ids<'_>,
) -> Result<List<Route>, OutOfMemory>
    requires passes { Passes tables.now }
    requires agencies { agencies.now ≡ first_rows tables.now file.Agency (codes "agency_id") }
    requires ids { ids.now ≡ first_rows tables.now file.Routes (codes "route_id") }
    ensures rows { IfOk result (λ rows.
        map (route_named (ids_of tables.now file.Agency "agency_id")) rows
        ≡ (content_of tables.now).routes) }
    ensures numbers { IfOk result (λ rows.
        list_all (names_agency (ids_of tables.now file.Agency "agency_id")) rows ≡ true) }
{
    let mut routes = Vec::with_capacity(alloc, ids.len())?;
    let mut finder = Finder::new(agencies);
    push_routes(alloc, tables, ids, &mut finder, &mut routes).and(Ok(List::new(routes)))
}

// Fills a list, which has one owner whichever row finds no memory.
fn push_routes(
    alloc: Global,
    tables: &Tables,
    ids: &Ids<'_>,
    agencies: &mut Finder<'_>,
    routes: &mut Vec<Route>,
) -> Result<(), OutOfMemory>
    requires passes { Passes tables.now }
    requires ids { ids.now ≡ first_rows tables.now file.Routes (codes "route_id") }
    requires agencies { agencies.old.ids.now
        ≡ first_rows tables.now file.Agency (codes "agency_id") }
    requires none { routes.old.items ≡ [] }
    ensures rows { OnOk result
        (map (route_named (ids_of tables.now file.Agency "agency_id")) routes.new.items
        ≡ map (route_in tables.now) (rows_by_number ids.now)) }
    ensures numbers { OnOk result
        (list_all (names_agency (ids_of tables.now file.Agency "agency_id")) routes.new.items
        ≡ true) }
{
    let columns = column_indices(tables, File::Routes, &routes_columns());
    for number in 0..ids.len() {
        routes.push(route(alloc, tables, &columns, ids.row(number), agencies)?)?;
    }
    Ok(())
}

// The route of a row. Where it names no agency its agency is the first one,
// which is then the only one.
fn route(
    alloc: Global,
    tables: &Tables,
    columns: &[Option<usize>; 10],
    row: usize,
    agencies: &mut Finder<'_>,
) -> Result<Route, OutOfMemory>
    requires passes { Passes tables.now }
    requires columns { columns.now ≡ column_indices tables.now file.Routes }
    requires row { is_row (records_in tables.now file.Routes) row ≡ true }
    requires agencies { agencies.old.ids.now
        ≡ first_rows tables.now file.Agency (codes "agency_id") }
    ensures value { IfOk result (λ r. route_named (ids_of tables.now file.Agency "agency_id") r
        ≡ route_in tables.now row) }
    ensures number { IfOk result (λ r.
        names_agency (ids_of tables.now file.Agency "agency_id") r ≡ true) }
    ensures same { agencies.new.ids.now ≡ agencies.old.ids.now }
{
    let record = tables.record(File::Routes, row);
    let agency = number(agencies, record.value(columns[1])).unwrap_or(0);
    let mut route = Route {
        route_id: empty(alloc),
        agency_id: AgencyNo(agency),
        route_short_name: None,
        route_long_name: None,
        route_desc: None,
        route_type: route_type(record.value(columns[5])),
        route_url: None,
        route_color: colour("FFFFFF", record.value(columns[7])),
        route_text_color: colour("000000", record.value(columns[8])),
        route_sort_order: optional_count(record.value(columns[9])),
    };
    read_texts(alloc, columns, &record, &mut route).and(Ok(route))
}

// Reads the texts of a row into a route, which has one owner whichever text finds no memory.
fn read_texts(
    alloc: Global,
    columns: &[Option<usize>; 10],
    fields: &Record<'_>,
    route: &mut Route,
) -> Result<(), OutOfMemory>
    ensures { OnOk result ((d : Dataset) (row : ℕ)
        → columns.now ≡ column_indices d file.Routes
        → fields.now ≡ record_at (records_in d file.Routes) row
        → route.new ≡ route_with_texts d row route.old) }
{
    read_id(alloc, fields, columns[0], &mut route.route_id)?;
    read_optional_text(alloc, fields, columns[2], &mut route.route_short_name)?;
    read_optional_text(alloc, fields, columns[3], &mut route.route_long_name)?;
    read_optional_text(alloc, fields, columns[4], &mut route.route_desc)?;
    read_optional_text(alloc, fields, columns[6], &mut route.route_url)
}
