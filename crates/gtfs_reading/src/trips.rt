//! The rows of trips.txt (GTFS Schedule Reference, `trips.txt`),
//! without their stop times and frequencies.

ghost use Rattle.std.specs.Prelude.{◌≡◌, ℕ, [], IfOk, OnOk, codes, map, true};
ghost use Rattle.gtfs_schema.specs.Problems.{Passes};
ghost use Rattle.gtfs_schema.specs.steps.Ids.{first_rows, rows_by_number};
ghost use Rattle.gtfs_reading.specs.ColumnIndices.{column_indices};
ghost use Rattle.gtfs_reading.specs.NamedTexts.{ids_of, trip_with_texts};
ghost use Rattle.gtfs_rows.specs.NamedRows.{names_route_and_service, trip_named, without_rows};
ghost use Rattle.std.specs.List.{list_all};
ghost use Rattle.gtfs_reading.specs.ServiceIds.{HasAll, service_ids, service_texts};
ghost use Rattle.gtfs_rows.specs.ContentRead.{content_of, trip_in};
ghost use Rattle.gtfs_table.specs.Rows.{is_row, records_in};
ghost use Rattle.gtfs_table.specs.Tables.{Dataset, record_at};
ghost use Rattle.gtfs_table.specs.declared.file.File.TheVariants as file;

use crate::columns::column_indices;
use crate::read_choices::{bikes_allowed, direction, wheelchair_accessible};
use crate::references::number;
use crate::service_ids::ServiceIds;
use crate::texts::{empty, read_id, read_optional_text};
use gtfs_field::{List, OutOfMemory};
use gtfs_rows::{RouteNo, ServiceNo, Trip};
use gtfs_schema::{Finder, Ids, trips_columns};
use gtfs_table::{File, Record, Tables};
use std::alloc::Global;

// The trips by their ids.
pub(crate) fn trips(
    alloc: Global,
    tables: &Tables,
    routes: &Ids<'_>,
    services: &ServiceIds<'_>,
    ids: &Ids<'_>,
) -> Result<List<Trip>, OutOfMemory>
    requires passes { Passes tables.now }
    requires routes { routes.now ≡ first_rows tables.now file.Routes (codes "route_id") }
    requires services { services.now ≡ service_ids tables.now }
    requires named { HasAll (service_texts tables.now) services.now }
    requires ids { ids.now ≡ first_rows tables.now file.Trips (codes "trip_id") }
    ensures rows { IfOk result (λ rows.
        map (trip_named (ids_of tables.now file.Routes "route_id") (service_ids tables.now)) rows
        ≡ map without_rows (content_of tables.now).trips) }
    ensures numbers { IfOk result (λ rows. list_all (names_route_and_service
        (ids_of tables.now file.Routes "route_id") (service_ids tables.now)) rows ≡ true) }
{
    let mut trips = Vec::with_capacity(alloc, ids.len())?;
    let mut finder = Finder::new(routes);
    push_trips(alloc, tables, ids, &mut finder, services, &mut trips).and(Ok(List::new(trips)))
}

// Fills a list, which has one owner whichever row finds no memory.
fn push_trips(
    alloc: Global,
    tables: &Tables,
    ids: &Ids<'_>,
    routes: &mut Finder<'_>,
    services: &ServiceIds<'_>,
    trips: &mut Vec<Trip>,
) -> Result<(), OutOfMemory>
    requires passes { Passes tables.now }
    requires ids { ids.now ≡ first_rows tables.now file.Trips (codes "trip_id") }
    requires routes { routes.old.ids.now ≡ first_rows tables.now file.Routes (codes "route_id") }
    requires services { services.now ≡ service_ids tables.now }
    requires named { HasAll (service_texts tables.now) services.now }
    requires none { trips.old.items ≡ [] }
    ensures rows { OnOk result
        (map (trip_named (ids_of tables.now file.Routes "route_id") (service_ids tables.now))
        trips.new.items
        ≡ map (λ n. without_rows (trip_in tables.now n)) (rows_by_number ids.now)) }
    ensures numbers { OnOk result
        (list_all (names_route_and_service (ids_of tables.now file.Routes "route_id")
        (service_ids tables.now)) trips.new.items ≡ true) }
{
    let columns = column_indices(tables, File::Trips, &trips_columns());
    for number in 0..ids.len() {
        let row = ids.row(number);
        trips.push(trip(alloc, tables, &columns, row, routes, services)?)?;
    }
    Ok(())
}

// The trip of a row. Its route is looked up among all routes,
// and its service among all services.
fn trip(
    alloc: Global,
    tables: &Tables,
    columns: &[Option<usize>; 8],
    row: usize,
    routes: &mut Finder<'_>,
    services: &ServiceIds<'_>,
) -> Result<Trip, OutOfMemory>
    requires passes { Passes tables.now }
    requires columns { columns.now ≡ column_indices tables.now file.Trips }
    requires row { is_row (records_in tables.now file.Trips) row ≡ true }
    requires routes { routes.old.ids.now ≡ first_rows tables.now file.Routes (codes "route_id") }
    requires services { services.now ≡ service_ids tables.now }
    requires named { HasAll (service_texts tables.now) services.now }
    ensures value { IfOk result (λ t. trip_named (ids_of tables.now file.Routes "route_id")
        (service_ids tables.now) t
        ≡ without_rows (trip_in tables.now row)) }
    ensures numbers { IfOk result (λ t. names_route_and_service
        (ids_of tables.now file.Routes "route_id") (service_ids tables.now) t ≡ true) }
    ensures same { routes.new.ids.now ≡ routes.old.ids.now }
{
    let record = tables.record(File::Trips, row);
    let route = number(routes, record.value(columns[0])).unwrap_or(0);
    let service = services.find(record.value(columns[1]));
    let mut trip = Trip {
        route_id: RouteNo(route),
        service_id: ServiceNo(service.unwrap_or(0)),
        trip_id: empty(alloc),
        trip_headsign: None,
        trip_short_name: None,
        direction_id: direction(record.value(columns[5])),
        wheelchair_accessible: wheelchair_accessible(record.value(columns[6])),
        bikes_allowed: bikes_allowed(record.value(columns[7])),
    };
    read_texts(alloc, columns, &record, &mut trip).and(Ok(trip))
}

// Reads the texts of a row into a trip, which has one owner whichever text finds no memory.
fn read_texts(
    alloc: Global,
    columns: &[Option<usize>; 8],
    fields: &Record<'_>,
    trip: &mut Trip,
) -> Result<(), OutOfMemory>
    ensures { OnOk result ((d : Dataset) (row : ℕ)
        → columns.now ≡ column_indices d file.Trips
        → fields.now ≡ record_at (records_in d file.Trips) row
        → trip.new ≡ trip_with_texts d row trip.old) }
{
    read_id(alloc, fields, columns[2], &mut trip.trip_id)?;
    read_optional_text(alloc, fields, columns[3], &mut trip.trip_headsign)?;
    read_optional_text(alloc, fields, columns[4], &mut trip.trip_short_name)
}
