//! The rows of transfers.txt (GTFS Schedule Reference, `transfers.txt`).

ghost use Rattle.std.specs.List.{list_all};
ghost use Rattle.std.specs.Prelude.{◌≡◌, [], IfOk, OnOk, codes, map, option_map, true};
ghost use Rattle.gtfs_schema.specs.Problems.{Passes};
ghost use Rattle.gtfs_schema.specs.steps.Ids.{first_rows};
ghost use Rattle.gtfs_rows.specs.TransferEnds.{names_ends, transfer_named, transfer_numbers};
ghost use Rattle.gtfs_reading.specs.ColumnIndices.{column_indices};
ghost use Rattle.gtfs_reading.specs.NamedTexts.{ids_of};
ghost use Rattle.gtfs_rows.specs.ContentRead.{content_of, transfer_in};
ghost use Rattle.gtfs_table.specs.Rows.{is_row, records_in, rows};
ghost use Rattle.gtfs_table.specs.declared.file.File.TheVariants as file;

use crate::columns::column_indices;
use crate::numbers::optional_count;
use crate::read_choices::transfer_type;
use crate::references::{as_route, as_stop, as_trip, number};
use gtfs_field::{List, OutOfMemory};
use gtfs_rows::{RouteNo, StopNo, Transfer, TripNo};
use gtfs_schema::{Finder, Ids, transfers_columns};
use gtfs_table::{File, Tables};
use std::alloc::Global;

// The transfers by the six parts of their keys.
pub(crate) fn transfers(
    alloc: Global,
    tables: &Tables,
    stops: &Ids<'_>,
    routes: &Ids<'_>,
    trips: &Ids<'_>,
) -> Result<List<Transfer>, OutOfMemory>
    requires passes { Passes tables.now }
    requires stops { stops.now ≡ first_rows tables.now file.Stops (codes "stop_id") }
    requires routes { routes.now ≡ first_rows tables.now file.Routes (codes "route_id") }
    requires trips { trips.now ≡ first_rows tables.now file.Trips (codes "trip_id") }
    ensures rows { IfOk result (λ rows. map (transfer_named (ids_of tables.now file.Stops "stop_id")
        (ids_of tables.now file.Routes "route_id") (ids_of tables.now file.Trips "trip_id")) rows
        ≡ (content_of tables.now).transfers) }
    ensures numbers { IfOk result (λ rows. list_all
        (names_ends (ids_of tables.now file.Stops "stop_id")
        (ids_of tables.now file.Routes "route_id") (ids_of tables.now file.Trips "trip_id")) rows
        ≡ true) }
{
    let mut transfers = Vec::new(alloc);
    push_in_file_order(tables, stops, routes, trips, &mut transfers)?;
    let by_key = |transfer: &Transfer| -> [Option<usize>; 6]
        ensures { result ≡ transfer_numbers transfer.now }
    { key(transfer) };
    transfers.sort_unstable_by_key(by_key);
    Ok(List::new(transfers))
}

// Fills a list with the transfers in the order of their rows.
fn push_in_file_order(
    tables: &Tables,
    stops: &Ids<'_>,
    routes: &Ids<'_>,
    trips: &Ids<'_>,
    transfers: &mut Vec<Transfer>,
) -> Result<(), OutOfMemory>
    requires passes { Passes tables.now }
    requires stops { stops.now ≡ first_rows tables.now file.Stops (codes "stop_id") }
    requires routes { routes.now ≡ first_rows tables.now file.Routes (codes "route_id") }
    requires trips { trips.now ≡ first_rows tables.now file.Trips (codes "trip_id") }
    requires none { transfers.old.items ≡ [] }
    ensures rows { OnOk result (map (transfer_named (ids_of tables.now file.Stops "stop_id")
        (ids_of tables.now file.Routes "route_id")
        (ids_of tables.now file.Trips "trip_id")) transfers.new.items
        ≡ map (transfer_in tables.now) (rows tables.now file.Transfers)) }
    ensures numbers { OnOk result (list_all
        (names_ends (ids_of tables.now file.Stops "stop_id")
        (ids_of tables.now file.Routes "route_id")
        (ids_of tables.now file.Trips "trip_id")) transfers.new.items
        ≡ true) }
{
    let columns = column_indices(tables, File::Transfers, &transfers_columns());
    let mut stops = Finder::new(stops);
    let mut routes = Finder::new(routes);
    let mut trips = Finder::new(trips);
    for (row, _) in tables.rows(File::Transfers) {
        let transfer = transfer(tables, &columns, row, &mut stops, &mut routes, &mut trips);
        transfers.push(transfer)?;
    }
    Ok(())
}

// The numbers of what a transfer names.
// They are in the order of the ids, and a part that is not there is the least.
fn key(transfer: &Transfer) -> [Option<usize>; 6]
    ensures { result ≡ transfer_numbers transfer.now }
{
    [
        stop_part(transfer.from_stop_id),
        stop_part(transfer.to_stop_id),
        route_part(transfer.from_route_id),
        route_part(transfer.to_route_id),
        trip_part(transfer.from_trip_id),
        trip_part(transfer.to_trip_id),
    ]
}

fn stop_part(stop: Option<StopNo>) -> Option<usize>
    ensures { result ≡ option_map (λ n. n.0) stop }
{
    let stop = stop?;
    Some(stop.0)
}

fn route_part(route: Option<RouteNo>) -> Option<usize>
    ensures { result ≡ option_map (λ n. n.0) route }
{
    let route = route?;
    Some(route.0)
}

fn trip_part(trip: Option<TripNo>) -> Option<usize>
    ensures { result ≡ option_map (λ n. n.0) trip }
{
    let trip = trip?;
    Some(trip.0)
}

// The transfer of a row. What it names is looked up among all stops, routes and trips.
fn transfer(
    tables: &Tables,
    columns: &[Option<usize>; 8],
    row: usize,
    stops: &mut Finder<'_>,
    routes: &mut Finder<'_>,
    trips: &mut Finder<'_>,
) -> Transfer
    requires passes { Passes tables.now }
    requires columns { columns.now ≡ column_indices tables.now file.Transfers }
    requires row { is_row (records_in tables.now file.Transfers) row ≡ true }
    requires stops { stops.old.ids.now ≡ first_rows tables.now file.Stops (codes "stop_id") }
    requires routes { routes.old.ids.now ≡ first_rows tables.now file.Routes (codes "route_id") }
    requires trips { trips.old.ids.now ≡ first_rows tables.now file.Trips (codes "trip_id") }
    ensures value { transfer_named (ids_of tables.now file.Stops "stop_id")
        (ids_of tables.now file.Routes "route_id") (ids_of tables.now file.Trips "trip_id") result
        ≡ transfer_in tables.now row }
    ensures numbers { names_ends (ids_of tables.now file.Stops "stop_id")
        (ids_of tables.now file.Routes "route_id") (ids_of tables.now file.Trips "trip_id") result
        ≡ true }
    ensures stops { stops.new.ids.now ≡ stops.old.ids.now }
    ensures routes { routes.new.ids.now ≡ routes.old.ids.now }
    ensures trips { trips.new.ids.now ≡ trips.old.ids.now }
{
    let record = tables.record(File::Transfers, row);
    Transfer {
        from_stop_id: as_stop(number(stops, record.value(columns[0]))),
        to_stop_id: as_stop(number(stops, record.value(columns[1]))),
        from_route_id: as_route(number(routes, record.value(columns[2]))),
        to_route_id: as_route(number(routes, record.value(columns[3]))),
        from_trip_id: as_trip(number(trips, record.value(columns[4]))),
        to_trip_id: as_trip(number(trips, record.value(columns[5]))),
        transfer_type: transfer_type(record.value(columns[6])),
        min_transfer_time: optional_count(record.value(columns[7])),
    }
}
