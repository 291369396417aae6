ghost use Rattle.std.specs.Prelude.{◌≡◌, ◌<◌, IfOk, length, map, slice_index_or, true};
ghost use Rattle.std.specs.List.{list_all};
ghost use Rattle.gtfs_rows.specs.NamedRows.{names_route_and_service, trip_named, without_rows};
ghost use Rattle.gtfs_merge.specs.KindEntries.{AreKindRows};
ghost use Rattle.gtfs_merge.specs.MergedSides.{merged_parts, merged_ids};
ghost use Rattle.gtfs_merge.specs.declared.kind.Kind.TheVariants as kind;

use crate::numbering::one_kind::KindRows;
use crate::sides::Sides;
use gtfs_field::{List, OutOfMemory};
use gtfs_rows::{RouteNo, ServiceNo, Trip, TripNo};
use std::alloc::Global;

// The trips of the merged feed.
pub(crate) fn merged_trips(
    alloc: Global,
    sides: &Sides,
    trips: &KindRows,
    routes: &KindRows,
    services: &KindRows,
) -> Result<List<Trip>, OutOfMemory>
    requires trips { AreKindRows kind.Trip sides.now trips.now }
    requires routes { AreKindRows kind.Route sides.now routes.now }
    requires services { AreKindRows kind.Service sides.now services.now }
    ensures rows { IfOk result (λ list. map (trip_named (merged_ids kind.Route sides.now)
        (merged_ids kind.Service sides.now)) list
        ≡ map without_rows (merged_parts sides.now).trips) }
    ensures references { IfOk result (λ list. list_all (names_route_and_service
        (merged_ids kind.Route sides.now) (merged_ids kind.Service sides.now)) list ≡ true) }
{
    sides.soundness();
    let rows = trips.rows();
    let mut list = Vec::with_capacity(alloc, rows.len())?;
    for row in rows {
        let source = sides.of(row.side).trip_by_number(TripNo(row.number));
        let route_numbers = routes.numbers(row.side);
        let route = renumbered_route(source.route_id, route_numbers);
        let service_numbers = services.numbers(row.side);
        let service = renumbered_service(source.service_id, service_numbers);
        list.push(source.under(alloc, row.id, route, service)?)?;
    }
    Ok(List::new(list))
}

// What the number of a route became.
fn renumbered_route(route: RouteNo, numbers: &[usize]) -> RouteNo
    requires { route.0 < length numbers.now }
    ensures { result.0 ≡ slice_index_or numbers.now route.0 0 }
{
    RouteNo(numbers[route.0])
}

// What the number of a service became.
fn renumbered_service(service: ServiceNo, numbers: &[usize]) -> ServiceNo
    requires { service.0 < length numbers.now }
    ensures { result.0 ≡ slice_index_or numbers.now service.0 0 }
{
    ServiceNo(numbers[service.0])
}
