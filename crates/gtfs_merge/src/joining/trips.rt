ghost use Rattle.std.specs.Option.{option_eq};
ghost use Rattle.std.specs.Prelude.{◌≡◌, ◌<◌, [], IfOk, None, Some, length, map, nat_eq, option_map, slice_get, slice_index_or};
ghost use Rattle.gtfs_rows.specs.Rows.{Trip as TripOf};
ghost use Rattle.gtfs_rows.specs.RowsInMemory.{trip_ids};
ghost use Rattle.gtfs_merge.specs.JoinedNumbers.{joined_number, joined_numbers};
ghost use Rattle.gtfs_merge.specs.Renaming.{kept_as_is, route_b, service_b, stop_b, trip_with};
ghost use Rattle.gtfs_merge.specs.SameRows.{same_trip};
ghost use Rattle.gtfs_merge.specs.MergedSides.{content_a, content_b, nearness_of};
ghost use Rattle.gtfs_merge.specs.Twins.{twin_numbers};
ghost use Rattle.gtfs_merge.specs.declared.kind.Kind.TheVariants as kind;

use crate::comparing::frequencies::are_same_frequencies;
use crate::comparing::stop_times::are_same_stop_times;
use crate::comparing::trips::is_same_trip;
use crate::sides::Sides;
use gtfs_field::OutOfMemory;
use gtfs_rows::{RouteNo, ServiceNo, StopNo, TripNo};
use std::alloc::Global;

// For each trip of B the trip of A that it is joined with.
pub(crate) fn joined_trips(
    alloc: Global,
    sides: &Sides,
    routes: &[Option<RouteNo>],
    services: &[Option<ServiceNo>],
    stops: &[Option<StopNo>],
) -> Result<Vec<Option<TripNo>>, OutOfMemory>
    requires routes { map (option_map (λ n. n.0)) routes.now
        ≡ joined_numbers kind.Route sides.now }
    requires services { map (option_map (λ n. n.0)) services.now
        ≡ joined_numbers kind.Service sides.now }
    requires stops { map (option_map (λ n. n.0)) stops.now ≡ twin_numbers kind.Stop sides.now }
    ensures { IfOk result (λ joined. map (option_map (λ n. n.0)) joined.items
        ≡ joined_numbers kind.Trip sides.now) }
{
    let mut joined = Vec::with_capacity(alloc, sides.b.trip_count())?;
    for number in 0..sides.b.trip_count() {
        joined.push(joined_trip(sides, routes, services, stops, TripNo(number)))?;
    }
    Ok(joined)
}

// The trip of A that a trip of B is joined with.
fn joined_trip(
    sides: &Sides,
    routes: &[Option<RouteNo>],
    services: &[Option<ServiceNo>],
    stops: &[Option<StopNo>],
    trip: TripNo,
) -> Option<TripNo>
    requires routes { map (option_map (λ n. n.0)) routes.now
        ≡ joined_numbers kind.Route sides.now }
    requires services { map (option_map (λ n. n.0)) services.now
        ≡ joined_numbers kind.Service sides.now }
    requires stops { map (option_map (λ n. n.0)) stops.now ≡ twin_numbers kind.Stop sides.now }
    requires trip { trip.0 < length sides.now.b.now.trips }
    ensures { option_map (λ n. n.0) result
        ≡ joined_number kind.Trip sides.now (slice_index_or (trip_ids sides.now.b.now) trip.0 []) }
{
    sides.soundness();
    let row = sides.b.trip_by_number(trip);
    let other = sides.a.trip(row.trip_id.as_str())?;
    if is_joined_trip(sides, routes, services, stops, other, trip) {
        Some(other)
    } else {
        None
    }
}

// Whether a trip of B is the same as this one of A, its stop times and its frequencies too.
fn is_joined_trip(
    sides: &Sides,
    routes: &[Option<RouteNo>],
    services: &[Option<ServiceNo>],
    stops: &[Option<StopNo>],
    other: TripNo,
    trip: TripNo,
) -> bool
    requires routes { map (option_map (λ n. n.0)) routes.now
        ≡ joined_numbers kind.Route sides.now }
    requires services { map (option_map (λ n. n.0)) services.now
        ≡ joined_numbers kind.Service sides.now }
    requires stops { map (option_map (λ n. n.0)) stops.now ≡ twin_numbers kind.Stop sides.now }
    requires other { other.0 < length sides.now.a.now.trips }
    requires trip { trip.0 < length sides.now.b.now.trips }
    ensures { (s t : TripOf) → slice_get (content_a sides.now).trips other.0 ≡ Some s
        → slice_get (content_b sides.now).trips trip.0 ≡ Some t
        → result ≡ same_trip s (trip_with kept_as_is
        (route_b (content_a sides.now) (content_b sides.now))
        (service_b (content_a sides.now) (content_b sides.now))
        (stop_b (nearness_of sides.now) (content_a sides.now) (content_b sides.now)) t) }
{
    sides.soundness();
    let first = sides.a.trip_by_number(other);
    let second = sides.b.trip_by_number(trip);
    let route = is_route_joined_with(routes, second.route_id, first.route_id);
    let service = is_service_joined_with(services, second.service_id, first.service_id);
    let rows_a = sides.a.trip_rows(other);
    let rows_b = sides.b.trip_rows(trip);
    let periods_a = sides.a.trip_frequencies(other);
    let periods_b = sides.b.trip_frequencies(trip);
    if !is_same_trip(first, second, route, service) {
        return false;
    }
    if !are_same_frequencies(periods_a, periods_b) {
        return false;
    }
    are_same_stop_times(sides, stops, rows_a, rows_b)
}

// Whether a route of B is joined with this one of A.
fn is_route_joined_with(routes: &[Option<RouteNo>], route: RouteNo, other: RouteNo) -> bool
    requires { route.0 < length routes.now }
    ensures { result ≡ option_eq nat_eq (Some other.0)
        (slice_index_or (map (option_map (λ n. n.0)) routes.now) route.0 None) }
{
    routes[route.0] == Some(other)
}

// Whether a service of B is joined with this one of A.
fn is_service_joined_with(
    services: &[Option<ServiceNo>],
    service: ServiceNo,
    other: ServiceNo,
) -> bool
    requires { service.0 < length services.now }
    ensures { result ≡ option_eq nat_eq (Some other.0)
        (slice_index_or (map (option_map (λ n. n.0)) services.now) service.0 None) }
{
    services[service.0] == Some(other)
}
