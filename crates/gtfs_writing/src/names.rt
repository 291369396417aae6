// The ids that rows name by their numbers, and headsigns.
ghost use Rattle.std.specs.Prelude.{◌≡◌, ◌<◌, length, option_map, true};
ghost use Rattle.gtfs_schema.specs.Columns.{Kind};
ghost use Rattle.gtfs_schema.specs.FieldValues.{word};
ghost use Rattle.gtfs_rows.specs.Cells.{cell_text};
ghost use Rattle.gtfs_rows.specs.RowsInMemory.{agency_ids, is_number_within, names_route, names_stop, names_trip, route_ids, service_ids, stop_ids, text_of_number, trip_ids};

use gtfs_rows::{
    AgencyNo, HeadsignNo, OptionalHeadsign, Parts, RouteNo, ServiceNo, StopNo, TripNo,
};

pub(crate) fn agency_id(parts: &Parts, agency: AgencyNo) -> &str
    requires { agency.0 < length parts.now.agencies }
    ensures { result.now ≡ text_of_number (agency_ids parts.now) agency.0 }
{
    parts.agencies.as_slice()[agency.0].agency_id.as_str()
}

fn stop_id(parts: &Parts, stop: StopNo) -> &str
    requires { stop.0 < length parts.now.stops }
    ensures { result.now ≡ text_of_number (stop_ids parts.now) stop.0 }
{
    parts.stops.as_slice()[stop.0].stop_id.as_str()
}

pub(crate) fn route_id(parts: &Parts, route: RouteNo) -> &str
    requires { route.0 < length parts.now.routes }
    ensures { result.now ≡ text_of_number (route_ids parts.now) route.0 }
{
    parts.routes.as_slice()[route.0].route_id.as_str()
}

pub(crate) fn service_id(parts: &Parts, service: ServiceNo) -> &str
    requires { service.0 < length parts.now.services }
    ensures { result.now ≡ text_of_number (service_ids parts.now) service.0 }
{
    parts.services.as_slice()[service.0].service_id.as_str()
}

fn trip_id(parts: &Parts, trip: TripNo) -> &str
    requires { trip.0 < length parts.now.trips }
    ensures { result.now ≡ text_of_number (trip_ids parts.now) trip.0 }
{
    parts.trips.as_slice()[trip.0].trip_id.as_str()
}

fn headsign(parts: &Parts, headsign: HeadsignNo) -> &str
    requires { headsign.0 < length parts.now.headsigns }
    ensures { result.now ≡ text_of_number parts.now.headsigns headsign.0 }
{
    parts.headsigns.as_slice()[headsign.0 as usize].as_str()
}

// The id of a stop, or the empty text where there is none.
pub(crate) fn stop_id_if_any(parts: &Parts, stop: Option<StopNo>) -> &str
    requires { names_stop parts.now stop ≡ true }
    ensures { (kind : Kind) → result.now ≡ cell_text kind (option_map word
        (option_map (λ n. text_of_number (stop_ids parts.now) n.0) stop)) }
{
    match stop {
        Some(stop) => stop_id(parts, stop),
        None => "",
    }
}

pub(crate) fn route_id_if_any(parts: &Parts, route: Option<RouteNo>) -> &str
    requires { names_route parts.now route ≡ true }
    ensures { (kind : Kind) → result.now ≡ cell_text kind (option_map word
        (option_map (λ n. text_of_number (route_ids parts.now) n.0) route)) }
{
    match route {
        Some(route) => route_id(parts, route),
        None => "",
    }
}

pub(crate) fn trip_id_if_any(parts: &Parts, trip: Option<TripNo>) -> &str
    requires { names_trip parts.now trip ≡ true }
    ensures { (kind : Kind) → result.now ≡ cell_text kind (option_map word
        (option_map (λ n. text_of_number (trip_ids parts.now) n.0) trip)) }
{
    match trip {
        Some(trip) => trip_id(parts, trip),
        None => "",
    }
}

pub(crate) fn headsign_if_any(parts: &Parts, number: OptionalHeadsign) -> &str
    requires { is_number_within (length parts.now.headsigns) number ≡ true }
    ensures { (kind : Kind) → result.now ≡ cell_text kind (option_map word
        (option_map (text_of_number parts.now.headsigns) number)) }
{
    match number.get() {
        Some(number) => headsign(parts, number),
        None => "",
    }
}
