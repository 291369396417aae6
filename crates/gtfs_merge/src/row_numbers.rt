//! The numbers of rows that may be missing, without their kinds.
ghost use Rattle.std.specs.Prelude.{◌≡◌, option_map};

use gtfs_rows::{AgencyNo, RouteNo, ServiceNo, StopNo, TripNo};

pub(crate) fn agency_number(agency: Option<AgencyNo>) -> Option<usize>
    ensures { result ≡ option_map (λ n. n.0) agency }
{
    match agency {
        Some(agency) => Some(agency.0),
        None => None,
    }
}

pub(crate) fn stop_number(stop: Option<StopNo>) -> Option<usize>
    ensures { result ≡ option_map (λ n. n.0) stop }
{
    match stop {
        Some(stop) => Some(stop.0),
        None => None,
    }
}

pub(crate) fn route_number(route: Option<RouteNo>) -> Option<usize>
    ensures { result ≡ option_map (λ n. n.0) route }
{
    match route {
        Some(route) => Some(route.0),
        None => None,
    }
}

pub(crate) fn service_number(service: Option<ServiceNo>) -> Option<usize>
    ensures { result ≡ option_map (λ n. n.0) service }
{
    match service {
        Some(service) => Some(service.0),
        None => None,
    }
}

pub(crate) fn trip_number(trip: Option<TripNo>) -> Option<usize>
    ensures { result ≡ option_map (λ n. n.0) trip }
{
    match trip {
        Some(trip) => Some(trip.0),
        None => None,
    }
}
