//! The numbers of rows that other rows name, found by their ids.

ghost use Rattle.std.specs.Prelude.{◌≡◌, option_map};
ghost use Rattle.gtfs_schema.specs.steps.Ids.{number_with};

use gtfs_rows::{RouteNo, StopNo, TripNo};
use gtfs_schema::Finder;

// The number of a row that may be missing.
pub(crate) fn number(ids: &mut Finder<'_>, id: &str) -> Option<usize>
    ensures number { result ≡ number_with ids.old.ids.now id.now }
    ensures same { ids.new.ids.now ≡ ids.old.ids.now }
{
    match ids.find(id) {
        Some(found) => Some(found.number),
        None => None,
    }
}

// A number as that of a stop.
pub(crate) fn as_stop(number: Option<usize>) -> Option<StopNo>
    ensures { option_map (λ n. n.0) result ≡ number }
{
    Some(StopNo(number?))
}

// A number as that of a route.
pub(crate) fn as_route(number: Option<usize>) -> Option<RouteNo>
    ensures { option_map (λ n. n.0) result ≡ number }
{
    Some(RouteNo(number?))
}

// A number as that of a trip.
pub(crate) fn as_trip(number: Option<usize>) -> Option<TripNo>
    ensures { option_map (λ n. n.0) result ≡ number }
{
    Some(TripNo(number?))
}
