ghost use Rattle.std.specs.Prelude.{◌≡◌, ◌<◌, [], bytes_eq, length, position, slice_index_or};
ghost use Rattle.gtfs_merge.specs.FeedIds.{known_ids};
ghost use Rattle.gtfs_merge.specs.Renaming.{lists_id};

use crate::kind::Kind;
use crate::row_numbers::{agency_number, route_number, service_number, stop_number, trip_number};
use gtfs_feed::Feed;
use gtfs_rows::{AgencyNo, RouteNo, ServiceNo, StopNo, TripNo};

// How many ids of a kind a feed has.
pub(crate) fn count_of(feed: &Feed, kind: Kind) -> usize
    ensures { result ≡ length (known_ids kind feed.now) }
{
    match kind {
        Kind::Agency => feed.agency_count(),
        Kind::Stop => feed.stop_count(),
        Kind::Route => feed.route_count(),
        Kind::Service => feed.service_count(),
        Kind::Trip => feed.trip_count(),
    }
}

// The id of a number.
pub(crate) fn id_of(feed: &Feed, kind: Kind, number: usize) -> &str
    requires { number < length (known_ids kind feed.now) }
    ensures { result.now ≡ slice_index_or (known_ids kind feed.now) number [] }
{
    match kind {
        Kind::Agency => feed.agency_by_number(AgencyNo(number)).agency_id.as_str(),
        Kind::Stop => feed.stop_by_number(StopNo(number)).stop_id.as_str(),
        Kind::Route => feed.route_by_number(RouteNo(number)).route_id.as_str(),
        Kind::Service => feed.service_id(ServiceNo(number)),
        Kind::Trip => feed.trip_by_number(TripNo(number)).trip_id.as_str(),
    }
}

// The number of an id, if the feed has it.
pub(crate) fn number_of(feed: &Feed, kind: Kind, id: &str) -> Option<usize>
    ensures { result ≡ position (bytes_eq id.now) (known_ids kind feed.now) }
{
    match kind {
        Kind::Agency => agency_number(feed.agency(id)),
        Kind::Stop => stop_number(feed.stop(id)),
        Kind::Route => route_number(feed.route(id)),
        Kind::Service => service_number(feed.service(id)),
        Kind::Trip => trip_number(feed.trip(id)),
    }
}

// Whether a feed has this id of a kind.
pub(crate) fn has_this_id(feed: &Feed, kind: Kind, id: &str) -> bool
    ensures { result ≡ lists_id (known_ids kind feed.now) id.now }
{
    number_of(feed, kind, id).is_some()
}
