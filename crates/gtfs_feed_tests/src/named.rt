//! Numbers and ids of what the feeds of the tests have.

ghost use Rattle.std.specs.Prelude.{◌<◌, length};

use gtfs_feed::Feed;
use gtfs_rows::{ServiceNo, StopNo, TripNo};
use std::process::Abort;

/// The number of a stop, which the feed has to have.
pub(crate) fn stop_named(rt: &impl Abort, feed: &Feed, id: &str) -> StopNo
    ensures { result.0 < length feed.now.stops }
{
    let Some(stop) = feed.stop(id) else {
        panic!(rt; "no stop {id}");
    };
    assert!(rt; stop.0 < feed.stop_count());
    stop
}

/// The id of a stop, or a mark where the feed has no stop of this number.
pub(crate) fn stop_id(feed: &Feed, stop: StopNo) -> &str {
    if stop.0 < feed.stop_count() {
        feed.stop_by_number(stop).stop_id.as_str()
    } else {
        "no stop"
    }
}

/// The id of a trip, or a mark where the feed has no trip of this number.
pub(crate) fn trip_id(feed: &Feed, trip: TripNo) -> &str {
    if trip.0 < feed.trip_count() {
        feed.trip_by_number(trip).trip_id.as_str()
    } else {
        "no trip"
    }
}

/// The id of a service, or a mark where the feed has no service of this number.
pub(crate) fn service_id(feed: &Feed, service: ServiceNo) -> &str {
    if service.0 < feed.service_count() {
        feed.service_id(service)
    } else {
        "no service"
    }
}
