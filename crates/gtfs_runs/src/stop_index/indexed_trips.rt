ghost use Rattle.std.specs.Prelude.{◌≡◌, ◌<◌, ◌-◌, ◌==◌, IfOk, List, Some, [], length, map, not, slice_get, slice_index_or};
ghost use Rattle.std.specs.List.Sorted.{IsSorted};
ghost use Rattle.gtfs_rows.specs.Trips.{frequencies_by_trip, stop_rows_by_trip};
ghost use Rattle.gtfs_rows.specs.declared.frequency.Frequency.{Frequency};
ghost use Rattle.gtfs_runs.specs.declared.stop_index.indexed_trips.IndexedTrip.{IndexedTrip as IndexedValue};
ghost use Rattle.gtfs_runs.specs.steps.TripGroups.{AreOfTrips, GroupedTripValue, below, group_cmp, group_of, trip_group};
ghost use Rattle.gtfs_stop_times.specs.StopLists.{stops_in};
ghost use Rattle.gtfs_runs.specs.steps.Passings.{first_left};
ghost use Rattle.gtfs_runs.specs.steps.IndexedTrips.{AreIndexedTrips};

use crate::departure_row::trip_start;
use crate::grouped_trip::{GroupedTrip, group_order};
use gtfs_feed::Feed;
use gtfs_field::OutOfMemory;
use gtfs_rows::TripNo;
use gtfs_stop_times::{StopLists, small_number};
use std::alloc::Global;

// What is kept of a trip, so that its rows need not look at it.
#[derive(Clone, Copy)]
pub(crate) struct IndexedTrip {
    // The number of its group, by which groups are compared, 0 until it is known.
    pub(crate) group: u32,
    pub(crate) service: u32,
    // The second at which it leaves its first stop.
    pub(crate) start: u32,
    // Whether rows of `frequencies.txt` repeat it.
    pub(crate) has_frequencies: bool,
}

impl IndexedTrip {
    // That of a trip of the feed, whose group is not known yet.
    pub(crate) fn of(feed: &Feed, trip: TripNo) -> Result<IndexedTrip, OutOfMemory>
        requires { trip.0 < length feed.now.trips }
        ensures group { IfOk result (λ x. x.group ≡ 0) }
        ensures service { IfOk result (λ x. x.service ≡ (trip_group feed.now trip.0).0) }
        ensures start { IfOk result (λ x. x.start
            ≡ first_left (slice_index_or (stop_rows_by_trip feed.now) trip.0 [])) }
        ensures marked { IfOk result (λ x. (fs : List Frequency)
            → slice_get (frequencies_by_trip feed.now) trip.0 ≡ Some fs
            → x.has_frequencies ≡ not (length fs == 0)) }
    {
        Ok(IndexedTrip {
            group: 0,
            service: small_number(feed.trip_by_number(trip).service_id.0)?,
            start: trip_start(feed.trip_rows(trip)),
            has_frequencies: !feed.trip_frequencies(trip).is_empty(),
        })
    }
}

// That of a rank, of those of a feed.
pub(crate) fn trip_at(trips: &[IndexedTrip], rank: u32) -> IndexedTrip
    requires { rank < length trips.now }
    ensures { (e : IndexedValue) → result ≡ slice_index_or trips.now rank e }
{
    trips[rank as usize]
}

// Each trip of a feed with its group, in the order of their numbers, where these are the stops of
// all trips.
pub(crate) fn grouped_trips<'a>(
    alloc: Global,
    feed: &Feed,
    lists: &'a StopLists,
) -> Result<Vec<GroupedTrip<'a>>, OutOfMemory>
    requires { lists.now ≡ map stops_in (stop_rows_by_trip feed.now) }
    ensures { IfOk result (λ trips. AreOfTrips feed.now (length feed.now.trips) trips.items) }
{
    feed.soundness();
    let mut trips = Vec::with_capacity(alloc, feed.trip_count())?;
    for number in 0..feed.trip_count() {
        let trip = TripNo(number);
        let start = trip_start(feed.trip_rows(trip));
        trips.push(GroupedTrip::of(feed, trip, start, lists.get(number))?)?;
    }
    Ok(trips)
}

// What an index keeps of the trips of a feed, which stand in its order.
pub(crate) fn indexed_trips(
    alloc: Global,
    feed: &Feed,
    sorted: &[GroupedTrip<'_>],
) -> Result<Vec<IndexedTrip>, OutOfMemory>
    requires trips { AreOfTrips feed.now (length feed.now.trips) sorted.now }
    requires in_order { IsSorted (λ x y. group_cmp (group_of x) (group_of y)) sorted.now }
    ensures { IfOk result (λ trips. AreIndexedTrips feed.now sorted.now trips.items) }
{
    feed.soundness();
    let mut trips = Vec::with_capacity(alloc, sorted.len())?;
    let mut group = 0;
    for rank in 0..sorted.len() {
        group = group_at(sorted, rank, group)?;
        trips.push(indexed_trip(feed, &sorted[rank], group))?;
    }
    Ok(trips)
}

// What an index keeps of a trip whose group has this number.
fn indexed_trip(feed: &Feed, trip: &GroupedTrip<'_>, group: u32) -> IndexedTrip
    requires { trip.now.trip.0 < length feed.now.trips }
    ensures group { result.group ≡ group }
    ensures service { result.service ≡ trip.now.service }
    ensures start { result.start ≡ trip.now.start }
    ensures marked { (fs : List Frequency)
        → slice_get (frequencies_by_trip feed.now) trip.now.trip.0 ≡ Some fs
        → result.has_frequencies ≡ not (length fs == 0) }
{
    IndexedTrip {
        group,
        service: trip.service(),
        start: trip.start(),
        has_frequencies: !feed.trip_frequencies(trip.trip()).is_empty(),
    }
}

// The number of the group of the trip of a rank: how many trips come before the first of the group.
// That of the trip before it is known.
fn group_at(sorted: &[GroupedTrip<'_>], rank: usize, before: u32) -> Result<u32, OutOfMemory>
    requires in_order { IsSorted (λ x y. group_cmp (group_of x) (group_of y)) sorted.now }
    requires within { rank < length sorted.now }
    requires before { (d : GroupedTripValue) → 0 < rank
        → before ≡ below sorted.now (group_of (slice_index_or sorted.now (rank - 1) d)) }
    ensures { IfOk result (λ group. (d : GroupedTripValue)
        → group ≡ below sorted.now (group_of (slice_index_or sorted.now rank d))) }
{
    if rank > 0 && !group_order(&sorted[rank - 1], &sorted[rank]).is_lt() {
        return Ok(before);
    }
    small_number(rank)
}
