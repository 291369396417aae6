ghost use Rattle.std.specs.Prelude.{◌≡◌, ◌≤◌, ◌<◌, ◌-◌, ◌==◌, ℕ, true, All, IfOk, length, map, slice_index_or};
ghost use Rattle.std.specs.List.Sorted.{IsSorted};
ghost use Rattle.gtfs_rows.specs.declared.parts.Parts.{Parts};
ghost use Rattle.gtfs_runs.specs.Tallies.{tally};
ghost use Rattle.gtfs_runs.specs.declared.stop_lanes.listed.ListedEvent.{ListedEvent as ListedValue};
ghost use Rattle.gtfs_runs.specs.steps.Courses.{AreServed, stopping_of};
ghost use Rattle.gtfs_runs.specs.steps.TripGroups.{below, group_cmp, group_of, trip_group};
ghost use Rattle.gtfs_runs.specs.steps.CourseNumbers.{AreNumbered};

use crate::departure_row::trip_start;
use crate::grouped_trip::{GroupedTrip, by_group, group_order};
use crate::stop_lanes::listed::ListedEvent;
use gtfs_feed::Feed;
use gtfs_field::OutOfMemory;
use gtfs_rows::TripNo;
use gtfs_stop_times::{StopLists, small_number};
use std::alloc::Global;

// Numbers the groups of trips: how many of the trips that pass the place have lower ones.
//
// So lists of stops are compared a few times for each trip, and not for each two of its events.
pub(crate) fn numbered(
    alloc: Global,
    feed: &Feed,
    listed: Vec<ListedEvent>,
) -> Result<Vec<ListedEvent>, OutOfMemory>
    requires { All (λ x. x.trip < length feed.now.trips) listed.items }
    ensures same { IfOk result (λ found. (p : Parts) → map (stopping_of p) found.items
        ≡ map (stopping_of p) listed.items) }
    ensures numbers { IfOk result (λ found. AreNumbered feed.now found.items) }
    ensures services { IfOk result (λ found. (p : Parts) → AreServed p listed.items
        → AreServed p found.items) }
{
    let (trips, lists) = trips_of(alloc, feed, &listed)?;
    let trips = by_group(grouped_trips(alloc, feed, &trips, &lists)?);
    with_groups(alloc, feed, &trips, listed)
}

// The trips of these events, where the events of a trip stand together, and their stops.
fn trips_of(
    alloc: Global,
    feed: &Feed,
    listed: &[ListedEvent],
) -> Result<(Vec<TripNo>, StopLists), OutOfMemory>
    requires { All (λ x. x.trip < length feed.now.trips) listed.now }
    ensures known { IfOk result (λ both. All (λ t. t.0 < length feed.now.trips) both.0.items) }
    ensures all { IfOk result (λ both.
        All (λ x. 1 ≤ tally (λ t. x.trip == t.0) both.0.items) listed.now) }
    ensures stops { IfOk result (λ both.
        both.1 ≡ map (λ t. (trip_group feed.now t.0).1) both.0.items) }
{
    let mut trips = Vec::new(alloc);
    let mut lists = StopLists::with_room(alloc, 0, 0)?;
    for n in 0..listed.len() {
        if !goes_on(listed, n) {
            let trip = listed[n].trip();
            trips.push(trip)?;
            lists.push(feed.trip_rows(trip))?;
        }
    }
    Ok((trips, lists))
}

// The trips of these numbers, which have these stops, by their groups.
fn grouped_trips<'a>(
    alloc: Global,
    feed: &Feed,
    trips: &[TripNo],
    lists: &'a StopLists,
) -> Result<Vec<GroupedTrip<'a>>, OutOfMemory>
    requires known { All (λ t. t.0 < length feed.now.trips) trips.now }
    requires stops { lists.now ≡ map (λ t. (trip_group feed.now t.0).1) trips.now }
    ensures { IfOk result (λ grouped. map group_of grouped.items
        ≡ map (λ t. trip_group feed.now t.0) trips.now) }
{
    let mut grouped = Vec::with_capacity(alloc, trips.len())?;
    for n in 0..trips.len() {
        let start = trip_start(feed.trip_rows(trips[n]));
        grouped.push(GroupedTrip::of(feed, trips[n], start, lists.get(n))?)?;
    }
    Ok(grouped)
}

// Whether the event at this index is of the trip of the one before it.
fn goes_on(listed: &[ListedEvent], n: usize) -> bool
    requires { n < length listed.now }
    ensures before { result ≡ true → 0 < n }
    ensures trip { (d : ListedValue) → result ≡ true
        → (slice_index_or listed.now (n - 1) d).trip ≡ (slice_index_or listed.now n d).trip }
{
    n > 0 && listed[n - 1].trip().0 == listed[n].trip().0
}

// The events, each with the number of the group of its trip.
fn with_groups(
    alloc: Global,
    feed: &Feed,
    trips: &[GroupedTrip<'_>],
    mut listed: Vec<ListedEvent>,
) -> Result<Vec<ListedEvent>, OutOfMemory>
    requires in_order { IsSorted (λ x y. group_cmp (group_of x) (group_of y)) trips.now }
    requires known { All (λ x. x.trip < length feed.now.trips) listed.items }
    ensures same { IfOk result (λ found. (p : Parts) → map (stopping_of p) found.items
        ≡ map (stopping_of p) listed.items) }
    ensures numbers { IfOk result (λ found. All (λ x. x.group
        ≡ below trips.now (trip_group feed.now x.trip)) found.items) }
    ensures services { IfOk result (λ found. (p : Parts) → AreServed p listed.items
        → AreServed p found.items) }
{
    for n in 0..listed.len() {
        let group = group_at(alloc, feed, trips, &listed, n)?;
        listed[n].group = group;
    }
    Ok(listed)
}

// The number of the group of the event at this index, where the events before it have theirs.
fn group_at(
    alloc: Global,
    feed: &Feed,
    trips: &[GroupedTrip<'_>],
    listed: &[ListedEvent],
    n: usize,
) -> Result<u32, OutOfMemory>
    requires in_order { IsSorted (λ x y. group_cmp (group_of x) (group_of y)) trips.now }
    requires known { All (λ x. x.trip < length feed.now.trips) listed.now }
    requires within { n < length listed.now }
    requires before { (k : ℕ) (d : ListedValue) → k < n → (slice_index_or listed.now k d).group
        ≡ below trips.now (trip_group feed.now (slice_index_or listed.now k d).trip) }
    ensures { IfOk result (λ group. (d : ListedValue) → group
        ≡ below trips.now (trip_group feed.now (slice_index_or listed.now n d).trip)) }
{
    if goes_on(listed, n) {
        return Ok(listed[n - 1].group);
    }
    let trip = listed[n].trip();
    let mut lists = StopLists::with_room(alloc, 1, 0)?;
    lists.push(feed.trip_rows(trip))?;
    let trip = GroupedTrip::of(feed, trip, 0, lists.get(0))?;
    small_number(trips.partition_point(|other| group_order(other, &trip).is_lt()))
}
