ghost use Rattle.std.specs.Prelude.{◌≡◌, ◌<◌, ◌++◌, ◌∷◌, [], true, IfOk, OnOk, length, map, filter, option_map};
ghost use Rattle.std.specs.List.{flat_map};
ghost use Rattle.std.specs.List.Sorted.{IsPermutation, IsSorted};
ghost use Rattle.gtfs_rows.specs.RowChoices.{direction_code};
ghost use Rattle.gtfs_runs.specs.Patterns.{ArePatterns, AreGroups, entries_of, entries_under, entry_of, entry_cmp, is_of_route, entry_value, heading_of, is_same_heading, has_a_trip};

use gtfs_feed::Feed;
use gtfs_field::{List, OutOfMemory};
use gtfs_rows::{Direction, RouteNo, StopNo, StopRow, TripNo};
use std::alloc::Global;

/// The trips of a route that go in one direction along one list of stops.
#[derive(Debug, Drop)]
pub struct Pattern {
    /// `direction_id` of the trips, 0 or 1, where they have one.
    pub direction: Option<u8>,
    /// The stops of the trips' rows, by sequence.
    pub stops: List<StopNo>,
    /// The trips, ascending; at least one.
    pub trips: List<TripNo>,
}

impl Pattern {
    // Whether the trip goes in the pattern's direction and along its stops.
    fn leads(&self, trip: &Headed) -> bool
        ensures { result ≡ is_same_heading (heading_of self.now) (entry_value trip.now).heading }
    {
        self.direction == trip.direction && self.stops.as_slice() == trip.stops.as_slice()
    }
}

// A trip under its heading. The order of the fields is that of patterns.
#[derive(Drop, PartialEq, Eq, PartialOrd, Ord)]
pub(crate) struct Headed {
    direction: Option<u8>,
    stops: Vec<StopNo>,
    trip: TripNo,
}

/// The patterns of a route:
/// one for each direction and list of stops of its trips that have a stop time.
///
/// They stand by direction, no direction before 0 and 0 before 1, and then by their stops: lists
/// compare like words, by the ids of the stops, so a list that begins another stands before it.
///
/// # Errors
/// [`OutOfMemory`] where memory ran out.
pub fn patterns(alloc: Global, feed: &Feed, route: RouteNo) -> Result<Vec<Pattern>, OutOfMemory>
    ensures { IfOk result (λ found. ArePatterns feed.now route.0 found.items) }
{
    let trips = sorted(headed_trips(alloc, feed, route)?);
    let found = grouped(alloc, trips)?;
    Ok(found)
}

// The trips of a route that have a stop time, by their numbers.
fn headed_trips(alloc: Global, feed: &Feed, route: RouteNo) -> Result<Vec<Headed>, OutOfMemory>
    ensures { IfOk result (λ trips. map entry_value trips.items ≡ entries_of feed.now route.0) }
{
    let mut trips = Vec::new(alloc);
    for number in 0..feed.trip_count() {
        push_trip(alloc, feed, route, TripNo(number), &mut trips)?;
    }
    Ok(trips)
}

// Adds a trip if it is one of the route and has a stop time.
fn push_trip(
    alloc: Global,
    feed: &Feed,
    route: RouteNo,
    trip: TripNo,
    trips: &mut Vec<Headed>,
) -> Result<(), OutOfMemory>
    requires { trip.0 < length feed.now.trips }
    ensures { OnOk result (map entry_value trips.new.items ≡ map entry_value trips.old.items
        ++ map (entry_of feed.now) (filter (is_of_route feed.now route.0) (trip.0 ∷ []))) }
{
    let row = feed.trip_by_number(trip);
    let stop_times = feed.trip_rows(trip);
    if row.route_id == route && !stop_times.is_empty() {
        trips.push(Headed {
            direction: direction_number(row.direction_id),
            stops: stops_of(alloc, stop_times)?,
            trip,
        })?;
    }
    Ok(())
}

// `direction_id` as a number.
fn direction_number(direction: Option<Direction>) -> Option<u8>
    ensures { result ≡ option_map direction_code direction }
{
    match direction {
        Some(Direction::One) => Some(0),
        Some(Direction::Opposite) => Some(1),
        None => None,
    }
}

// The stops of stop times.
fn stops_of(alloc: Global, stop_times: &[StopRow]) -> Result<Vec<StopNo>, OutOfMemory>
    ensures { IfOk result (λ stops. stops.items ≡ map (λ row. row.stop_id) stop_times.now) }
{
    let mut stops = Vec::with_capacity(alloc, stop_times.len())?;
    for row in stop_times {
        stops.push(row.stop_id)?;
    }
    Ok(stops)
}

// The trips by direction, stops and number.
fn sorted(mut trips: Vec<Headed>) -> Vec<Headed>
    ensures same { IsPermutation (map entry_value trips.items) (map entry_value result.items) }
    ensures in_order { IsSorted entry_cmp (map entry_value result.items) }
{
    trips.sort_unstable();
    trips
}

// A pattern for neighbours that share a heading.
fn grouped(alloc: Global, trips: Vec<Headed>) -> Result<Vec<Pattern>, OutOfMemory>
    ensures told { IfOk result (λ found.
        flat_map entries_under found.items ≡ map entry_value trips.items) }
    ensures groups { IfOk result (λ found. AreGroups found.items) }
{
    let mut found = Vec::new(alloc);
    for trip in trips {
        add(alloc, &mut found, trip)?;
    }
    Ok(found)
}

// Adds a trip to the last pattern if it shares its heading, or else to a new one.
fn add(alloc: Global, found: &mut Vec<Pattern>, trip: Headed) -> Result<(), OutOfMemory>
    ensures told { OnOk result (flat_map entries_under found.new.items
        ≡ flat_map entries_under found.old.items ++ entry_value trip ∷ []) }
    ensures groups { OnOk result (AreGroups found.old.items → AreGroups found.new.items) }
{
    let Some(last) = found.pop() else {
        found.push(first_of(alloc, trip)?)?;
        return Ok(());
    };
    if last.leads(&trip) {
        found.push(with_trip(last, trip.trip)?)?;
    } else {
        found.push(last)?;
        found.push(first_of(alloc, trip)?)?;
    }
    Ok(())
}

// The pattern with one trip more.
fn with_trip(pattern: Pattern, trip: TripNo) -> Result<Pattern, OutOfMemory>
    ensures heading { IfOk result (λ x. heading_of x ≡ heading_of pattern) }
    ensures trips { IfOk result (λ x. x.trips ≡ pattern.trips ++ trip ∷ []) }
{
    let Pattern {
        direction,
        stops,
        trips,
    } = pattern;
    let mut trips = trips.into_vec();
    trips.push(trip)?;
    Ok(Pattern {
        direction,
        stops,
        trips: List::new(trips),
    })
}

// The pattern of one trip.
fn first_of(alloc: Global, trip: Headed) -> Result<Pattern, OutOfMemory>
    ensures told { IfOk result (λ x. entries_under x ≡ entry_value trip ∷ []) }
    ensures heading { IfOk result (λ x. heading_of x ≡ (entry_value trip).heading) }
    ensures filled { IfOk result (λ x. has_a_trip x ≡ true) }
{
    let mut trips = Vec::new(alloc);
    trips.push(trip.trip)?;
    Ok(Pattern {
        direction: trip.direction,
        stops: List::new(trip.stops),
        trips: List::new(trips),
    })
}
