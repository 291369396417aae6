ghost use Rattle.std.specs.Prelude.{◌≡◌, ◌≤◌, ◌<◌, All, IfOk, length, map, slice_index_or};
ghost use Rattle.std.specs.List.Sorted.{IsPermutation, IsSorted};
ghost use Rattle.gtfs_rows.specs.declared.parts.Parts.{Parts};
ghost use Rattle.gtfs_runs.specs.declared.stop_lanes.listed.ListedEvent.{ListedEvent as ListedValue};
ghost use Rattle.gtfs_runs.specs.steps.Courses.{event_of, is_same_course, stopping_cmp, stopping_of};
ghost use Rattle.gtfs_runs.specs.steps.CourseNumbers.{AreNumbered, IsNumbered, is_alike};
ghost use Rattle.gtfs_runs.specs.steps.Passings.{passing_event};

use crate::event::Event;
use crate::stop_index::IndexedTrip;
use crate::stop_lanes::passing::Passing;
use gtfs_field::OutOfMemory;
use gtfs_rows::{ServiceNo, TripNo};
use gtfs_stop_times::small_number;
use std::alloc::Global;

// An event of a trip without frequencies.
//
// Its lane is that of its course: the group of the trip and the position of the stop time.
// The order of the fields is that of lanes, and in a lane that of events, since the trip
// decides between those at one second. The service and the rank come last, where they decide
// nothing: the events of a trip have one.
#[derive(Clone, Copy, PartialEq, Eq, PartialOrd, Ord)]
pub(crate) struct ListedEvent {
    // The number of the group, by which groups are compared; 0 until it is known.
    pub(crate) group: u32,
    row: u32,
    at: u32,
    trip: u32,
    run: u32,
    seq: u32,
    // The service of the trip, so that a lane need not load the row of a trip for it.
    service: u32,
    // The rank of the trip, which says where the event stands but for a few.
    rank: u32,
}

impl ListedEvent {
    // That of a trip of a rank at one of its stop times.
    pub(crate) fn of(
        trip: TripNo,
        rank: u32,
        indexed: IndexedTrip,
        passing: &Passing,
    ) -> Result<ListedEvent, OutOfMemory>
        requires after { passing.now.after ≤ 3_599_999 }
        requires start { indexed.start ≤ 7_199_999 }
        ensures event { IfOk result (λ x. event_of x
            ≡ passing_event trip.0 indexed.start passing.now) }
        ensures group { IfOk result (λ x. x.group ≡ indexed.group) }
        ensures service { IfOk result (λ x. x.service ≡ indexed.service) }
    {
        Ok(ListedEvent {
            group: indexed.group,
            row: small_number(passing.row)?,
            at: indexed.start + passing.after,
            trip: small_number(trip.0)?,
            run: indexed.start,
            seq: passing.seq,
            service: indexed.service,
            rank,
        })
    }

    // The trip.
    pub(crate) fn trip(&self) -> TripNo
        ensures { result.0 ≡ self.now.trip }
    {
        TripNo(self.trip as usize)
    }

    // The service of the trip.
    pub(crate) fn service(&self) -> ServiceNo
        ensures { result.0 ≡ self.now.service }
    {
        ServiceNo(self.service as usize)
    }

    // The event.
    pub(crate) fn event(&self) -> Event
        ensures { result ≡ event_of self.now }
    {
        Event {
            at: self.at,
            trip: self.trip(),
            run: self.run,
            seq: self.seq,
            row: self.row as usize,
        }
    }
}

// Where an event stands among others, and the rank of its trip.
#[derive(Clone, Copy)]
struct Ranked {
    rank: u32,
    at: u32,
}

// The events by course and in each course in their order.
pub(crate) fn sorted(
    alloc: Global,
    listed: Vec<ListedEvent>,
) -> Result<Vec<ListedEvent>, OutOfMemory>
    ensures same { IfOk result (λ found. IsPermutation listed.items found.items) }
    ensures in_order { IfOk result (λ found. (p : Parts) → AreNumbered p listed.items
        → IsSorted stopping_cmp (map (stopping_of p) found.items)) }
{
    let mut sorted = by_rank(alloc, listed)?;
    // Mostly they stand in order by now, which one look at each tells.
    sorted.sort_unstable();
    Ok(sorted)
}

// The events by the ranks of their trips. An index has those of one stop in that order.
fn by_rank(alloc: Global, listed: Vec<ListedEvent>) -> Result<Vec<ListedEvent>, OutOfMemory>
    ensures { IfOk result (λ found. IsPermutation listed.items found.items) }
{
    if listed.is_sorted_by_key(|event| event.rank) {
        return Ok(listed);
    }
    let places = places_by_rank(alloc, &listed)?;
    at_places(alloc, &listed, &places)
}

// The places of these events, by the ranks of their trips: a place and a rank take eight bytes, and
// are sorted in a fraction of the time that events take.
fn places_by_rank(alloc: Global, listed: &[ListedEvent]) -> Result<Vec<Ranked>, OutOfMemory>
    ensures within { IfOk result (λ places. All (λ x. x.at < length listed.now) places.items) }
    ensures same { IfOk result (λ places. (d : ListedValue)
        → IsPermutation listed.now (map (λ x. slice_index_or listed.now x.at d) places.items)) }
{
    let mut places = Vec::with_capacity(alloc, listed.len())?;
    for at in 0..listed.len() {
        let rank = listed[at].rank;
        let at = small_number(at)?;
        places.push(Ranked { rank, at })?;
    }
    places.sort_unstable_by_key(|place| place.rank);
    Ok(places)
}

// The events at these places.
fn at_places(
    alloc: Global,
    listed: &[ListedEvent],
    places: &[Ranked],
) -> Result<Vec<ListedEvent>, OutOfMemory>
    requires { All (λ x. x.at < length listed.now) places.now }
    ensures { IfOk result (λ found. (d : ListedValue)
        → found.items ≡ map (λ x. slice_index_or listed.now x.at d) places.now) }
{
    let mut found = Vec::with_capacity(alloc, places.len())?;
    for place in places {
        found.push(listed[place.at as usize])?;
    }
    Ok(found)
}

// Whether two events have one course.
pub(crate) fn is_one_course(a: &ListedEvent, b: &ListedEvent) -> bool
    ensures numbers { result ≡ is_alike a.now b.now }
    ensures courses { (p : Parts) → IsNumbered p a.now b.now
        → result ≡ is_same_course (stopping_of p a.now).course (stopping_of p b.now).course }
{
    a.group == b.group && a.row == b.row
}
