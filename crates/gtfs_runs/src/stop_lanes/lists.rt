ghost use Rattle.std.specs.Prelude.{◌≡◌, ◌≤◌, ◌<◌, ◌+◌, ◌++◌, ℕ, All, IfOk, drop, false, length, map, slice_index_or, true};
ghost use Rattle.gtfs_rows.specs.TransferOrder.{Ascends};
ghost use Rattle.gtfs_rows.specs.RowsInMemory.{content_of_parts};
ghost use Rattle.gtfs_rows.specs.declared.parts.Parts.{Parts};
ghost use Rattle.gtfs_runs.specs.LaneKinds.{IsListLane};
ghost use Rattle.gtfs_runs.specs.StopLanes.{events_of_service, list_value};
ghost use Rattle.gtfs_runs.specs.declared.stop_lanes.listed.ListedEvent.{ListedEvent as ListedValue};
ghost use Rattle.gtfs_runs.specs.steps.CourseNumbers.{AreNumbered, is_alike, listed_cmp};
ghost use Rattle.gtfs_runs.specs.steps.Courses.{AreServed, IsListed, event_of, how_many, is_same_course, stopping_events, stopping_of};

use crate::event::Event;
use crate::event_range::EventRange;
use crate::list_lane::ListLane;
use crate::stop_lanes::listed::{ListedEvent, is_one_course};
use gtfs_field::OutOfMemory;
use std::alloc::Global;

// A lane for each course of these events, which are sorted.
pub(crate) fn lists(alloc: Global, listed: &[ListedEvent]) -> Result<Vec<ListLane>, OutOfMemory>
    requires { Ascends listed_cmp listed.now }
    ensures told { IfOk result (λ lists. (p : Parts) (k : ℕ) → AreNumbered p listed.now
        → AreServed p listed.now → events_of_service k (map list_value lists.items)
        ≡ stopping_events k (map (stopping_of p) listed.now)) }
    ensures counted { IfOk result (λ lists. (p : Parts) → AreNumbered p listed.now
        → length lists.items
        ≡ how_many is_same_course (map (λ x. x.course) (map (stopping_of p) listed.now))) }
    ensures within { IfOk result (λ lists. (n : ℕ) → All (λ x. x.service < n) listed.now
        → All (λ lane. lane.service < n) (map list_value lists.items)) }
    ensures alike { IfOk result (λ lists. (p q : Parts) → AreNumbered p listed.now
        → All (λ x. IsListed q (stopping_of p x)) listed.now
        → All (IsListLane (content_of_parts q)) (map list_value lists.items)) }
{
    let events = events_of(alloc, listed)?;
    let all = EventRange::new(alloc, events)?;
    // Room for a lane of each event, so that none is moved. What is left of it is not touched.
    let mut lists = Vec::with_capacity(alloc, listed.len())?;
    let mut at = 0;
    while at < listed.len() {
        at += add_list(&listed[at..], &all, at, &mut lists)?;
    }
    Ok(lists)
}

// Adds the lane of the first course of these events, which are sorted, and stand among all from an
// index on. Answers how many they are.
fn add_list(
    listed: &[ListedEvent],
    all: &EventRange,
    at: usize,
    lists: &mut Vec<ListLane>,
) -> Result<usize, OutOfMemory>
    requires some { 0 < length listed.now }
    requires events { drop at all.now ≡ map event_of listed.now }
    requires sorted { Ascends listed_cmp listed.now }
    ensures some { IfOk result (λ n. 0 < n) }
    ensures upto { IfOk result (λ n. n ≤ length listed.now) }
    ensures told { IfOk result (λ n. (p : Parts) (k : ℕ) → AreNumbered p listed.now
        → AreServed p listed.now → events_of_service k (map list_value lists.new.items)
        ++ stopping_events k (map (stopping_of p) (drop n listed.now))
        ≡ events_of_service k (map list_value lists.old.items)
        ++ stopping_events k (map (stopping_of p) listed.now)) }
    ensures counted { IfOk result (λ n. (p : Parts) → AreNumbered p listed.now
        → length lists.new.items + how_many is_same_course
        (map (λ x. x.course) (map (stopping_of p) (drop n listed.now)))
        ≡ length lists.old.items + how_many is_same_course
        (map (λ x. x.course) (map (stopping_of p) listed.now))) }
    ensures within { IfOk result (λ n. (m : ℕ) → All (λ x. x.service < m) listed.now
        → All (λ lane. lane.service < m) (map list_value lists.old.items)
        → All (λ lane. lane.service < m) (map list_value lists.new.items)) }
    ensures alike { IfOk result (λ n. (p q : Parts) → AreNumbered p listed.now
        → All (λ x. IsListed q (stopping_of p x)) listed.now
        → All (IsListLane (content_of_parts q)) (map list_value lists.old.items)
        → All (IsListLane (content_of_parts q)) (map list_value lists.new.items)) }
{
    let len = course_len(listed);
    let events = all.part(at, len)?;
    lists.push(ListLane::new(listed[0].service(), events))?;
    Ok(len)
}

// How many events at the beginning have the course of the first.
fn course_len(listed: &[ListedEvent]) -> usize
    requires { 0 < length listed.now }
    ensures some { 0 < result }
    ensures within { result ≤ length listed.now }
    ensures alike { (k : ℕ) (d : ListedValue) → k < result
        → is_alike (slice_index_or listed.now 0 d) (slice_index_or listed.now k d) ≡ true }
    ensures same { (p : Parts) (k : ℕ) (d : ListedValue) → AreNumbered p listed.now → k < result
        → (stopping_of p (slice_index_or listed.now k d)).course
        ≡ (stopping_of p (slice_index_or listed.now 0 d)).course }
    ensures ends { (p : Parts) (d : ListedValue) → AreNumbered p listed.now
        → result < length listed.now
        → is_same_course (stopping_of p (slice_index_or listed.now 0 d)).course
        (stopping_of p (slice_index_or listed.now result d)).course ≡ false }
{
    let mut len = 1;
    while len < listed.len() && is_one_course(&listed[0], &listed[len]) {
        len += 1;
    }
    len
}

// The events of a list, in its order.
fn events_of(alloc: Global, listed: &[ListedEvent]) -> Result<Vec<Event>, OutOfMemory>
    ensures { IfOk result (λ events. events.items ≡ map event_of listed.now) }
{
    let mut events = Vec::with_capacity(alloc, listed.len())?;
    for stopping in listed {
        events.push(stopping.event())?;
    }
    Ok(events)
}
