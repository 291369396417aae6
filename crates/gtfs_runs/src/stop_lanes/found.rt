ghost use Rattle.std.specs.Prelude.{◌≡◌, ◌≤◌, ◌<◌, ◌+◌, ◌==◌, ◌∷◌, ℕ, All, IfOk, List, OnOk, Some, [], cond, length, map, not, slice_get, slice_index_or};
ghost use Rattle.gtfs_rows.specs.Content.{Content};
ghost use Rattle.gtfs_rows.specs.Rows.{Trip};
ghost use Rattle.gtfs_rows.specs.Trips.{frequencies_by_trip, stop_rows_by_trip};
ghost use Rattle.gtfs_rows.specs.declared.frequency.Frequency.{Frequency as FrequencyValue};
ghost use Rattle.gtfs_rows.specs.RowsInMemory.{content_of_parts, frequency_of, stop_ids, text_of_number};
ghost use Rattle.gtfs_runs.specs.LaneKinds.{IsPeriodLane};
ghost use Rattle.gtfs_rows.specs.Places.{members};
ghost use Rattle.gtfs_rows.specs.declared.parts.Parts.{Parts};
ghost use Rattle.gtfs_runs.specs.StopLanes.{period_value};
ghost use Rattle.gtfs_runs.specs.declared.event.Event.{Event as EventValue};
ghost use Rattle.gtfs_runs.specs.steps.Courses.{AreServed, stopping_of};
ghost use Rattle.gtfs_runs.specs.steps.FoundEvents.{AreFound, HasRuns, times_passed, times_passed_in, times_told};
ghost use Rattle.gtfs_runs.specs.steps.TripGroups.{trip_group};
ghost use Rattle.gtfs_runs.specs.steps.Passings.{first_left};
ghost use Rattle.gtfs_runs.specs.steps.FoundAtRow.{AreAdded, IsInside};
ghost use Rattle.gtfs_times.specs.TimedRows.{timed_parts};

use crate::departure_row::DepartureRow;
use crate::place::Place;
use crate::step_lane::StepLane;
use crate::stop_index::IndexedTrip;
use crate::stop_lanes::listed::ListedEvent;
use crate::stop_lanes::passing::Passing;
use crate::stop_lanes::place_rows::place_rows;
use gtfs_feed::Feed;
use gtfs_field::OutOfMemory;
use gtfs_rows::{Frequency, ServiceNo, TripNo};
use gtfs_times::Times;
use std::alloc::Global;

// What leaves the place of a stop.
#[derive(Drop)]
pub(crate) struct FoundEvents {
    // The events of trips without frequencies.
    pub(crate) listed: Vec<ListedEvent>,
    // A lane for each row of frequencies.txt and each stop time of its trip there.
    pub(crate) periods: Vec<StepLane>,
}

impl FoundEvents {
    // What leaves the place, of all trips.
    pub(crate) fn at_place(
        alloc: Global,
        feed: &Feed,
        place: &Place,
        times: Times,
    ) -> Result<FoundEvents, OutOfMemory>
        requires { length place.now ≡ length feed.now.stops }
        ensures found { IfOk result (λ found. (s : ℕ)
            → place.now ≡ members (content_of_parts feed.now) (text_of_number (stop_ids feed.now) s)
            → AreFound (timed_parts times feed.now) s (length feed.now.trips)
            (map (stopping_of feed.now) found.listed.items) (map period_value found.periods.items)) }
        ensures services { IfOk result (λ found. AreServed feed.now found.listed.items) }
    {
        feed.soundness();
        let rows = place_rows(alloc, feed, place, times)?;
        let mut found = FoundEvents {
            listed: Vec::with_capacity(alloc, rows.len())?,
            periods: Vec::new(alloc),
        };
        add_rows(feed, &rows, &mut found)?;
        Ok(found)
    }
}

// Adds what leaves at these departure rows.
fn add_rows(feed: &Feed, rows: &[DepartureRow], found: &mut FoundEvents) -> Result<(), OutOfMemory>
    requires { All (IsInside feed.now) rows.now }
    ensures { OnOk result (AreAdded feed.now rows.now
        found.old.listed.items found.new.listed.items
        (map period_value found.old.periods.items) (map period_value found.new.periods.items)) }
{
    for row in rows {
        add_row(feed, IndexedTrip::of(feed, row.trip())?, row, found)?;
    }
    Ok(())
}

// Adds what leaves at a departure row of this trip: one event, or a lane for each row of
// `frequencies.txt`.
pub(crate) fn add_row(
    feed: &Feed,
    indexed: IndexedTrip,
    row: &DepartureRow,
    found: &mut FoundEvents,
) -> Result<(), OutOfMemory>
    requires row { IsInside feed.now row.now }
    requires service { indexed.service ≡ (trip_group feed.now row.now.trip).0 }
    requires start { indexed.start
        ≡ first_left (slice_index_or (stop_rows_by_trip feed.now) row.now.trip []) }
    requires marked { (fs : List FrequencyValue)
        → slice_get (frequencies_by_trip feed.now) row.now.trip ≡ Some fs
        → indexed.has_frequencies ≡ not (length fs == 0) }
    ensures added { OnOk result (AreAdded feed.now (row.now ∷ [])
        found.old.listed.items found.new.listed.items
        (map period_value found.old.periods.items) (map period_value found.new.periods.items)) }
    ensures groups { OnOk result ((groups : ℕ → ℕ) → groups row.now.trip ≡ indexed.group
        → All (λ x. groups x.trip ≡ x.group) found.old.listed.items
        → All (λ x. groups x.trip ≡ x.group) found.new.listed.items) }
{
    feed.soundness();
    let trip = row.trip();
    let passing = Passing::of(row, indexed.start);
    if !indexed.has_frequencies {
        found
            .listed
            .push(ListedEvent::of(trip, row.rank(), indexed, &passing)?)?;
        return Ok(());
    }
    let service = ServiceNo(indexed.service as usize);
    let frequencies = feed.trip_frequencies(trip);
    add_periods(service, trip, frequencies, &passing, &mut found.periods)?;
    Ok(())
}

// Adds the lanes of the frequencies of a trip at one of its stop times.
fn add_periods(
    service: ServiceNo,
    trip: TripNo,
    frequencies: &[Frequency],
    passing: &Passing,
    periods: &mut Vec<StepLane>,
) -> Result<(), OutOfMemory>
    requires runs { All HasRuns frequencies.now }
    requires after { passing.now.after ≤ 3_599_999 }
    ensures told { OnOk result ((k : ℕ) (e : EventValue)
        → times_told k e (map period_value periods.new.items)
        ≡ times_told k e (map period_value periods.old.items)
        + cond (service.0 == k) (times_passed_in trip.0 e (passing.now ∷ []) frequencies.now) 0) }
    ensures counted { OnOk result (length periods.new.items
        ≡ length periods.old.items + length frequencies.now) }
    ensures within { OnOk result ((n : ℕ) → service.0 < n
        → All (λ lane. lane.service < n) (map period_value periods.old.items)
        → All (λ lane. lane.service < n) (map period_value periods.new.items)) }
    ensures kind { OnOk result ((c : Content) (t : Trip) → slice_get c.trips trip.0 ≡ Some t
        → t.frequencies ≡ map frequency_of frequencies.now
        → All (IsPeriodLane c) (map period_value periods.old.items)
        → All (IsPeriodLane c) (map period_value periods.new.items)) }
{
    for frequency in frequencies {
        add_period(service, trip, frequency, passing, periods)?;
    }
    Ok(())
}

// Adds the lane of one row of frequencies.txt.
fn add_period(
    service: ServiceNo,
    trip: TripNo,
    frequency: &Frequency,
    passing: &Passing,
    periods: &mut Vec<StepLane>,
) -> Result<(), OutOfMemory>
    requires runs { HasRuns frequency.now }
    requires after { passing.now.after ≤ 3_599_999 }
    ensures told { OnOk result ((k : ℕ) (e : EventValue)
        → times_told k e (map period_value periods.new.items)
        ≡ times_told k e (map period_value periods.old.items)
        + cond (service.0 == k) (times_passed trip.0 e (passing.now ∷ []) frequency.now) 0) }
    ensures counted { OnOk result (length periods.new.items ≡ length periods.old.items + 1) }
    ensures within { OnOk result ((n : ℕ) → service.0 < n
        → All (λ lane. lane.service < n) (map period_value periods.old.items)
        → All (λ lane. lane.service < n) (map period_value periods.new.items)) }
    ensures kind { OnOk result ((c : Content) (t : Trip) (index : ℕ)
        → slice_get c.trips trip.0 ≡ Some t
        → slice_get t.frequencies index ≡ Some (frequency_of frequency.now)
        → All (IsPeriodLane c) (map period_value periods.old.items)
        → All (IsPeriodLane c) (map period_value periods.new.items)) }
{
    let first = passing.event(trip, frequency.start_time.seconds());
    periods.push(StepLane::of_period(service, first, frequency))?;
    Ok(())
}
