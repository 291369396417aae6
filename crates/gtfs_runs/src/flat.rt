ghost use Rattle.std.specs.Prelude.{◌≡◌, ◌≤◌, ◌<◌, ◌+◌, ◌++◌, ◌&&◌, ◌==◌, ℕ, List, All, IfOk, OnOk, Some, cond, length, map, slice_get, slice_index_or, unwrap_or};
ghost use Rattle.gtfs_rows.specs.Trips.{ArePeriods, stop_rows_by_trip};
ghost use Rattle.gtfs_stop_times.specs.RowTimes.{left_at};
ghost use Rattle.gtfs_rows.specs.RowsInMemory.{content_of_parts, frequency_of, stop_ids, stop_row_of, text_of_number, trip_of};
ghost use Rattle.gtfs_rows.specs.declared.frequency.Frequency.{Frequency as FrequencyRow};
ghost use Rattle.gtfs_rows.specs.declared.parts.Parts.{Parts};
ghost use Rattle.gtfs_stop_times.specs.declared.stop_row.StopRow.{StopRow as StopTime};
ghost use Rattle.gtfs_rows.specs.declared.trip.Trip.{Trip};
ghost use Rattle.gtfs_runs.specs.Tallies.{tally};
ghost use Rattle.gtfs_runs.specs.FlatEvents.{AreEvents, is_event_of, is_served, served_at};
ghost use Rattle.gtfs_rows.specs.Places.{members};
ghost use Rattle.gtfs_rows.specs.Runs.{is_run, passes_at, starts_run};
ghost use Rattle.gtfs_runs.specs.declared.event.Event.{Event as EventValue};
ghost use Rattle.gtfs_runs.specs.steps.Passings.{AreTripTimes};
ghost use Rattle.gtfs_times.specs.TimedRows.{timed_parts};
ghost use Rattle.gtfs_times.specs.declared.times.Times.{Times as TimesValue};

use crate::departure_row::{leaves_place, left};
use crate::event::Event;
use crate::place::Place;
use gtfs_feed::Feed;
use gtfs_field::OutOfMemory;
use gtfs_rows::{Frequency, ServiceNo, StopNo, StopRow, TripNo};
use gtfs_times::{Times, filled, is_to_fill};
use std::alloc::Global;

/// All events at the place of a stop, each once:
/// by the service of their trips, and those of a service in their order.
///
/// This is the plain counterpart of lanes, for tests that compare with them, under the same
/// [`Times`]. It unfolds every run, so one row of `frequencies.txt` can make millions of events.
/// The stop's number is below [`Feed::stop_count`].
///
/// GTFS Schedule Reference, `stop_times.txt`, `frequencies.txt`,
/// and `parent_station` of `stops.txt`.
///
/// # Errors
/// [`OutOfMemory`] where memory ran out.
pub fn flat_events(
    alloc: Global,
    feed: &Feed,
    stop: StopNo,
    times: Times,
) -> Result<Vec<(ServiceNo, Event)>, OutOfMemory>
    requires { stop.0 < length feed.now.stops }
    ensures { IfOk result (λ events. AreEvents times feed.now stop.0 events.items) }
{
    feed.soundness();
    let mut events = gathered(alloc, feed, stop, times)?;
    events.sort_unstable();
    Ok(events)
}

// The events, trip after trip.
fn gathered(
    alloc: Global,
    feed: &Feed,
    stop: StopNo,
    times: Times,
) -> Result<Vec<(ServiceNo, Event)>, OutOfMemory>
    requires { stop.0 < length feed.now.stops }
    ensures { IfOk result (λ events. (service : ℕ) (e : EventValue)
        → tally (is_served service e) events.items
        ≡ cond (is_event_of (timed_parts times feed.now) stop.0 service e) 1 0) }
{
    let place = Place::of_stop(alloc, feed, stop)?;
    let mut events = Vec::new(alloc);
    for number in 0..feed.trip_count() {
        push_trip(alloc, feed, &place, TripNo(number), times, &mut events)?;
    }
    Ok(events)
}

// Adds the events of a trip.
fn push_trip(
    alloc: Global,
    feed: &Feed,
    place: &Place,
    trip: TripNo,
    times: Times,
    events: &mut Vec<(ServiceNo, Event)>,
) -> Result<(), OutOfMemory>
    requires trip { trip.0 < length feed.now.trips }
    requires place { length place.now ≡ length feed.now.stops }
    ensures { OnOk result ((s service : ℕ) (e : EventValue)
        → place.now ≡ members (content_of_parts feed.now) (text_of_number (stop_ids feed.now) s)
        → tally (is_served service e) events.new.items
        ≡ tally (is_served service e) events.old.items
        + cond ((e.trip.0 == trip.0) && is_event_of (timed_parts times feed.now) s service e) 1 0) }
{
    feed.soundness();
    let rows = feed.trip_rows(trip);
    if is_to_fill(rows, times) {
        return push_rows(alloc, feed, place, trip, &filled(alloc, rows)?, events);
    }
    push_rows(alloc, feed, place, trip, rows, events)
}

// Adds the events of a trip at these stop times,
// which are the trip's or these with their times filled.
fn push_rows(
    alloc: Global,
    feed: &Feed,
    place: &Place,
    trip: TripNo,
    rows: &[StopRow],
    events: &mut Vec<(ServiceNo, Event)>,
) -> Result<(), OutOfMemory>
    requires trip { trip.0 < length feed.now.trips }
    requires times { AreTripTimes (length place.now) rows.now }
    ensures { OnOk result ((times : TimesValue) (s service : ℕ) (e : EventValue)
        → place.now ≡ members (content_of_parts feed.now) (text_of_number (stop_ids feed.now) s)
        → slice_get (stop_rows_by_trip (timed_parts times feed.now)) trip.0 ≡ Some rows.now
        → tally (is_served service e) events.new.items
        ≡ tally (is_served service e) events.old.items
        + cond ((e.trip.0 == trip.0) && is_event_of (timed_parts times feed.now) s service e) 1 0) }
{
    feed.soundness();
    for position in 0..rows.len() {
        push_row(alloc, feed, place, trip, rows, position, events)?;
    }
    Ok(())
}

// Adds the events of a trip at the stop time of this position, if riders can leave the place there.
fn push_row(
    alloc: Global,
    feed: &Feed,
    place: &Place,
    trip: TripNo,
    rows: &[StopRow],
    position: usize,
    events: &mut Vec<(ServiceNo, Event)>,
) -> Result<(), OutOfMemory>
    requires trip { trip.0 < length feed.now.trips }
    requires times { AreTripTimes (length place.now) rows.now }
    requires within { position < length rows.now }
    ensures { OnOk result ((times : TimesValue) (s service : ℕ) (e : EventValue)
        → place.now ≡ members (content_of_parts feed.now) (text_of_number (stop_ids feed.now) s)
        → slice_get (stop_rows_by_trip (timed_parts times feed.now)) trip.0 ≡ Some rows.now
        → tally (is_served service e) events.new.items
        ≡ tally (is_served service e) events.old.items
        + cond ((e.trip.0 == trip.0) && (e.row == position)
        && is_event_of (timed_parts times feed.now) s service e) 1 0) }
{
    feed.soundness();
    let row = feed.trip_by_number(trip);
    let periods = feed.trip_frequencies(trip);
    if !leaves_place(place, rows, position) {
        return Ok(());
    }
    let runs = starts(alloc, rows, periods)?;
    push_runs(
        row.service_id,
        trip,
        rows,
        position,
        runs.as_slice(),
        events,
    )?;
    Ok(())
}

// Adds an event for each run at the stop time of this position.
fn push_runs(
    service: ServiceNo,
    trip: TripNo,
    rows: &[StopRow],
    position: usize,
    runs: &[u32],
    events: &mut Vec<(ServiceNo, Event)>,
) -> Result<(), OutOfMemory>
    requires within { position < length rows.now }
    requires early { All (λ r. r < 7_200_000) runs.now }
    requires ascend { (d : StopTime) → unwrap_or (left_at (slice_index_or rows.now 0 d)) 0
        ≤ unwrap_or (left_at (slice_index_or rows.now position d)) 0 }
    ensures { OnOk result ((p : Parts) (t : Trip) (fs : List FrequencyRow) (d : StopTime)
        → t.service_id ≡ service → events.new.items ≡ events.old.items
        ++ map (served_at p t rows.now fs trip.0 position
        (slice_index_or rows.now position d)) runs.now) }
{
    for run in runs {
        events.push((service, event_at(trip, rows, position, *run)))?;
    }
    Ok(())
}

// The event of a run at the stop time of this position.
fn event_at(trip: TripNo, rows: &[StopRow], position: usize, run: u32) -> Event
    requires within { position < length rows.now }
    requires early { run < 7_200_000 }
    requires ascend { (d : StopTime) → unwrap_or (left_at (slice_index_or rows.now 0 d)) 0
        ≤ unwrap_or (left_at (slice_index_or rows.now position d)) 0 }
    ensures at { (p : Parts) (t : Trip) (fs : List FrequencyRow) (d : StopTime) → result.at
        ≡ passes_at (trip_of p t rows.now fs) run
        (stop_row_of p (slice_index_or rows.now position d)) }
    ensures trip { result.trip ≡ trip }
    ensures run { result.run ≡ run }
    ensures seq { (d : StopTime) → result.seq ≡ (slice_index_or rows.now position d).stop_sequence }
    ensures row { result.row ≡ position }
{
    let row = &rows[position];
    Event {
        at: run + left(row) - left(&rows[0]),
        trip,
        run,
        seq: row.stop_sequence,
        row: position,
    }
}

// The seconds at which the runs of a trip start, of its stop times, of which there is one,
// and its frequencies.
fn starts(alloc: Global, rows: &[StopRow], periods: &[Frequency]) -> Result<Vec<u32>, OutOfMemory>
    requires filled { 0 < length rows.now }
    requires moves { All (λ f. 0 < f.headway_secs) periods.now }
    requires apart { ArePeriods periods.now }
    ensures runs { IfOk result (λ starts. (p : Parts) (t : Trip) (r : ℕ)
        → tally (λ x. r == x) starts.items
        ≡ cond (is_run (trip_of p t rows.now periods.now) r) 1 0) }
    ensures early { IfOk result (λ starts. All (λ r. r < 7_200_000) starts.items) }
{
    let mut starts = Vec::new(alloc);
    if periods.is_empty() {
        starts.push(left(&rows[0]))?;
        return Ok(starts);
    }
    for period in periods {
        push_starts(period, &mut starts)?;
    }
    Ok(starts)
}

// Adds the seconds at which the runs of a period start.
fn push_starts(period: &Frequency, starts: &mut Vec<u32>) -> Result<(), OutOfMemory>
    requires moves { 0 < period.now.headway_secs }
    requires lasts { period.now.start_time < period.now.end_time }
    ensures runs { OnOk result ((r : ℕ) → tally (λ x. r == x) starts.new.items
        ≡ tally (λ x. r == x) starts.old.items
        + cond (starts_run (frequency_of period.now) r) 1 0) }
    ensures early { OnOk result (All (λ r. r < 7_200_000) starts.old.items
        → All (λ r. r < 7_200_000) starts.new.items) }
{
    let start = period.start_time.seconds();
    for second in start..period.end_time.seconds() {
        if (second - start) % period.headway_secs == 0 {
            starts.push(second)?;
        }
    }
    Ok(())
}
