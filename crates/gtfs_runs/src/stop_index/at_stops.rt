ghost use Rattle.std.specs.Prelude.{◌≡◌, ◌<◌, ◌+◌, ◌&&◌, ◌==◌, ℕ, Bool, true, All, AllPairs, IfOk, List, OnOk, Some, cond, length, map, slice_get};
ghost use Rattle.std.specs.List.Sorted.{IsSorted};
ghost use Rattle.gtfs_schema.specs.FieldValues.{if_there};
ghost use Rattle.gtfs_rows.specs.TransferOrder.{Ascends};
ghost use Rattle.gtfs_rows.specs.Trips.{stop_rows_by_trip};
ghost use Rattle.gtfs_rows.specs.declared.frequency.Frequency.{Frequency};
ghost use Rattle.gtfs_rows.specs.declared.parts.Parts.{Parts};
ghost use Rattle.gtfs_rows.specs.declared.trip.Trip.{Trip};
ghost use Rattle.gtfs_runs.specs.Tallies.{tally};
ghost use Rattle.gtfs_runs.specs.StopIndex.{departure_row_cmp, is_this_row};
ghost use Rattle.gtfs_runs.specs.steps.AtStops.{StandBefore, at_stop, departs_of, leaves_stop};
ghost use Rattle.gtfs_runs.specs.steps.TripGroups.{AreOfTrips, grouped_cmp};
ghost use Rattle.gtfs_runs.specs.steps.NotedRows.{IsNoted};
ghost use Rattle.gtfs_runs.specs.steps.IndexedTrips.{IsOfRank};
ghost use Rattle.gtfs_times.specs.TimedRows.{timed_parts};

use crate::departure_row::{DepartureRow, is_departure_row, row_at};
use crate::grouped_trip::GroupedTrip;
use crate::stop_index::rooms::rooms;
use gtfs_feed::Feed;
use gtfs_field::OutOfMemory;
use gtfs_rows::{StopRow, TripNo};
use gtfs_stop_times::small_number;
use gtfs_times::{Times, filled, is_to_fill};
use std::alloc::Global;

// The departure rows at each stop of a feed, of its trips in the order in which they then stand.
// The stops are those of all stop times.
pub(crate) fn at_stops(
    alloc: Global,
    feed: &Feed,
    times: Times,
    stops: &[u32],
    trips: &[GroupedTrip<'_>],
) -> Result<Vec<Vec<DepartureRow>>, OutOfMemory>
    requires trips { AreOfTrips feed.now (length feed.now.trips) trips.now }
    requires in_order { IsSorted grouped_cmp trips.now }
    ensures length { IfOk result (λ found. length found.items ≡ length feed.now.stops) }
    ensures told { IfOk result (λ found. (s t r : ℕ)
        → tally (is_this_row t r) (at_stop (map (λ x. x.items) found.items) s)
        ≡ cond (departs_of (timed_parts times feed.now) s t r) 1 0) }
    ensures order { IfOk result (λ found.
        All (Ascends (departure_row_cmp feed.now)) (map (λ x. x.items) found.items)) }
    ensures noted { IfOk result (λ found.
        All (All (IsNoted (timed_parts times feed.now))) (map (λ x. x.items) found.items)) }
    ensures ranked { IfOk result (λ found.
        All (All (IsOfRank trips.now)) (map (λ x. x.items) found.items)) }
{
    feed.soundness();
    let mut found = rooms(alloc, feed, stops)?;
    for rank in 0..trips.len() {
        let trip = trips[rank].trip();
        add_trip(alloc, feed, trip, small_number(rank)?, times, &mut found)?;
    }
    Ok(found)
}

// Adds the departure rows of a trip of a rank.
fn add_trip(
    alloc: Global,
    feed: &Feed,
    trip: TripNo,
    rank: u32,
    times: Times,
    found: &mut Vec<Vec<DepartureRow>>,
) -> Result<(), OutOfMemory>
    requires trip { trip.0 < length feed.now.trips }
    requires stops { length found.now.items ≡ length feed.now.stops }
    ensures length { OnOk result (length found.new.items ≡ length found.old.items) }
    ensures told { OnOk result ((s t r : ℕ)
        → tally (is_this_row t r) (at_stop (map (λ x. x.items) found.new.items) s)
        ≡ tally (is_this_row t r) (at_stop (map (λ x. x.items) found.old.items) s)
        + cond ((t == trip.0) && departs_of (timed_parts times feed.now) s t r) 1 0) }
    ensures order { OnOk result (
        All (StandBefore feed.now trip.0 0) (map (λ x. x.items) found.old.items)
        → All (Ascends (departure_row_cmp feed.now)) (map (λ x. x.items) found.new.items)) }
    ensures noted { OnOk result (
        All (All (IsNoted (timed_parts times feed.now))) (map (λ x. x.items) found.old.items)
        → All (All (IsNoted (timed_parts times feed.now))) (map (λ x. x.items) found.new.items)) }
    ensures ranked { OnOk result ((q : ℕ → ℕ → Bool) → q trip.0 rank ≡ true
        → All (All (λ x. q x.trip x.rank ≡ true)) (map (λ x. x.items) found.old.items)
        → All (All (λ x. q x.trip x.rank ≡ true)) (map (λ x. x.items) found.new.items)) }
{
    feed.soundness();
    let rows = feed.trip_rows(trip);
    if is_to_fill(rows, times) {
        return add_rows(trip, rank, &filled(alloc, rows)?, found);
    }
    add_rows(trip, rank, rows, found)
}

// Adds the departure rows among these stop times, which are the trip's or these with their times
// filled.
fn add_rows(
    trip: TripNo,
    rank: u32,
    rows: &[StopRow],
    found: &mut Vec<Vec<DepartureRow>>,
) -> Result<(), OutOfMemory>
    requires ascend { AllPairs (λ r s. r.stop_sequence < s.stop_sequence) rows.now }
    requires stops { All (λ r. r.stop_id.0 < length found.now.items) rows.now }
    ensures length { OnOk result (length found.new.items ≡ length found.old.items) }
    ensures told { OnOk result ((s t r : ℕ) (p : Parts) (u : Trip) (fs : List Frequency)
        → tally (is_this_row t r) (at_stop (map (λ x. x.items) found.new.items) s)
        ≡ tally (is_this_row t r) (at_stop (map (λ x. x.items) found.old.items) s)
        + cond ((t == trip.0)
        && if_there (slice_get rows.now r) (leaves_stop p u rows.now fs s)) 1 0) }
    ensures order { OnOk result ((p : Parts)
        → All (StandBefore p trip.0 0) (map (λ x. x.items) found.old.items)
        → All (StandBefore p trip.0 (length rows.now)) (map (λ x. x.items) found.new.items)) }
    ensures noted { OnOk result ((p : Parts)
        → slice_get (stop_rows_by_trip p) trip.0 ≡ Some rows.now
        → All (All (IsNoted p)) (map (λ x. x.items) found.old.items)
        → All (All (IsNoted p)) (map (λ x. x.items) found.new.items)) }
    ensures ranked { OnOk result ((q : ℕ → ℕ → Bool) → q trip.0 rank ≡ true
        → All (All (λ x. q x.trip x.rank ≡ true)) (map (λ x. x.items) found.old.items)
        → All (All (λ x. q x.trip x.rank ≡ true)) (map (λ x. x.items) found.new.items)) }
{
    for position in 0..rows.len() {
        add_row(trip, rank, rows, position, found)?;
    }
    Ok(())
}

// Adds the stop time of this position, if it is a departure row.
fn add_row(
    trip: TripNo,
    rank: u32,
    rows: &[StopRow],
    position: usize,
    found: &mut Vec<Vec<DepartureRow>>,
) -> Result<(), OutOfMemory>
    requires ascend { AllPairs (λ r s. r.stop_sequence < s.stop_sequence) rows.now }
    requires stops { All (λ r. r.stop_id.0 < length found.now.items) rows.now }
    requires within { position < length rows.now }
    ensures length { OnOk result (length found.new.items ≡ length found.old.items) }
    ensures told { OnOk result ((s t r : ℕ) (p : Parts) (u : Trip) (fs : List Frequency)
        → tally (is_this_row t r) (at_stop (map (λ x. x.items) found.new.items) s)
        ≡ tally (is_this_row t r) (at_stop (map (λ x. x.items) found.old.items) s)
        + cond ((t == trip.0) && (r == position)
        && if_there (slice_get rows.now r) (leaves_stop p u rows.now fs s)) 1 0) }
    ensures order { OnOk result ((p : Parts)
        → All (StandBefore p trip.0 position) (map (λ x. x.items) found.old.items)
        → All (StandBefore p trip.0 (position + 1)) (map (λ x. x.items) found.new.items)) }
    ensures noted { OnOk result ((p : Parts)
        → slice_get (stop_rows_by_trip p) trip.0 ≡ Some rows.now
        → All (All (IsNoted p)) (map (λ x. x.items) found.old.items)
        → All (All (IsNoted p)) (map (λ x. x.items) found.new.items)) }
    ensures ranked { OnOk result ((q : ℕ → ℕ → Bool) → q trip.0 rank ≡ true
        → All (All (λ x. q x.trip x.rank ≡ true)) (map (λ x. x.items) found.old.items)
        → All (All (λ x. q x.trip x.rank ≡ true)) (map (λ x. x.items) found.new.items)) }
{
    if !is_departure_row(rows, position) {
        return Ok(());
    }
    let stop_time = &rows[position];
    let row = row_at(trip, rank, position, stop_time)?;
    found[stop_time.stop_id.0].push(row)?;
    Ok(())
}
