ghost use Rattle.std.specs.Prelude.{◌≡◌, ◌<◌, ◌+◌, ◌&&◌, ◌==◌, ℕ, All, IfOk, List, OnOk, Some, cond, length, slice_get};
ghost use Rattle.gtfs_schema.specs.FieldValues.{if_there};
ghost use Rattle.gtfs_rows.specs.Places.{members};
ghost use Rattle.gtfs_rows.specs.Trips.{stop_rows_by_trip};
ghost use Rattle.gtfs_rows.specs.RowsInMemory.{content_of_parts, stop_ids, text_of_number};
ghost use Rattle.gtfs_rows.specs.declared.frequency.Frequency.{Frequency};
ghost use Rattle.gtfs_rows.specs.declared.parts.Parts.{Parts};
ghost use Rattle.gtfs_rows.specs.declared.trip.Trip.{Trip};
ghost use Rattle.gtfs_runs.specs.Tallies.{tally};
ghost use Rattle.gtfs_runs.specs.StopIndex.{is_this_row};
ghost use Rattle.gtfs_runs.specs.steps.NotedRows.{IsNoted};
ghost use Rattle.gtfs_runs.specs.steps.Passings.{AreTripTimes, leaves};
ghost use Rattle.gtfs_runs.specs.steps.PlaceRows.{AreOfPlace, departs_in_place};
ghost use Rattle.gtfs_runs.specs.steps.FoundAtRow.{IsInside};
ghost use Rattle.gtfs_times.specs.TimedRows.{timed_parts};

use crate::departure_row::{DepartureRow, leaves_place, row_at};
use crate::place::Place;
use gtfs_feed::Feed;
use gtfs_field::OutOfMemory;
use gtfs_rows::{StopRow, TripNo};
use gtfs_times::{Times, filled, is_to_fill};
use std::alloc::Global;

// The departure rows at a place, of the trips of a feed.
pub(crate) fn place_rows(
    alloc: Global,
    feed: &Feed,
    place: &Place,
    times: Times,
) -> Result<Vec<DepartureRow>, OutOfMemory>
    requires { length place.now ≡ length feed.now.stops }
    ensures rows { IfOk result (λ rows. (s : ℕ)
        → place.now ≡ members (content_of_parts feed.now) (text_of_number (stop_ids feed.now) s)
        → AreOfPlace (timed_parts times feed.now) s rows.items) }
    ensures noted { IfOk result (λ rows. All (IsNoted (timed_parts times feed.now)) rows.items) }
    ensures inside { IfOk result (λ rows. All (IsInside feed.now) rows.items) }
{
    let parts = feed.parts();
    let there = parts.stop_times.trips_at(alloc, place.members())?;
    let mut rows = Vec::new(alloc);
    for number in 0..feed.trip_count() {
        // Few trips come by, and nothing else of the others is looked at.
        if there[number] {
            add_trip(alloc, feed, place, TripNo(number), times, &mut rows)?;
        }
    }
    Ok(rows)
}

// Adds those of a trip.
fn add_trip(
    alloc: Global,
    feed: &Feed,
    place: &Place,
    trip: TripNo,
    times: Times,
    found: &mut Vec<DepartureRow>,
) -> Result<(), OutOfMemory>
    requires trip { trip.0 < length feed.now.trips }
    requires stops { length place.now ≡ length feed.now.stops }
    ensures told { OnOk result ((s t r : ℕ)
        → place.now ≡ members (content_of_parts feed.now) (text_of_number (stop_ids feed.now) s)
        → tally (is_this_row t r) found.new.items ≡ tally (is_this_row t r) found.old.items
        + cond ((t == trip.0) && departs_in_place (timed_parts times feed.now) s t r) 1 0) }
    ensures noted { OnOk result (All (IsNoted (timed_parts times feed.now)) found.old.items
        → All (IsNoted (timed_parts times feed.now)) found.new.items) }
    ensures inside { OnOk result (All (IsInside feed.now) found.old.items
        → All (IsInside feed.now) found.new.items) }
{
    feed.soundness();
    let rows = feed.trip_rows(trip);
    if is_to_fill(rows, times) {
        return add_stop_times(place, trip, &filled(alloc, rows)?, found);
    }
    add_stop_times(place, trip, rows, found)
}

// Adds the departure rows at the place among these stop times, which are the trip's or these with
// their times filled.
fn add_stop_times(
    place: &Place,
    trip: TripNo,
    rows: &[StopRow],
    found: &mut Vec<DepartureRow>,
) -> Result<(), OutOfMemory>
    requires { AreTripTimes (length place.now) rows.now }
    ensures told { OnOk result ((p : Parts) (s t r : ℕ) (u : Trip) (fs : List Frequency)
        → place.now ≡ members (content_of_parts p) (text_of_number (stop_ids p) s)
        → tally (is_this_row t r) found.new.items ≡ tally (is_this_row t r) found.old.items
        + cond ((t == trip.0)
        && if_there (slice_get rows.now r) (λ x. leaves p s u rows.now fs (r, x))) 1 0) }
    ensures noted { OnOk result ((p : Parts)
        → slice_get (stop_rows_by_trip p) trip.0 ≡ Some rows.now
        → All (IsNoted p) found.old.items → All (IsNoted p) found.new.items) }
    ensures inside { OnOk result ((p : Parts) → trip.0 < length p.trips
        → All (IsInside p) found.old.items → All (IsInside p) found.new.items) }
{
    for position in 0..rows.len() {
        if leaves_place(place, rows, position) {
            found.push(row_at(trip, 0, position, &rows[position])?)?;
        }
    }
    Ok(())
}
