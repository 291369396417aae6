//! The columns of a sheet: the runs of a pattern's trips on a day.
ghost use Rattle.std.specs.Prelude.{◌≡◌, ◌<◌, ◌+◌, ◌==◌, ◌&&◌, All, IfOk, OnOk, cond, length, unwrap_or};
ghost use Rattle.std.specs.List.Sorted.{IsSorted};
ghost use Rattle.gtfs_rows.specs.Trips.{ArePeriods};
ghost use Rattle.gtfs_stop_times.specs.RowTimes.{left_at};
ghost use Rattle.gtfs_rows.specs.RowsInMemory.{frequency_of, trip_of};
ghost use Rattle.gtfs_rows.specs.declared.parts.Parts.{Parts};
ghost use Rattle.gtfs_rows.specs.declared.trip.Trip.{Trip};
ghost use Rattle.gtfs_runs.specs.Tallies.{tally};
ghost use Rattle.gtfs_rows.specs.Runs.{is_run, starts_run};
ghost use Rattle.gtfs_board.specs.TimetableColumns.{HasRow, column_cmp, is_column_of, is_run_on, is_same_column};
ghost use Rattle.gtfs_board.specs.declared.sheet.columns.RunColumn.{RunColumn as ColumnValue};

use gtfs_field::{Clock, Day, OutOfMemory};
use gtfs_rows::{Frequency, StopRow, TripNo};
use gtfs_runs::Feed;
use std::alloc::Global;

// A run of a trip. The order of the fields is that of the runs of a sheet:
// trips are numbered by the bytes of their ids.
#[derive(Clone, Copy, PartialEq, Eq, PartialOrd, Ord)]
pub(super) struct RunColumn {
    // The second of the service day at which the run starts.
    pub start: u32,
    pub trip: TripNo,
}

// The runs of those of the trips that run on the day, by their start and then by their trip.
pub(super) fn columns(
    alloc: Global,
    feed: &Feed,
    day: Day,
    trips: &[TripNo],
) -> Result<Vec<RunColumn>, OutOfMemory>
    requires { All (HasRow feed.now) trips.now }
    ensures told { IfOk result (λ found. (c : ColumnValue) → tally (is_same_column c) found.items
        ≡ tally (is_column_of feed.now day c) trips.now) }
    ensures in_order { IfOk result (λ found. IsSorted column_cmp found.items) }
{
    let mut found = Vec::new(alloc);
    for trip in trips {
        push_trip(feed, day, *trip, &mut found)?;
    }
    found.sort_unstable();
    Ok(found)
}

// Adds the runs of a trip if it runs on the day.
fn push_trip(
    feed: &Feed,
    day: Day,
    trip: TripNo,
    found: &mut Vec<RunColumn>,
) -> Result<(), OutOfMemory>
    requires { HasRow feed.now trip }
    ensures { OnOk result ((c : ColumnValue) → tally (is_same_column c) found.new.items
        ≡ tally (is_same_column c) found.old.items
        + cond ((c.trip.0 == trip.0) && is_run_on feed.now day c) 1 0) }
{
    feed.soundness();
    let row = feed.trip_by_number(trip);
    let rows = feed.trip_rows(trip);
    let periods = feed.trip_frequencies(trip);
    let service = feed.service_by_number(row.service_id);
    if !service.active(day) {
        return Ok(());
    }
    push_runs(trip, rows, periods, found)?;
    Ok(())
}

// Adds the runs of a trip with these stop times, of which there is one, and frequencies.
fn push_runs(
    trip: TripNo,
    rows: &[StopRow],
    periods: &[Frequency],
    found: &mut Vec<RunColumn>,
) -> Result<(), OutOfMemory>
    requires filled { 0 < length rows.now }
    requires moves { All (λ f. 0 < f.headway_secs) periods.now }
    requires apart { ArePeriods periods.now }
    ensures { OnOk result ((p : Parts) (t : Trip) (c : ColumnValue)
        → tally (is_same_column c) found.new.items ≡ tally (is_same_column c) found.old.items
        + cond ((c.trip.0 == trip.0) && is_run (trip_of p t rows.now periods.now) c.start) 1 0) }
{
    if periods.is_empty() {
        let start = seconds_left(&rows[0]);
        found.push(RunColumn { start, trip })?;
        return Ok(());
    }
    for period in periods {
        push_period(period, trip, found)?;
    }
    Ok(())
}

// Adds the runs of a trip that a period starts.
fn push_period(
    period: &Frequency,
    trip: TripNo,
    found: &mut Vec<RunColumn>,
) -> Result<(), OutOfMemory>
    requires { 0 < period.now.headway_secs }
    ensures { OnOk result ((c : ColumnValue) → tally (is_same_column c) found.new.items
        ≡ tally (is_same_column c) found.old.items
        + cond ((c.trip.0 == trip.0) && starts_run (frequency_of period.now) c.start) 1 0) }
{
    let end = period.end_time.seconds();
    let mut start = period.start_time.seconds();
    while start < end {
        found.push(RunColumn { start, trip })?;
        start = start.saturating_add(period.headway_secs);
    }
    Ok(())
}

// When a vehicle leaves, 0 where there is no time.
pub(super) fn seconds_left(row: &StopRow) -> u32
    ensures value { result ≡ unwrap_or (left_at row.now) 0 }
    ensures bound { result < 7_200_000 }
{
    match row.departs() {
        Some(time) => time.seconds(),
        None => 0,
    }
}
