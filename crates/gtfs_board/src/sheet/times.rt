//! The times of a sheet: when each run passes each stop time of its trip.
ghost use Rattle.std.specs.Prelude.{◌≡◌, ◌<◌, ◌≤◌, ◌+◌, All, IfOk, List, true, is_some, length, map, option_and_then, slice_index_or, unwrap_or};
ghost use Rattle.gtfs_rows.specs.RowsInMemory.{content_of_parts};
ghost use Rattle.gtfs_stop_times.specs.RowTimes.{left_at};
ghost use Rattle.gtfs_rows.specs.RowsInMemory.{stop_row_of, trip_of};
ghost use Rattle.gtfs_rows.specs.declared.frequency.Frequency.{Frequency as PeriodRow};
ghost use Rattle.gtfs_rows.specs.declared.parts.Parts.{Parts};
ghost use Rattle.gtfs_stop_times.specs.declared.stop_row.StopRow.{StopRow as StopTime};
ghost use Rattle.gtfs_rows.specs.declared.trip.Trip.{Trip};
ghost use Rattle.gtfs_rows.specs.Runs.{passes_at};
ghost use Rattle.gtfs_board.specs.TimetableColumns.{IsShownAlong, column_times, time_of_column};
ghost use Rattle.gtfs_board.specs.Timetable.{row_at, time_passed};
ghost use Rattle.gtfs_times.specs.TimedRows.{timed_parts};

use crate::sheet::by_run::filled_times;
use crate::sheet::columns::{RunColumn, seconds_left};
use gtfs_field::{Clock, List, OutOfMemory};
use gtfs_rows::StopRow;
use gtfs_runs::{Feed, Times};
use std::alloc::Global;

// The times of the runs at each of this many stop times.
pub(super) fn sheet_times(
    alloc: Global,
    feed: &Feed,
    stop_count: usize,
    columns: &[RunColumn],
    times: Times,
) -> Result<Vec<List<Option<Clock>>>, OutOfMemory>
    requires { All (IsShownAlong feed.now stop_count) columns.now }
    ensures { IfOk result (λ lines. lines.items
        ≡ column_times (content_of_parts (timed_parts times feed.now)) stop_count columns.now) }
{
    feed.soundness();
    match times {
        Times::Given => given_times(alloc, feed, stop_count, columns),
        Times::Interpolated => filled_times(alloc, feed, stop_count, columns),
    }
}

// The same by the stop times as they are given.
fn given_times(
    alloc: Global,
    feed: &Feed,
    stop_count: usize,
    columns: &[RunColumn],
) -> Result<Vec<List<Option<Clock>>>, OutOfMemory>
    requires { All (IsShownAlong feed.now stop_count) columns.now }
    ensures { IfOk result (λ lines. lines.items
        ≡ column_times (content_of_parts feed.now) stop_count columns.now) }
{
    let mut lines = Vec::with_capacity(alloc, stop_count)?;
    for position in 0..stop_count {
        lines.push(times_at(alloc, feed, position, columns)?)?;
    }
    Ok(lines)
}

// The times of the runs at a stop time.
fn times_at(
    alloc: Global,
    feed: &Feed,
    position: usize,
    columns: &[RunColumn],
) -> Result<List<Option<Clock>>, OutOfMemory>
    requires { All (IsShownAlong feed.now (position + 1)) columns.now }
    ensures { IfOk result (λ times. times
        ≡ map (time_of_column (content_of_parts feed.now) position) columns.now) }
{
    let mut times = Vec::with_capacity(alloc, columns.len())?;
    for column in columns {
        times.push(time_at(feed, *column, position))?;
    }
    Ok(List::new(times))
}

// When a run passes the stop time of this position among those of its trip,
// None where that is untimed.
fn time_at(feed: &Feed, column: RunColumn, position: usize) -> Option<Clock>
    requires { IsShownAlong feed.now (position + 1) column }
    ensures { result ≡ time_of_column (content_of_parts feed.now) position column }
{
    feed.soundness();
    let rows = feed.trip_rows(column.trip);
    time_among(rows, column.start, position)
}

// The same by the stop times of the trip.
pub(super) fn time_among(rows: &[StopRow], start: u32, position: usize) -> Option<Clock>
    requires within { position < length rows.now }
    requires early { start < 3_600_000 }
    requires late { (d : StopTime)
        → unwrap_or (left_at (slice_index_or rows.now position d)) 0 ≤ 3_599_999 }
    requires later { (d : StopTime) → is_some (left_at (slice_index_or rows.now position d)) ≡ true
        → unwrap_or (left_at (slice_index_or rows.now 0 d)) 0
        ≤ unwrap_or (left_at (slice_index_or rows.now position d)) 0 }
    ensures { (p : Parts) (t : Trip) (fs : List PeriodRow) → result
        ≡ option_and_then (time_passed (trip_of p t rows.now fs) start)
        (row_at (trip_of p t rows.now fs) position) }
{
    match rows[position].departs() {
        Some(_) => Some(passes(rows, start, position)),
        None => None,
    }
}

// When a run that starts at a second passes the stop time of this position.
fn passes(rows: &[StopRow], start: u32, position: usize) -> Clock
    requires within { position < length rows.now }
    requires early { start < 3_600_000 }
    requires late { (d : StopTime)
        → unwrap_or (left_at (slice_index_or rows.now position d)) 0 ≤ 3_599_999 }
    requires ascend { (d : StopTime) → unwrap_or (left_at (slice_index_or rows.now 0 d)) 0
        ≤ unwrap_or (left_at (slice_index_or rows.now position d)) 0 }
    ensures { (p : Parts) (t : Trip) (fs : List PeriodRow) (d : StopTime) → result
        ≡ passes_at (trip_of p t rows.now fs) start
        (stop_row_of p (slice_index_or rows.now position d)) }
{
    Clock::from_seconds(start + seconds_left(&rows[position]) - seconds_left(&rows[0]))
}
