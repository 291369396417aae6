//! The times of a sheet run by run: the stop times of a trip are filled as a whole.
ghost use Rattle.std.specs.Prelude.{◌≡◌, ◌<◌, ◌≤◌, All, IfOk, List, length, map, option_and_then};
ghost use Rattle.std.specs.List.{range_with_len};
ghost use Rattle.gtfs_rows.specs.RowsInMemory.{content_of_parts};
ghost use Rattle.gtfs_rows.specs.RowsInMemory.{trip_of};
ghost use Rattle.gtfs_rows.specs.declared.frequency.Frequency.{Frequency as PeriodRow};
ghost use Rattle.gtfs_rows.specs.declared.parts.Parts.{Parts};
ghost use Rattle.gtfs_rows.specs.declared.trip.Trip.{Trip};
ghost use Rattle.gtfs_times.specs.TimedRows.{timed_parts};
ghost use Rattle.gtfs_times.specs.declared.times.Times.TheVariants.{Interpolated};
ghost use Rattle.gtfs_board.specs.TimetableColumns.{IsShownAlong, KeepTimes, column_times, times_of_column};
ghost use Rattle.gtfs_board.specs.Timetable.{row_at, time_passed};

use crate::sheet::columns::RunColumn;
use crate::sheet::times::time_among;
use crate::sheet::turning::turned;
use gtfs_field::{Clock, List, OutOfMemory};
use gtfs_rows::StopRow;
use gtfs_runs::{Feed, Times};
use gtfs_times::{filled, is_to_fill};
use std::alloc::Global;

// The times of the runs at each of this many stop times, which are filled.
pub(super) fn filled_times(
    alloc: Global,
    feed: &Feed,
    stop_count: usize,
    columns: &[RunColumn],
) -> Result<Vec<List<Option<Clock>>>, OutOfMemory>
    requires { All (IsShownAlong feed.now stop_count) columns.now }
    ensures { IfOk result (λ lines. lines.items
        ≡ column_times (content_of_parts (timed_parts Interpolated feed.now))
        stop_count columns.now) }
{
    let runs = times_by_run(alloc, feed, stop_count, columns)?;
    turned(alloc, runs.as_slice(), stop_count)
}

// For each run its times at this many stop times.
fn times_by_run(
    alloc: Global,
    feed: &Feed,
    stop_count: usize,
    columns: &[RunColumn],
) -> Result<Vec<Vec<Option<Clock>>>, OutOfMemory>
    requires { All (IsShownAlong feed.now stop_count) columns.now }
    ensures { IfOk result (λ runs. map (λ run. run.items) runs.items
        ≡ map (times_of_column (content_of_parts (timed_parts Interpolated feed.now)) stop_count)
        columns.now) }
{
    let mut runs = Vec::with_capacity(alloc, columns.len())?;
    for column in columns {
        runs.push(times_of_run(alloc, feed, stop_count, *column)?)?;
    }
    Ok(runs)
}

// The times of a run at this many stop times of its trip.
fn times_of_run(
    alloc: Global,
    feed: &Feed,
    stop_count: usize,
    column: RunColumn,
) -> Result<Vec<Option<Clock>>, OutOfMemory>
    requires { IsShownAlong feed.now stop_count column }
    ensures { IfOk result (λ times. times.items
        ≡ times_of_column (content_of_parts (timed_parts Interpolated feed.now))
        stop_count column) }
{
    feed.soundness();
    let rows = feed.trip_rows(column.trip);
    if !is_to_fill(rows, Times::Interpolated) {
        return times_along(alloc, rows, column.start, stop_count);
    }
    let rows = filled(alloc, rows)?;
    times_along(alloc, rows.as_slice(), column.start, stop_count)
}

// The times of a run that starts at a second at so many of these stop times.
fn times_along(
    alloc: Global,
    rows: &[StopRow],
    start: u32,
    stop_count: usize,
) -> Result<Vec<Option<Clock>>, OutOfMemory>
    requires within { stop_count ≤ length rows.now }
    requires early { start < 3_600_000 }
    requires keep { KeepTimes rows.now }
    ensures { IfOk result (λ times. (p : Parts) (t : Trip) (fs : List PeriodRow) → times.items
        ≡ map (λ i. option_and_then (time_passed (trip_of p t rows.now fs) start)
        (row_at (trip_of p t rows.now fs) i)) (range_with_len 0 stop_count)) }
{
    let mut times = Vec::with_capacity(alloc, stop_count)?;
    for position in 0..stop_count {
        times.push(time_among(rows, start, position))?;
    }
    Ok(times)
}
