ghost use Rattle.std.specs.Prelude.{◌≡◌, ◌≤◌, ◌++◌, IfOk, OnOk, length, map};
ghost use Rattle.std.specs.List.{list_any};
ghost use Rattle.csv.specs.Records.{Rising};
ghost use Rattle.gtfs_stop_times.specs.StopTimesByTrip.{AreWithin, is_at, items_in};
ghost use Rattle.gtfs_table.specs.FieldOffsets.{parts};

use crate::by_trip::RowRange;
use crate::stop_row::StopRow;
use crate::stretches::stretch;
use gtfs_field::OutOfMemory;
use std::alloc::Global;

// Of each row, and then of each of those counted behind them, whether it is at one of these stops.
pub(crate) fn marked(
    alloc: Global,
    rows: &[StopRow],
    more: &[StopRow],
    stops: &[bool],
) -> Result<Vec<bool>, OutOfMemory>
    ensures { IfOk result (λ marks. marks.items ≡ map (is_at stops.now) (rows.now ++ more.now)) }
{
    let mut marks = Vec::with_capacity(alloc, rows.len().saturating_add(more.len()))?;
    push_marks(&mut marks, rows, stops)?;
    push_marks(&mut marks, more, stops)?;
    Ok(marks)
}

// Adds of each row whether it is at one of these stops.
fn push_marks(marks: &mut Vec<bool>, rows: &[StopRow], stops: &[bool]) -> Result<(), OutOfMemory>
    ensures { OnOk result (marks.new.items ≡ marks.old.items ++ map (is_at stops.now) rows.now) }
{
    for row in rows {
        marks.push(is_at(stops, row))?;
    }
    Ok(())
}

// Whether a row is at one of these stops.
#[inline(always)]
fn is_at(stops: &[bool], row: &StopRow) -> bool
    ensures { result ≡ is_at stops.now row.now }
{
    stops.get(row.stop_id.0).copied().unwrap_or(false)
}

// Of each trip whether one of its rows is marked, where the trips stand one after the other.
pub(crate) fn marked_in_turn(
    alloc: Global,
    marks: &[bool],
    starts: &[usize],
) -> Result<Vec<bool>, OutOfMemory>
    requires { Rising 0 starts.now (length marks.now) }
    ensures { IfOk result (λ trips. trips.items
        ≡ map (list_any (λ mark. mark)) (parts starts.now marks.now)) }
{
    let mut trips = Vec::with_capacity(alloc, starts.len())?;
    for trip in 0..starts.len() {
        trips.push(is_marked(stretch(marks, starts, trip)))?;
    }
    Ok(trips)
}

// The same, where each trip has a range of rows.
pub(crate) fn marked_in_ranges(
    alloc: Global,
    marks: &[bool],
    ranges: &[RowRange],
) -> Result<Vec<bool>, OutOfMemory>
    requires { AreWithin (length marks.now) ranges.now }
    ensures { IfOk result (λ trips. trips.items
        ≡ map (λ range. list_any (λ mark. mark) (items_in marks.now range)) ranges.now) }
{
    let mut trips = Vec::with_capacity(alloc, ranges.len())?;
    for range in ranges {
        trips.push(is_marked(&marks[range.start..range.end]))?;
    }
    Ok(trips)
}

// Whether one of these is marked.
#[inline(always)]
fn is_marked(marks: &[bool]) -> bool
    ensures { result ≡ list_any (λ mark. mark) marks.now }
{
    marks.iter().any(|mark| *mark)
}
