//! Stop times of a trip with times of an even pace.

ghost use Rattle.std.specs.Prelude.{◌≡◌, ◌≤◌, ◌<◌, ◌+◌, ◌-◌, ◌*◌, ◌/◌, ◌&&◌, IfOk, false, length, slice_index_or, unwrap_or};
ghost use Rattle.std.specs.List.{list_any};
ghost use Rattle.gtfs_stop_times.specs.RowTimes.{left_at, reached_at};
ghost use Rattle.gtfs_stop_times.specs.declared.stop_row.StopRow.{StopRow as StopTime};
ghost use Rattle.gtfs_times.specs.Spans.{AreNeighbours, IsSpanAt};
ghost use Rattle.gtfs_times.specs.TimedRows.{filled_stop_time, filled_stop_times, is_interpolated, lacks_time, timed_stop_times};

use crate::span::{Span, span_after};
use crate::times::Times;
use gtfs_field::{Clock, OutOfMemory};
use gtfs_rows::{OptionalClock, StopRow};
use std::alloc::Global;

/// The stop times of a trip, by sequence, in which each one that has neither an arrival nor a
/// departure gets a time, at which it is reached and left.
///
/// Say that the nearest stop time before it that has a time is left at `a`, that the nearest one
/// after it is reached at `b`, and that it stands `m` positions after the one, of the `n` that
/// the other does. Its time is `a + (b - a) * m / n` in whole seconds from the origin of the
/// service day, the fraction cut off. Where `b` lies before `a`, it is `a`. Where there is no
/// such neighbour before it or none after it, it stays without a time. Of a neighbour with one
/// time, both are that one.
///
/// Each stop time is looked at twice at most.
///
/// # Errors
/// [`OutOfMemory`] where there is no room for the list.
pub fn filled(alloc: Global, rows: &[StopRow]) -> Result<Vec<StopRow>, OutOfMemory>
    ensures { IfOk result (λ filled. filled.items ≡ filled_stop_times rows.now) }
{
    let mut filled = Vec::with_capacity(alloc, rows.len())?;
    let mut span = None;
    for at in 0..rows.len() {
        span = span_after(rows, span, at);
        filled.push(filled_row(rows, span, at))?;
    }
    Ok(filled)
}

/// Whether a trip has stop times to fill: the times are [`Times::Interpolated`], and a stop time
/// has neither an arrival nor a departure. If not, they are under these times as they are given.
#[tactic(auto, using(crate::proofs::FillValue::kept_by))]
pub fn is_to_fill(rows: &[StopRow], times: Times) -> bool
    ensures value { result ≡ (is_interpolated times && list_any lacks_time rows.now) }
    ensures kept { result ≡ false → timed_stop_times times rows.now ≡ rows.now }
{
    match times {
        Times::Given => false,
        Times::Interpolated => has_untimed(rows),
    }
}

// Whether a stop time has no time.
fn has_untimed(rows: &[StopRow]) -> bool
    ensures { result ≡ list_any lacks_time rows.now }
{
    rows.iter().any(|row| !row.is_timed())
}

// The stop time at an index, filled, given the span of the index after it.
fn filled_row(rows: &[StopRow], span: Option<Span>, at: usize) -> StopRow
    requires span { IsSpanAt rows.now span (at + 1) }
    requires within { at < length rows.now }
    ensures { (d : StopTime) → result ≡ filled_stop_time rows.now (at, slice_index_or rows.now at d) }
{
    let row = rows[at];
    if row.is_timed() {
        return row;
    }
    match span {
        Some(span) => filled_between(rows, span, at),
        None => row,
    }
}

// The stop time at an index in a span, at the time of an even pace.
fn filled_between(rows: &[StopRow], span: Span, at: usize) -> StopRow
    requires after { span.before < at }
    requires before { at < span.after }
    requires neighbours { AreNeighbours rows.now span.before span.after }
    ensures { (d : StopTime) → result ≡ filled_stop_time rows.now (at, slice_index_or rows.now at d) }
{
    let Span { before, after } = span;
    let seconds = part_way(
        left(&rows[before]),
        reached(&rows[after]),
        at - before,
        after - before,
    );
    let time = OptionalClock::new(Some(Clock::from_seconds(seconds)));
    let row = rows[at];
    StopRow {
        arrival_time: time,
        departure_time: time,
        ..row
    }
}

// When a vehicle has gone so many positions of some, in whole seconds, the fraction cut off.
fn part_way(left: u32, reached: u32, gone: usize, of: usize) -> u32
    requires left { left ≤ 7_199_999 }
    requires reached { reached ≤ 7_199_999 }
    requires gone { gone ≤ of }
    requires some { 0 < of }
    ensures value { result ≡ left + ((reached - left) * gone) / of }
    ensures bound { result ≤ 7_199_999 }
{
    let seconds = u128::from(reached.saturating_sub(left)) * gone as u128 / of as u128;
    left + seconds as u32
}

// When a vehicle leaves, 0 where the stop time has no time.
fn left(row: &StopRow) -> u32
    ensures value { result ≡ unwrap_or (left_at row.now) 0 }
    ensures bound { result ≤ 7_199_999 }
{
    row.departs().map_or(0, |clock| clock.seconds())
}

// When a vehicle comes, 0 where the stop time has no time.
fn reached(row: &StopRow) -> u32
    ensures value { result ≡ unwrap_or (reached_at row.now) 0 }
    ensures bound { result ≤ 7_199_999 }
{
    row.arrives().map_or(0, |clock| clock.seconds())
}
