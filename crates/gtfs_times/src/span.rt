//! The nearest stop times with times around an index.

ghost use Rattle.std.specs.Prelude.{◌≡◌, ◌≤◌, ◌<◌, ◌+◌, true, is_some, length, slice_index_or};
ghost use Rattle.gtfs_stop_times.specs.RowTimes.{left_at};
ghost use Rattle.gtfs_stop_times.specs.declared.stop_row.StopRow.{StopRow as StopTime};
ghost use Rattle.gtfs_times.specs.Spans.{HaveNone, IsSpanAt};

use gtfs_rows::StopRow;

// Two stop times with times by their indices, and none between them has one.
#[derive(Clone, Copy)]
pub(crate) struct Span {
    pub(crate) before: usize,
    pub(crate) after: usize,
}

// The first stop time from an index on that has a time, or the end.
fn next_timed(rows: &[StopRow], from: usize) -> usize
    requires within { from ≤ length rows.now }
    ensures from { from ≤ result }
    ensures upto { result ≤ length rows.now }
    ensures none { HaveNone rows.now from result }
    ensures timed { (d : StopTime) → result < length rows.now
        → is_some (left_at (slice_index_or rows.now result d)) ≡ true }
{
    let mut next = from;
    while next < rows.len() && !rows[next].is_timed() {
        next += 1;
    }
    next
}

// The span of the index after this one, given that of this one. At a stop time with a time one
// span ends and the next begins.
pub(crate) fn span_after(rows: &[StopRow], span: Option<Span>, at: usize) -> Option<Span>
    requires span { IsSpanAt rows.now span at }
    requires within { at < length rows.now }
    ensures { IsSpanAt rows.now result (at + 1) }
{
    if rows[at].is_timed() {
        span_from(rows, at)
    } else {
        span
    }
}

// The span that begins at a stop time with a time, if one with a time follows.
fn span_from(rows: &[StopRow], at: usize) -> Option<Span>
    requires within { at < length rows.now }
    requires timed { (d : StopTime) → is_some (left_at (slice_index_or rows.now at d)) ≡ true }
    ensures { IsSpanAt rows.now result (at + 1) }
{
    let after = next_timed(rows, at + 1);
    if after < rows.len() {
        Some(Span { before: at, after })
    } else {
        None
    }
}
