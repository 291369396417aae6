ghost use Rattle.std.specs.Prelude.{◌≡◌, ◌+◌, ◌-◌, ◌<◌, ◌≤◌, ℕ, drop, IfOk, IfSome, length, map, slice_index_or, take};
ghost use Rattle.std.specs.List.{All};
ghost use Rattle.csv.specs.Records.{Rising};
ghost use Rattle.gtfs_stop_times.specs.StopTimesByTrip.{AreWithin, rows_in};
ghost use Rattle.gtfs_table.specs.FieldOffsets.{parts};
ghost use Rattle.gtfs_stop_times.specs.HeadsignedRows.{numbers_in, rows_at};

use crate::by_trip::RowRange;
use crate::room::room_for;
use crate::row_numbers::RowNumbers;
use crate::stop_row::StopRow;
use crate::stretches::end_of;
use gtfs_field::OutOfMemory;
use std::alloc::Global;
use std::mem::size_of;

// Where the rows of each trip stand, if they follow each other.
// The numbers of those of each trip begin at these starts.
pub(crate) fn ranges(
    alloc: Global,
    order: &RowNumbers,
    starts: &[usize],
) -> Result<Option<Vec<RowRange>>, OutOfMemory>
    requires { Rising 0 starts.now (length order.now) }
    ensures numbers { IfOk result (λ found. IfSome found
        (λ ranges. map numbers_in ranges.items ≡ parts starts.now order.now)) }
    ensures within { IfOk result (λ found. IfSome found (λ ranges. (rows : ℕ)
        → All (λ n. n < rows) order.now → AreWithin rows ranges.items)) }
{
    let len = order.len();
    let mut ranges = Vec::with_capacity(alloc, starts.len())?;
    for trip in 0..starts.len() {
        match range(order, starts[trip], end_of(starts, trip, len)) {
            Some(range) => ranges.push(range)?,
            None => return Ok(None),
        }
    }
    Ok(Some(ranges))
}

// The numbers from a start to an end as a range, if each is one more than that before it.
fn range(order: &RowNumbers, start: usize, end: usize) -> Option<RowRange>
    requires { (start ≤ end) × (end ≤ length order.now) }
    ensures numbers { IfSome result
        (λ range. numbers_in range ≡ take (end - start) (drop start order.now)) }
    ensures within { IfSome result (λ range. (rows : ℕ) → All (λ n. n < rows) order.now
        → (range.start ≤ range.end) × (range.end ≤ rows)) }
{
    if start == end {
        return Some(RowRange { start: 0, end: 0 });
    }
    let first = order.get(start);
    let mut next = u64::from(first);
    for at in start..end {
        if u64::from(order.get(at)) != next {
            return None;
        }
        next += 1;
    }
    Some(RowRange {
        start: first as usize,
        end: next as usize,
    })
}

// The range of each trip in rows that stand trip after trip: from its start to the next start.
pub(crate) fn ranges_in_turn(
    alloc: Global,
    rows: &[StopRow],
    starts: &[usize],
) -> Result<Vec<RowRange>, OutOfMemory>
    requires { Rising 0 starts.now (length rows.now) }
    ensures within { IfOk result (λ ranges. AreWithin (length rows.now) ranges.items) }
    ensures rows { IfOk result
        (λ ranges. map (rows_in rows.now) ranges.items ≡ parts starts.now rows.now) }
{
    let mut ranges = Vec::with_capacity(alloc, starts.len())?;
    for trip in 0..starts.len() {
        let start = starts[trip];
        let end = end_of(starts, trip, rows.len());
        ranges.push(RowRange { start, end })?;
    }
    Ok(ranges)
}

// The rows of these numbers, in their order.
pub(crate) fn in_order(
    alloc: Global,
    rows: &[StopRow],
    order: &RowNumbers,
) -> Result<Vec<StopRow>, OutOfMemory>
    requires { All (λ n. n < length rows.now) order.now }
    ensures { IfOk result (λ list. list.items ≡ rows_at rows.now order.now) }
{
    let mut list = Vec::with_capacity(alloc, room_for(order.len(), size_of::<StopRow>()))?;
    for at in 0..order.len() {
        list.push(rows[order.get(at) as usize])?;
    }
    Ok(list)
}
