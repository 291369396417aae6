ghost use Rattle.std.specs.Prelude.{◌≡◌, ◌-◌, ◌++◌, ◌<◌, ◌≤◌, drop, length, slice_index_or, take, IfOk, OnOk};
ghost use Rattle.std.specs.List.{flat_map, All};
ghost use Rattle.gtfs_stop_times.specs.KeptLists.{stop_time_at, stop_times_at};
ghost use Rattle.gtfs_stop_times.specs.KeptStretches.{ascend_from, numbers_of, AreByTrips, AreRising, IsStretch};

use crate::ranked_rows::by_ranks;
use crate::ranks::Ranks;
use crate::row_numbers::RowNumbers;
use gtfs_field::OutOfMemory;
use std::alloc::Global;

// Rows of one trip that stand one after the other in an order.
#[derive(Clone, Copy)]
pub(crate) struct Stretch {
    pub(crate) trip: u32,
    // The index of the first one.
    pub(crate) start: usize,
    // The index after the last one.
    pub(crate) end: usize,
}

// Rows whose trips stand together, by the numbers of their trips.
// No row is looked at, but where a trip does not stand together.
pub(crate) fn by_trips(
    alloc: Global,
    ranks: &Ranks<'_>,
    order: RowNumbers,
) -> Result<RowNumbers, OutOfMemory>
    ensures { IfOk result
        (AreByTrips ranks.now.rows.now ranks.now.notes.now order) }
{
    // Its room comes first, so that the stretches, which grow, lie behind it and leave no hole.
    let mut rows = Vec::with_capacity(alloc, order.len())?;
    let mut stretches = stretches(alloc, ranks, &order)?;
    if ascend(&stretches) {
        return Ok(order);
    }
    stretches.sort_unstable_by_key(|stretch| stretch.trip);
    if !ascend(&stretches) {
        return by_ranks(alloc, ranks, &order);
    }
    push_all(&order, &stretches, &mut rows)?;
    Ok(RowNumbers::of(rows))
}

// The rows in stretches, each as long as it can be.
fn stretches(
    alloc: Global,
    ranks: &Ranks<'_>,
    order: &RowNumbers,
) -> Result<Vec<Stretch>, OutOfMemory>
    ensures all { IfOk result
        (λ stretches. flat_map (numbers_of order.now) stretches.items ≡ order.now) }
    ensures within { IfOk result
        (λ stretches. All (λ s. (s.start ≤ s.end) × (s.end ≤ length order.now)) stretches.items) }
    ensures each { IfOk result (λ stretches.
        AreRising (stop_times_at ranks.now.rows.now ranks.now.notes.now order.now)
        → All (IsStretch ranks.now.rows.now ranks.now.notes.now order.now) stretches.items) }
{
    let mut stretches = Vec::new(alloc);
    let mut start: usize = 0;
    while start < order.len() {
        let trip = ranks.trip(order.get(start));
        let end = end_of(ranks, trip, order, start);
        stretches.push(Stretch { trip, start, end })?;
        start = end;
    }
    Ok(stretches)
}

// Where the rows from a start on that are of this trip end, which is that of the first one.
fn end_of(ranks: &Ranks<'_>, trip: u32, order: &RowNumbers, start: usize) -> usize
    requires some { start < length order.now }
    requires first { (stop_time_at ranks.now.rows.now ranks.now.notes.now
        (slice_index_or order.now start 0)).trip ≡ trip }
    ensures some { start < result }
    ensures within { result ≤ length order.now }
    ensures of_trip { All
        (λ n. (stop_time_at ranks.now.rows.now ranks.now.notes.now n).trip ≡ trip)
        (take (result - start) (drop start order.now)) }
{
    let count = order.len();
    let mut end = start + 1;
    while end < count && ranks.trip(order.get(end)) == trip {
        end += 1;
    }
    end
}

// Whether each stretch is of a trip after those of the stretches before it.
fn ascend(stretches: &[Stretch]) -> bool
    ensures { result ≡ ascend_from 0 stretches.now }
{
    let mut least: u64 = 0;
    for stretch in stretches {
        let trip = u64::from(stretch.trip);
        if trip < least {
            return false;
        }
        least = trip + 1;
    }
    true
}

// Adds the numbers of the rows of stretches, one after the other.
fn push_all(
    order: &RowNumbers,
    stretches: &[Stretch],
    rows: &mut Vec<u32>,
) -> Result<(), OutOfMemory>
    requires { All (λ s. (s.start ≤ s.end) × (s.end ≤ length order.now)) stretches.now }
    ensures { OnOk result (rows.new.items
        ≡ rows.old.items ++ flat_map (numbers_of order.now) stretches.now) }
{
    for stretch in stretches {
        push_numbers(order, stretch, rows)?;
    }
    Ok(())
}

// Adds the numbers of the rows of a stretch.
fn push_numbers(
    order: &RowNumbers,
    stretch: &Stretch,
    rows: &mut Vec<u32>,
) -> Result<(), OutOfMemory>
    requires { (stretch.now.start ≤ stretch.now.end) × (stretch.now.end ≤ length order.now) }
    ensures { OnOk result (rows.new.items ≡ rows.old.items ++ numbers_of order.now stretch.now) }
{
    for at in stretch.start..stretch.end {
        rows.push(order.get(at))?;
    }
    Ok(())
}
