ghost use Rattle.std.specs.Prelude.{◌≡◌, map, IfOk, IsPermutation};
ghost use Rattle.std.specs.List.Sorted.{IsSorted};
ghost use Rattle.gtfs_stop_times.specs.KeptLists.{stop_times_at};
ghost use Rattle.gtfs_stop_times.specs.RankedRows.{rank_cmp, AreRanked, IsRanked};
ghost use Rattle.gtfs_stop_times.specs.StopTimeOrder.{kept_cmp};

use crate::ranks::Ranks;
use crate::row_numbers::RowNumbers;
use gtfs_field::OutOfMemory;
use std::alloc::Global;
use std::cmp::Ordering;

// A row with its rank beside it, so that sorting looks at no row, which may be far away.
#[derive(Clone, Copy)]
pub(crate) struct RankedRow {
    pub(crate) rank: u64,
    pub(crate) row: u32,
}

// These rows by their ranks, and rows of one rank by their numbers.
pub(crate) fn by_ranks(
    alloc: Global,
    ranks: &Ranks<'_>,
    order: &RowNumbers,
) -> Result<RowNumbers, OutOfMemory>
    ensures moved { IfOk result (IsPermutation order.now) }
    ensures sorted { IfOk result (λ rows. IsSorted kept_cmp
        (stop_times_at ranks.now.rows.now ranks.now.notes.now rows)) }
{
    let mut ranked_rows = ranked_rows(alloc, ranks, order)?;
    ranked_rows.sort_unstable_by(|a, b| compare(a, b));
    let numbers = numbers(alloc, &ranked_rows)?;
    Ok(RowNumbers::of(numbers))
}

fn ranked_rows(
    alloc: Global,
    ranks: &Ranks<'_>,
    order: &RowNumbers,
) -> Result<Vec<RankedRow>, OutOfMemory>
    ensures { IfOk result (λ ranked_rows. AreRanked ranks.now.rows.now ranks.now.notes.now
        order.now ranked_rows.items) }
{
    let mut ranked_rows = Vec::with_capacity(alloc, order.len())?;
    for at in 0..order.len() {
        ranked_rows.push(ranked_row(ranks, order.get(at)))?;
    }
    Ok(ranked_rows)
}

#[inline(always)]
fn ranked_row(ranks: &Ranks<'_>, row: u32) -> RankedRow
    ensures row { result.row ≡ row }
    ensures ranked { IsRanked ranks.now.rows.now ranks.now.notes.now result }
{
    RankedRow {
        rank: ranks.rank(row),
        row,
    }
}

fn compare(a: &RankedRow, b: &RankedRow) -> Ordering
    ensures { result ≡ rank_cmp a.now b.now }
{
    a.rank.cmp(&b.rank).then(a.row.cmp(&b.row))
}

// The numbers of the rows.
fn numbers(alloc: Global, ranked_rows: &[RankedRow]) -> Result<Vec<u32>, OutOfMemory>
    ensures { IfOk result (λ rows. rows.items ≡ map (λ p. p.row) ranked_rows.now) }
{
    let mut rows = Vec::with_capacity(alloc, ranked_rows.len())?;
    for ranked in ranked_rows {
        rows.push(ranked.row)?;
    }
    Ok(rows)
}
