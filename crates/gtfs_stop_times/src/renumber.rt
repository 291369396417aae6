ghost use Rattle.std.specs.Prelude.{◌≡◌, None, map, option_and_then, slice_index_or};
ghost use Rattle.gtfs_stop_times.specs.RenumberedRows.{renumbered_row};

use crate::numbers::StopNo;
use crate::optional::OptionalHeadsign;
use crate::stop_row::StopRow;

// Gives stop times other numbers of their stops and headsigns.
pub(crate) fn renumber(rows: &mut Vec<StopRow>, stops: &[usize], headsigns: &[OptionalHeadsign])
    ensures { rows.new.items ≡ map (renumbered_row stops.now headsigns.now) rows.old.items }
{
    for row in rows.iter_mut() {
        *row = renumbered(*row, stops, headsigns);
    }
}

// The stop time with the new numbers of its stop and its headsign.
#[inline(always)]
fn renumbered(row: StopRow, stops: &[usize], headsigns: &[OptionalHeadsign]) -> StopRow
    ensures { result ≡ renumbered_row stops.now headsigns.now row }
{
    StopRow {
        stop_id: StopNo(stops.get(row.stop_id.0).copied().unwrap_or(0)),
        stop_headsign: new_headsign(row.stop_headsign, headsigns),
        ..row
    }
}

// The new number of a headsign, if there is one.
#[inline(always)]
fn new_headsign(headsign: OptionalHeadsign, headsigns: &[OptionalHeadsign]) -> OptionalHeadsign
    ensures { result ≡ option_and_then (λ n. slice_index_or headsigns.now n None) headsign }
{
    match headsign.get() {
        Some(number) => headsigns
            .get(number.0 as usize)
            .copied()
            .unwrap_or(OptionalHeadsign::new(None)),
        None => OptionalHeadsign::new(None),
    }
}
