ghost use Rattle.std.specs.Prelude.{◌≡◌, IfOk, map};
ghost use Rattle.gtfs_merge.specs.MergeEntries.{entry_value};
ghost use Rattle.gtfs_merge.specs.TripRows.{entry_trip};

use crate::kind::Side;
use crate::numbering::sorted_rows::MergedRow;
use gtfs_field::OutOfMemory;
use gtfs_rows::TripOf;
use std::alloc::Global;

// Of which feed each merged trip is, and its number there.
pub(crate) fn trips_of(alloc: Global, rows: &[MergedRow]) -> Result<Vec<TripOf>, OutOfMemory>
    ensures { IfOk result (λ trips. trips.items ≡ map entry_trip (map entry_value rows.now)) }
{
    let mut trips = Vec::with_capacity(alloc, rows.len())?;
    for row in rows {
        trips.push(trip_of(row))?;
    }
    Ok(trips)
}

// Of which feed a merged trip is, and its number there.
fn trip_of(row: &MergedRow) -> TripOf
    ensures { result ≡ entry_trip (entry_value row.now) }
{
    match row.side {
        Side::A => TripOf::First(row.number),
        Side::B => TripOf::Second(row.number),
    }
}
