ghost use Rattle.std.specs.Prelude.{IfOk, map};
ghost use Rattle.gtfs_merge.specs.KindEntries.{AreMergedKinds};
ghost use Rattle.gtfs_merge.specs.TripRows.{StandInTurn, frequencies_from};

use crate::numbering::all_kinds::MergedKinds;
use crate::sides::Sides;
use gtfs_field::OutOfMemory;
use gtfs_rows::{Frequency, TripNo};
use std::alloc::Global;

// The frequencies of all trips of a merged feed, trip after trip.
#[derive(Drop)]
pub(crate) struct Frequencies {
    pub(crate) rows: Vec<Frequency>,
    // Where the frequencies of each trip begin.
    pub(crate) starts: Vec<usize>,
}

// The frequencies of the merged trips.
pub(crate) fn merged_frequencies(
    alloc: Global,
    sides: &Sides,
    kinds: &MergedKinds,
) -> Result<Frequencies, OutOfMemory>
    requires { AreMergedKinds sides.now kinds.now }
    ensures { IfOk result (λ r. StandInTurn
        (map (frequencies_from sides.now) kinds.now.trips.rows) r.starts.items r.rows.items) }
{
    let trips = kinds.trips.rows();
    let mut rows = Vec::new(alloc);
    let mut starts = Vec::with_capacity(alloc, trips.len())?;
    for trip in trips {
        starts.push(rows.len())?;
        let of_trip = sides.of(trip.side).trip_frequencies(TripNo(trip.number));
        rows.extend_from_slice(of_trip)?;
    }
    Ok(Frequencies { rows, starts })
}
