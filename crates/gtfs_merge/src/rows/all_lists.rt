ghost use Rattle.std.specs.Prelude.{◌≡◌, IfOk, false, length};
ghost use Rattle.std.specs.List.{All};
ghost use Rattle.csv.specs.Records.{Rising};
ghost use Rattle.gtfs_stop_times.specs.JoinedStopTimes.{IsTripOf};
ghost use Rattle.gtfs_merge.specs.KindEntries.{AreMergedKinds};
ghost use Rattle.gtfs_merge.specs.Merged.{zone_texts_differ};
ghost use Rattle.gtfs_merge.specs.MergedLists.{AreListsOf, all_parts};
ghost use Rattle.gtfs_merge.specs.Names.{AreKindNames};
ghost use Rattle.gtfs_merge.specs.MergedSides.{content_a, content_b};
ghost use Rattle.gtfs_merge.specs.Twins.{twin_rows};

use crate::joining::twins::Twins;
use crate::kind::Side;
use crate::names::Names;
use crate::numbering::all_kinds::MergedKinds;
use crate::numbering::new_numbers::Numbers;
use crate::rows::frequencies::{Frequencies, merged_frequencies};
use crate::rows::headsigns::Headsigns;
use crate::rows::stop_times::trips_of;
use crate::rows::transfers::merged_transfers;
use crate::rows::with_ids::IdRows;
use crate::sides::Sides;
use gtfs_field::{List, OutOfMemory};
use gtfs_rows::{Parts, StopTimesByTrip, Transfer, TripOf};
use std::alloc::Global;
use std::hash::RandomState;

// All lists of a merged feed but its stop times, and what those of both feeds become in it.
pub(crate) struct MergedLists {
    pub(crate) rows: IdRows,
    pub(crate) transfers: List<Transfer>,
    pub(crate) frequencies: Frequencies,
    pub(crate) headsigns: Headsigns,
    // The new numbers of stops.
    pub(crate) stops: Numbers,
    // The merged trips in their order.
    pub(crate) trips: Vec<TripOf>,
}

// Written out, so that a function that lets lists go has one call to prove.
impl Drop for MergedLists {
    fn drop(self) {
        let MergedLists {
            rows: _,
            transfers: _,
            frequencies: _,
            headsigns: _,
            stops: _,
            trips: _,
        } = self;
    }
}

impl MergedLists {
    // The lists of the merged feed. What they stand for does not depend on the random state.
    pub(crate) fn of_feeds(
        alloc: Global,
        random: RandomState,
        sides: &Sides,
        twins: &Twins,
        names: &Names,
    ) -> Result<MergedLists, OutOfMemory>
        requires twins { twins.now ≡ twin_rows sides.now }
        requires names { AreKindNames sides.now names.now }
        requires zone { zone_texts_differ (content_a sides.now) (content_b sides.now) ≡ false }
        ensures { IfOk result (AreListsOf sides.now) }
    {
        let kinds = MergedKinds::of_feeds(alloc, sides, twins, names)?;
        MergedLists::of_kinds(alloc, random, sides, kinds)
    }

    // The lists, where these are the merged rows of all kinds.
    fn of_kinds(
        alloc: Global,
        random: RandomState,
        sides: &Sides,
        kinds: MergedKinds,
    ) -> Result<MergedLists, OutOfMemory>
        requires kinds { AreMergedKinds sides.now kinds }
        requires zone { zone_texts_differ (content_a sides.now) (content_b sides.now) ≡ false }
        ensures { IfOk result (AreListsOf sides.now) }
    {
        sides.soundness();
        let headsigns = Headsigns::of_feeds(alloc, random, sides)?;
        let trips = trips_of(alloc, kinds.trips.rows())?;
        let frequencies = merged_frequencies(alloc, sides, &kinds)?;
        let transfers = merged_transfers(alloc, sides, &kinds)?;
        let rows = IdRows::of_kinds(alloc, sides, &kinds)?;
        let stops = kinds.into_stop_numbers();
        Ok(MergedLists {
            rows,
            transfers,
            frequencies,
            headsigns,
            stops,
            trips,
        })
    }

    // All rows of the merged feed, with the stop times of both feeds, which stay where they are.
    pub(crate) fn with_stop_times(
        self,
        alloc: Global,
        first: StopTimesByTrip,
        second: StopTimesByTrip,
    ) -> Result<Parts, OutOfMemory>
        requires first { Rising 0 first.starts (length first.rows) }
        requires second { Rising 0 second.starts (length second.rows) }
        requires trips { All (IsTripOf (length first.starts) (length second.starts))
            self.trips.items }
        ensures { IfOk result (λ parts. parts ≡ all_parts self first second) }
    {
        let MergedLists {
            rows,
            transfers,
            frequencies,
            headsigns,
            stops,
            trips,
        } = self;
        let first = first.renumbered(stops.of(Side::A), headsigns.numbers(Side::A));
        let second = second.renumbered(stops.of(Side::B), headsigns.numbers(Side::B));
        let stop_times = StopTimesByTrip::joined(alloc, first, second, &trips)?;
        Ok(rows.with_lists(transfers, stop_times, frequencies, headsigns.into_texts()))
    }
}
