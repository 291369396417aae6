ghost use Rattle.std.specs.Prelude.{◌≡◌, ◌<◌, All, IfOk, Some, length, slice_get};
ghost use Rattle.std.specs.List.Sorted.{IsSorted};
ghost use Rattle.gtfs_runs.specs.StopIndex.{AreDepartureRows};
ghost use Rattle.gtfs_runs.specs.steps.TripGroups.{AreOfTrips, grouped_cmp};
ghost use Rattle.gtfs_runs.specs.steps.NotedRows.{IsNoted};
ghost use Rattle.gtfs_runs.specs.steps.IndexedTrips.{IsOfRank};
ghost use Rattle.gtfs_times.specs.TimedRows.{timed_parts};

use crate::departure_row::DepartureRow;
use crate::grouped_trip::GroupedTrip;
use crate::stop_index::at_stops::at_stops;
use gtfs_feed::Feed;
use gtfs_field::OutOfMemory;
use gtfs_rows::StopNo;
use gtfs_times::Times;
use std::alloc::Global;
use std::marker::Model;

// The departure rows of a feed by stop:
// for each stop those at the stop itself, whatever its parent.
#[derive(Drop)]
pub(crate) struct RowsByStop {
    at_stops: Vec<Vec<DepartureRow>>,
}

impl Model for RowsByStop {
    ghost use Rattle.std.specs.Prelude.{List, map};
    ghost use Rattle.gtfs_runs.specs.declared.departure_row.DepartureRow.{DepartureRow as RowValue};

    ghost Value = { List (List RowValue) };

    ghost view = { λ x. map (λ rows. rows.items) x.at_stops.items };
}

impl RowsByStop {
    // Those of a feed under a choice of times, of its trips in the order in which they then stand.
    // The stops are those of all stop times.
    pub(crate) fn build(
        alloc: Global,
        feed: &Feed,
        times: Times,
        stops: &[u32],
        trips: &[GroupedTrip<'_>],
    ) -> Result<RowsByStop, OutOfMemory>
        requires trips { AreOfTrips feed.now (length feed.now.trips) trips.now }
        requires in_order { IsSorted grouped_cmp trips.now }
        ensures rows { IfOk result (λ rows. AreDepartureRows times feed.now rows) }
        ensures noted { IfOk result (λ rows. All (All (IsNoted (timed_parts times feed.now))) rows) }
        ensures ranked { IfOk result (λ rows. All (All (IsOfRank trips.now)) rows) }
    {
        feed.soundness();
        let at_stops = at_stops(alloc, feed, times, stops, trips)?;
        Ok(RowsByStop { at_stops })
    }

    // Those at a stop.
    pub(crate) fn at(&self, stop: StopNo) -> &[DepartureRow]
        requires { stop.0 < length self.now }
        ensures { slice_get self.now stop.0 ≡ Some result.now }
    {
        &self.at_stops[stop.0]
    }
}
