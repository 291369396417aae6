ghost use Rattle.std.specs.Prelude.{◌≡◌, ◌<◌, ◌==◌, ℕ, All, IfOk, Some, cond, length, slice_get};
ghost use Rattle.gtfs_runs.specs.Tallies.{tally};
ghost use Rattle.gtfs_runs.specs.StopIndex.{AreDepartureRows};
ghost use Rattle.gtfs_runs.specs.steps.Children.{is_child};
ghost use Rattle.gtfs_runs.specs.steps.NotedRows.{IsNoted};
ghost use Rattle.gtfs_runs.specs.steps.IndexedTrips.{IsRanked};
ghost use Rattle.gtfs_times.specs.TimedRows.{timed_parts};

mod at_stops;
mod children;
mod indexed_trips;
mod rooms;
mod rows_by_stop;

use crate::departure_row::DepartureRow;
use crate::grouped_trip::by_group;
pub(crate) use crate::stop_index::children::Child;
use crate::stop_index::children::Children;
pub(crate) use crate::stop_index::indexed_trips::{IndexedTrip, trip_at};
use crate::stop_index::indexed_trips::{grouped_trips, indexed_trips};
use crate::stop_index::rows_by_stop::RowsByStop;
use gtfs_feed::Feed;
use gtfs_field::OutOfMemory;
use gtfs_rows::StopNo;
use gtfs_times::Times;
use std::alloc::Global;
use std::marker::Model;

/// The departure rows of a feed by stop,
/// of which the lanes of any stop can be made without a look at the other trips.
///
/// It keeps a vector for each stop, twenty bytes for each stop time, eight for each stop or
/// platform with a parent, and sixteen for each trip.
#[derive(Drop)]
pub struct StopIndex<'a> {
    feed: &'a Feed,
    times: Times,
    rows: RowsByStop,
    children: Children,
    trips: Vec<IndexedTrip>,
}

impl<'a> Model for StopIndex<'a> {
    ghost use Rattle.gtfs_runs.specs.StopIndex.{StopIndexValue};
    ghost use Rattle.gtfs_runs.specs.steps.Children.{IsIndex};

    ghost Value = { StopIndexValue };

    ghost view = { λ x. record { feed = x.feed.now; times = x.times; rows = x.rows } };

    ghost invariant = { λ x. IsIndex x.times x.feed.now x.rows x.children x.trips.items };
}

impl<'a> StopIndex<'a> {
    /// The index of a feed under a choice of times. Under [`Times::Interpolated`] stop times whose
    /// times are filled are departure rows too.
    ///
    /// It goes through the stop times of the feed in the order in which they stand in memory, to see
    /// how much room each stop needs. It sorts the trips by service, stops and start, and then looks
    /// at the stop times again for the departure rows, trip after trip in that order. Until the end
    /// it keeps four bytes more for each stop time. A trip with times to fill is copied for as long
    /// as its departure rows are looked for.
    ///
    /// GTFS Schedule Reference, `stop_times.txt`, and `parent_station` of `stops.txt`.
    ///
    /// # Errors
    /// [`OutOfMemory`] where memory ran out, or where the feed has more than 4,294,967,296 stops,
    /// services, trips or stop times of a trip.
    pub fn build(alloc: Global, feed: &'a Feed, times: Times) -> Result<StopIndex<'a>, OutOfMemory>
        ensures feed { IfOk result (λ index. index.feed ≡ feed.now) }
        ensures times { IfOk result (λ index. index.times ≡ times) }
    {
        let lists = feed.parts().stop_times.stop_lists(alloc)?;
        let trips = by_group(grouped_trips(alloc, feed, &lists)?);
        let rows = RowsByStop::build(alloc, feed, times, lists.all(), &trips)?;
        let children = Children::build(alloc, feed)?;
        let trips = indexed_trips(alloc, feed, &trips)?;
        Ok(StopIndex {
            feed,
            times,
            rows,
            children,
            trips,
        })
    }

    /// The feed.
    pub fn feed(&self) -> &'a Feed
        ensures { result.now ≡ self.now.feed }
    {
        self.feed
    }

    /// The choice of times.
    pub fn times(&self) -> Times
        ensures { result ≡ self.now.times }
    {
        self.times
    }

    /// The departure rows at a stop itself, whatever its parent: by the services of their trips,
    /// by the lists of stops, by when the trips leave their first stop, by the trips' numbers, and
    /// in a trip by position. The stop's number is below [`Feed::stop_count`] of the feed.
    pub fn rows(&self, stop: StopNo) -> &[DepartureRow]
        requires { stop.0 < length self.now.feed.stops }
        ensures { slice_get self.now.rows stop.0 ≡ Some result.now }
    {
        self.rows.at(stop)
    }

    /// What each index keeps, for proofs: it has exactly the departure rows of its feed.
    /// It does nothing.
    pub fn soundness(&self)
        ensures { AreDepartureRows self.now.times self.now.feed self.now.rows }
    {
        let _rows = &self.rows;
    }

    // Each departure row has the time and the sequence of its stop time. It does nothing.
    pub(crate) fn notes(&self)
        ensures { All (All (IsNoted (timed_parts self.now.times self.now.feed))) self.now.rows }
    {
        let _rows = &self.rows;
    }

    // The stops and platforms whose parent a stop is, each once, but not the stop itself.
    pub(crate) fn children(&self, stop: StopNo) -> &[Child]
        requires { stop.0 < length self.now.feed.stops }
        ensures { (n : ℕ) → tally (λ x. n == x.stop) result.now
            ≡ cond (is_child self.now.feed stop.0 n) 1 0 }
    {
        self.children.of(stop, self.feed.stop_count())
    }

    // What it keeps of each trip, by their ranks.
    pub(crate) fn trips(&self) -> &[IndexedTrip]
        ensures { All (All (IsRanked self.now.feed result.now)) self.now.rows }
    {
        &self.trips
    }
}
