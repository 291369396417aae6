ghost use Rattle.std.specs.Prelude.{◌≡◌, ◌<◌, IfOk, length, map};
ghost use Rattle.gtfs_rows.specs.RowsInMemory.{content_of_parts, service_ids, stop_ids, text_of_number};
ghost use Rattle.gtfs_runs.specs.LaneKinds.{AreByKind};
ghost use Rattle.gtfs_runs.specs.Lanes.{latest};
ghost use Rattle.gtfs_runs.specs.StopLanes.{AreLanesOf, filled_value, lanes_of, list_value, period_value};
ghost use Rattle.gtfs_runs.specs.steps.WholeLanes.{AreWhole};
ghost use Rattle.gtfs_times.specs.Filling.{timed};

mod found;
mod indexed;
mod lanes;
mod latest;
mod listed;
mod lists;
mod numbered;
mod passing;
mod place_rows;
mod split;

use crate::filled_lane::FilledLane;
use crate::list_lane::ListLane;
use crate::step_lane::StepLane;
use crate::steps::Steps;
use crate::stop_index::StopIndex;
use crate::stop_lanes::lanes::{lanes_of_feed, lanes_of_index};
use crate::stop_lanes::latest::latest;
use crate::stop_lanes::split::split;
use gtfs_feed::Feed;
use gtfs_field::OutOfMemory;
use gtfs_rows::StopNo;
use gtfs_times::Times;
use std::alloc::Global;
use std::marker::Model;

/// The lanes of the place of a stop: the stop, and each stop or platform whose parent it is.
///
/// Each run of a trip that passes a stop time there at which riders can leave is an event of one
/// lane of the trip's service. Trips without frequencies that have one list of stops and one
/// service share a lane for each position in that list; a row of `frequencies.txt` has one for
/// each such stop time of its trip.
///
/// Times are those of the file, or under [`Times::Interpolated`] also those that
/// `gtfs_times` gives to stop times without any. A lane shared by trips stands apart where
/// one of its times is such a one.
#[derive(Drop)]
pub struct StopLanes {
    lists: Vec<ListLane>,
    periods: Vec<StepLane>,
    filled: Vec<FilledLane>,
    greatest: u32,
}

impl Model for StopLanes {
    ghost use Rattle.std.specs.Prelude.{map};
    ghost use Rattle.gtfs_runs.specs.StopLanes.{StopLanesValue, filled_value, list_value, period_value};

    ghost Value = { StopLanesValue };

    ghost view = { λ s. record {
      lists = map list_value s.lists.items;
      periods = map period_value s.periods.items;
      filled = map filled_value s.filled.items;
      greatest = s.greatest;
    } };
}

impl StopLanes {
    /// The lanes of the place of a stop, whose number is below [`Feed::stop_count`], and a count of
    /// steps, which begins at 0: nothing else makes one.
    ///
    /// It goes once over the stops of all stop times, as they stand in memory, and then looks at
    /// the trips that pass the place. It sorts those without frequencies by service, stops and
    /// start, and then their events there by numbers. A row of `frequencies.txt` takes the same memory however
    /// many runs it has. A trip with times to fill is copied for as long as it is looked at.
    ///
    /// GTFS Schedule Reference, `stop_times.txt`, `frequencies.txt`,
    /// and `parent_station` of `stops.txt`.
    ///
    /// # Errors
    /// [`OutOfMemory`] where memory ran out, or where the feed has more than 4,294,967,296 stops,
    /// services, trips, stop times of a trip or stop times at the place.
    pub fn build(
        alloc: Global,
        feed: &Feed,
        stop: StopNo,
        times: Times,
    ) -> Result<(StopLanes, Steps), OutOfMemory>
        requires { stop.0 < length feed.now.stops }
        ensures lanes { IfOk result (λ built. AreLanesOf (timed times (content_of_parts feed.now))
            (text_of_number (stop_ids feed.now) stop.0) (service_ids feed.now) (lanes_of built.0)) }
        ensures kinds { IfOk result (λ built. AreByKind times (content_of_parts feed.now)
            (text_of_number (stop_ids feed.now) stop.0) built.0) }
        ensures greatest { IfOk result (λ built. built.0.greatest
            ≡ latest (timed times (content_of_parts feed.now))
            (text_of_number (stop_ids feed.now) stop.0)) }
        ensures steps { IfOk result (λ built. built.1 ≡ 0) }
    {
        let (lists, periods) = lanes_of_feed(alloc, feed, stop, times)?;
        StopLanes::with_filled_apart(alloc, feed, stop, times, lists, periods)
    }

    /// The lanes of the place of a stop, made of an index: those that [`StopLanes::build`] makes of
    /// its feed under its times. The stop's number is below [`Feed::stop_count`] of that feed.
    ///
    /// It looks at the departure rows at the place, as the index has them, and under
    /// [`Times::Interpolated`] at whether the stop times there have a time. It sorts the events
    /// there by numbers, which the index has, and compares no stops. By the trips' order in the
    /// index most stand in order at once.
    ///
    /// GTFS Schedule Reference, `stop_times.txt`, `frequencies.txt`,
    /// and `parent_station` of `stops.txt`.
    ///
    /// # Errors
    /// [`OutOfMemory`] where memory ran out, or where more than 4,294,967,296 stop times are at the
    /// place.
    pub fn from_index(
        alloc: Global,
        index: &StopIndex<'_>,
        stop: StopNo,
    ) -> Result<(StopLanes, Steps), OutOfMemory>
        requires { stop.0 < length index.now.feed.stops }
        ensures lanes { IfOk result (λ built.
            AreLanesOf (timed index.now.times (content_of_parts index.now.feed))
            (text_of_number (stop_ids index.now.feed) stop.0) (service_ids index.now.feed)
            (lanes_of built.0)) }
        ensures kinds { IfOk result (λ built.
            AreByKind index.now.times (content_of_parts index.now.feed)
            (text_of_number (stop_ids index.now.feed) stop.0) built.0) }
        ensures greatest { IfOk result (λ built. built.0.greatest
            ≡ latest (timed index.now.times (content_of_parts index.now.feed))
            (text_of_number (stop_ids index.now.feed) stop.0)) }
        ensures steps { IfOk result (λ built. built.1 ≡ 0) }
    {
        let (lists, periods) = lanes_of_index(alloc, index, stop)?;
        StopLanes::with_filled_apart(alloc, index.feed(), stop, index.times(), lists, periods)
    }

    // The lanes of a stop of the feed, of these lists and periods, which are all that it has.
    fn with_filled_apart(
        alloc: Global,
        feed: &Feed,
        stop: StopNo,
        times: Times,
        lists: Vec<ListLane>,
        periods: Vec<StepLane>,
    ) -> Result<(StopLanes, Steps), OutOfMemory>
        requires { AreWhole (timed times (content_of_parts feed.now))
            (text_of_number (stop_ids feed.now) stop.0) (service_ids feed.now)
            (map list_value lists.items) (map period_value periods.items) }
        ensures lanes { IfOk result (λ built. AreLanesOf (timed times (content_of_parts feed.now))
            (text_of_number (stop_ids feed.now) stop.0) (service_ids feed.now) (lanes_of built.0)) }
        ensures kinds { IfOk result (λ built. AreByKind times (content_of_parts feed.now)
            (text_of_number (stop_ids feed.now) stop.0) built.0) }
        ensures greatest { IfOk result (λ built. built.0.greatest
            ≡ latest (timed times (content_of_parts feed.now))
            (text_of_number (stop_ids feed.now) stop.0)) }
        ensures steps { IfOk result (λ built. built.1 ≡ 0) }
    {
        feed.soundness();
        let greatest = latest(&lists, &periods);
        let (given, filled) = split(alloc, feed, lists, times)?;
        let lanes = StopLanes {
            lists: given,
            periods,
            filled,
            greatest,
        };
        Ok((lanes, Steps::new()))
    }

    /// The lanes of trips without frequencies: one for each list of stops, position in it and
    /// service, but those in [`StopLanes::filled`].
    pub fn lists(&self) -> &[ListLane]
        ensures { map list_value result.now ≡ self.now.lists }
    {
        &self.lists
    }

    /// The lanes of the rows of `frequencies.txt`:
    /// one for each row and each of these stop times of its trip.
    pub fn periods(&self) -> &[StepLane]
        ensures { map period_value result.now ≡ self.now.periods }
    {
        &self.periods
    }

    /// Those lanes of trips without frequencies of which an event is at a stop time without a time
    /// of its own. There are none under [`Times::Given`].
    pub fn filled(&self) -> &[FilledLane]
        ensures { map filled_value result.now ≡ self.now.filled }
    {
        &self.filled
    }

    /// The latest second from the origin of a service day at which a run passes one of these stop
    /// times, 0 to 7,199,997, and 0 where there is none.
    pub fn greatest(&self) -> u32
        ensures { result ≡ self.now.greatest }
    {
        self.greatest
    }
}
