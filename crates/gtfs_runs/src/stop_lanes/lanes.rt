ghost use Rattle.std.specs.Prelude.{◌<◌, IfOk, length, map};
ghost use Rattle.gtfs_rows.specs.RowsInMemory.{content_of_parts, service_ids, stop_ids, text_of_number};
ghost use Rattle.gtfs_runs.specs.StopLanes.{list_value, period_value};
ghost use Rattle.gtfs_runs.specs.steps.Courses.{AreServed, stopping_of};
ghost use Rattle.gtfs_runs.specs.steps.FoundEvents.{AreFound};
ghost use Rattle.gtfs_runs.specs.steps.CourseNumbers.{AreNumbered};
ghost use Rattle.gtfs_runs.specs.steps.WholeLanes.{AreWhole};
ghost use Rattle.gtfs_times.specs.Filling.{timed};
ghost use Rattle.gtfs_times.specs.TimedRows.{timed_parts};

use crate::list_lane::ListLane;
use crate::place::Place;
use crate::step_lane::StepLane;
use crate::stop_index::StopIndex;
use crate::stop_lanes::found::FoundEvents;
use crate::stop_lanes::indexed::found_in_index;
use crate::stop_lanes::listed::{ListedEvent, sorted};
use crate::stop_lanes::lists::lists;
use crate::stop_lanes::numbered::numbered;
use gtfs_feed::Feed;
use gtfs_field::OutOfMemory;
use gtfs_rows::StopNo;
use gtfs_times::Times;
use std::alloc::Global;

// The lists of a stop and its periods, before the lists stand in two.
pub(crate) fn lanes_of_feed(
    alloc: Global,
    feed: &Feed,
    stop: StopNo,
    times: Times,
) -> Result<(Vec<ListLane>, Vec<StepLane>), OutOfMemory>
    requires { stop.0 < length feed.now.stops }
    ensures { IfOk result (λ lanes. AreWhole (timed times (content_of_parts feed.now))
        (text_of_number (stop_ids feed.now) stop.0) (service_ids feed.now)
        (map list_value lanes.0.items) (map period_value lanes.1.items)) }
{
    let place = Place::of_stop(alloc, feed, stop)?;
    let found = FoundEvents::at_place(alloc, feed, &place, times)?;
    let listed = numbered(alloc, feed, found.listed)?;
    lanes_of_events(alloc, feed, stop, times, listed, found.periods)
}

// The same of the departure rows that an index has there.
pub(crate) fn lanes_of_index(
    alloc: Global,
    index: &StopIndex<'_>,
    stop: StopNo,
) -> Result<(Vec<ListLane>, Vec<StepLane>), OutOfMemory>
    requires { stop.0 < length index.now.feed.stops }
    ensures { IfOk result (λ lanes. AreWhole
        (timed index.now.times (content_of_parts index.now.feed))
        (text_of_number (stop_ids index.now.feed) stop.0) (service_ids index.now.feed)
        (map list_value lanes.0.items) (map period_value lanes.1.items)) }
{
    let found = found_in_index(alloc, index, stop)?;
    let (listed, periods) = (found.listed, found.periods);
    lanes_of_events(alloc, index.feed(), stop, index.times(), listed, periods)
}

// What leaves the place of a stop of the feed, in lanes,
// where the groups of trips have their numbers.
fn lanes_of_events(
    alloc: Global,
    feed: &Feed,
    stop: StopNo,
    times: Times,
    listed: Vec<ListedEvent>,
    periods: Vec<StepLane>,
) -> Result<(Vec<ListLane>, Vec<StepLane>), OutOfMemory>
    requires found { AreFound (timed_parts times feed.now) stop.0 (length feed.now.trips)
        (map (stopping_of feed.now) listed.items) (map period_value periods.items) }
    requires numbers { AreNumbered feed.now listed.items }
    requires services { AreServed feed.now listed.items }
    ensures { IfOk result (λ lanes. AreWhole (timed times (content_of_parts feed.now))
        (text_of_number (stop_ids feed.now) stop.0) (service_ids feed.now)
        (map list_value lanes.0.items) (map period_value lanes.1.items)) }
{
    feed.soundness();
    let listed = sorted(alloc, listed)?;
    let lists = lists(alloc, &listed)?;
    Ok((lists, periods))
}
