ghost use Rattle.std.specs.Prelude.{◌≡◌, ◌<◌, All, IfOk, OnOk, length, map};
ghost use Rattle.std.specs.List.{flat_map};
ghost use Rattle.gtfs_runs.specs.StopLanes.{period_value};
ghost use Rattle.gtfs_runs.specs.steps.AtStops.{at_stop};
ghost use Rattle.gtfs_runs.specs.steps.Courses.{AreServed, stopping_of};
ghost use Rattle.gtfs_runs.specs.steps.FoundEvents.{AreFound};
ghost use Rattle.gtfs_runs.specs.steps.CourseNumbers.{AreNumbered};
ghost use Rattle.gtfs_runs.specs.steps.IndexedTrips.{IsRanked, group_number};
ghost use Rattle.gtfs_runs.specs.steps.FoundAtRow.{AreAdded, IsInside};
ghost use Rattle.gtfs_times.specs.TimedRows.{timed_parts};

use crate::departure_row::DepartureRow;
use crate::stop_index::{Child, IndexedTrip, StopIndex, trip_at};
use crate::stop_lanes::found::{FoundEvents, add_row};
use gtfs_feed::Feed;
use gtfs_field::OutOfMemory;
use gtfs_rows::StopNo;
use std::alloc::Global;

// What leaves the place of a stop, of the departure rows that an index has there.
pub(crate) fn found_in_index(
    alloc: Global,
    index: &StopIndex<'_>,
    stop: StopNo,
) -> Result<FoundEvents, OutOfMemory>
    requires { stop.0 < length index.now.feed.stops }
    ensures found { IfOk result (λ found. AreFound (timed_parts index.now.times index.now.feed)
        stop.0 (length index.now.feed.trips)
        (map (stopping_of index.now.feed) found.listed.items)
        (map period_value found.periods.items)) }
    ensures numbers { IfOk result (λ found. AreNumbered index.now.feed found.listed.items) }
    ensures services { IfOk result (λ found. AreServed index.now.feed found.listed.items) }
{
    index.soundness();
    index.notes();
    let feed = index.feed();
    feed.soundness();
    let rows = index.rows(stop);
    let children = index.children(stop);
    let trips = index.trips();
    let mut found = FoundEvents {
        listed: Vec::with_capacity(alloc, rows.len())?,
        periods: Vec::new(alloc),
    };
    add_rows(feed, trips, rows, &mut found)?;
    add_children(index, trips, children, &mut found)?;
    Ok(found)
}

// Adds what leaves at these stops and platforms.
fn add_children(
    index: &StopIndex<'_>,
    trips: &[IndexedTrip],
    children: &[Child],
    found: &mut FoundEvents,
) -> Result<(), OutOfMemory>
    requires stops { All (λ x. x.stop < length index.now.feed.stops) children.now }
    requires rows { All (IsInside index.now.feed)
        (flat_map (λ x. at_stop index.now.rows x.stop) children.now) }
    requires ranked { All (IsRanked index.now.feed trips.now)
        (flat_map (λ x. at_stop index.now.rows x.stop) children.now) }
    ensures added { OnOk result (AreAdded index.now.feed
        (flat_map (λ x. at_stop index.now.rows x.stop) children.now)
        found.old.listed.items found.new.listed.items
        (map period_value found.old.periods.items) (map period_value found.new.periods.items)) }
    ensures groups { OnOk result (
        All (λ x. group_number index.now.feed x.trip ≡ x.group) found.old.listed.items
        → All (λ x. group_number index.now.feed x.trip ≡ x.group) found.new.listed.items) }
{
    for child in children {
        add_rows(index.feed(), trips, index.rows(child.stop()), found)?;
    }
    Ok(())
}

// Adds what leaves at these departure rows.
fn add_rows(
    feed: &Feed,
    trips: &[IndexedTrip],
    rows: &[DepartureRow],
    found: &mut FoundEvents,
) -> Result<(), OutOfMemory>
    requires ranked { All (IsRanked feed.now trips.now) rows.now }
    requires rows { All (IsInside feed.now) rows.now }
    ensures added { OnOk result (AreAdded feed.now rows.now
        found.old.listed.items found.new.listed.items
        (map period_value found.old.periods.items) (map period_value found.new.periods.items)) }
    ensures groups { OnOk result (
        All (λ x. group_number feed.now x.trip ≡ x.group) found.old.listed.items
        → All (λ x. group_number feed.now x.trip ≡ x.group) found.new.listed.items) }
{
    feed.soundness();
    for row in rows {
        add_row(feed, trip_at(trips, row.rank()), row, found)?;
    }
    Ok(())
}
