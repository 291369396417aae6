ghost use Rattle.std.specs.Prelude.{◌≡◌, ◌++◌, ◌∷◌, All, IfOk, List, [], OnOk, false, map};
ghost use Rattle.std.specs.List.{list_any};
ghost use Rattle.gtfs_rows.specs.RowsInMemory.{content_of_parts};
ghost use Rattle.gtfs_runs.specs.LaneKinds.{has_untimed, is_untimed_at};
ghost use Rattle.gtfs_runs.specs.StopLanes.{LaneValue, filled_value, list_value};
ghost use Rattle.gtfs_runs.specs.steps.FilledApart.{AreApart};
ghost use Rattle.gtfs_times.specs.TimedRows.{is_interpolated, lacks_time};

use crate::event::Event;
use crate::filled_lane::FilledLane;
use crate::list_lane::ListLane;
use gtfs_feed::Feed;
use gtfs_field::OutOfMemory;
use gtfs_rows::StopRow;
use gtfs_times::Times;
use std::alloc::Global;

// The lists of which each event is at a stop time with a time of its own, and the others.
pub(crate) fn split(
    alloc: Global,
    feed: &Feed,
    lists: Vec<ListLane>,
    times: Times,
) -> Result<(Vec<ListLane>, Vec<FilledLane>), OutOfMemory>
    requires { is_interpolated times ≡ false
        → All (λ lane. has_untimed (content_of_parts feed.now) lane ≡ false)
        (map list_value lists.items) }
    ensures { IfOk result (λ apart. AreApart (content_of_parts feed.now)
        (map list_value lists.items) (map list_value apart.0.items)
        (map filled_value apart.1.items)) }
{
    match times {
        Times::Given => Ok((lists, Vec::new(alloc))),
        Times::Interpolated => by_times(alloc, feed, lists),
    }
}

// The same where an event may be at a stop time without a time of its own.
fn by_times(
    alloc: Global,
    feed: &Feed,
    lists: Vec<ListLane>,
) -> Result<(Vec<ListLane>, Vec<FilledLane>), OutOfMemory>
    ensures { IfOk result (λ apart. AreApart (content_of_parts feed.now)
        (map list_value lists.items) (map list_value apart.0.items)
        (map filled_value apart.1.items)) }
{
    let mut given = Vec::new(alloc);
    let mut filled = Vec::new(alloc);
    for list in lists {
        push_list(feed, list, &mut given, &mut filled)?;
    }
    Ok((given, filled))
}

// Adds a list to those among which it belongs.
fn push_list(
    feed: &Feed,
    list: ListLane,
    given: &mut Vec<ListLane>,
    filled: &mut Vec<FilledLane>,
) -> Result<(), OutOfMemory>
    ensures { OnOk result ((lists : List LaneValue) → AreApart (content_of_parts feed.now) lists
        (map list_value given.old.items) (map filled_value filled.old.items)
        → AreApart (content_of_parts feed.now) (lists ++ list_value list ∷ [])
        (map list_value given.new.items) (map filled_value filled.new.items)) }
{
    if has_untimed(feed, list.as_slice()) {
        filled.push(FilledLane::new(list))?;
    } else {
        given.push(list)?;
    }
    Ok(())
}

// Whether one of these events is at a stop time without a time of its own.
fn has_untimed(feed: &Feed, events: &[Event]) -> bool
    ensures { result ≡ list_any (is_untimed_at (content_of_parts feed.now)) events.now }
{
    events.iter().any(|event| is_untimed_at(feed, event))
}

// Whether an event is at a stop time without a time of its own.
fn is_untimed_at(feed: &Feed, event: &Event) -> bool
    ensures { result ≡ is_untimed_at (content_of_parts feed.now) event.now }
{
    feed.soundness();
    if event.trip.0 >= feed.trip_count() {
        return false;
    }
    let rows = feed.trip_rows(event.trip);
    event.row < rows.len() && !rows[event.row].is_timed()
}
