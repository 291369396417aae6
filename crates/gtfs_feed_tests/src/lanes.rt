//! The lanes of a stop, walked from their beginnings, beside the plain list of its events.

use crate::assertions::{assert_holds, assert_is};
use gtfs_feed::Feed;
use gtfs_field::OutOfMemory;
use gtfs_rows::{ServiceNo, StopNo, TripNo};
use gtfs_runs::{Event, Lane, Moment, Steps, StopIndex, StopLanes, Times, flat_events};
use std::alloc::Global;
use std::process::Abort;
use std::test::Fail;

/// How many lanes there are of lists, of periods and with filled times, and the latest second of
/// an event.
#[derive(Clone, Copy, Debug, PartialEq, Eq)]
pub(crate) struct Wanted(
    pub(crate) usize,
    pub(crate) usize,
    pub(crate) usize,
    pub(crate) u32,
);

impl Wanted {
    /// Of a stop that nothing leaves.
    pub(crate) const NONE: Wanted = Wanted(0, 0, 0, 0);
}

// Before every event.
const BEGINNING: Moment = Moment {
    at: i64::MIN,
    trip: TripNo(0),
    run: 0,
    seq: -1,
};

// No lane of a test has more events.
const MOST: usize = 100_000;

// The position of an event, or of this sequence beside it.
fn moment_at(event: &Event, seq: i64) -> Moment {
    Moment {
        at: i64::from(event.at),
        trip: event.trip,
        run: event.run,
        seq,
    }
}

// A lane's events, one after the other: one call for the first, and three for each event. A moment
// at an event finds the next one, and a moment at the sequence before finds the event.
fn walk<L: Lane>(
    rt: &impl Abort,
    feed: &Feed,
    lane: &L,
    steps: &mut Steps,
    events: &mut Vec<(ServiceNo, Event)>,
) -> Result<(), OutOfMemory> {
    let mut found = lane.first_above(feed, &BEGINNING, steps);
    for _ in 0..MOST {
        let Some(event) = found else {
            return Ok(());
        };
        events.push((lane.service(), event))?;
        found = lane.next(feed, &event, steps);
        let seq = i64::from(event.seq);
        let next = lane.first_above(feed, &moment_at(&event, seq), steps);
        assert_is(rt, next, found, "the next event");
        let same = lane.first_above(feed, &moment_at(&event, seq - 1), steps);
        assert_is(rt, same, Some(event), "the same event");
    }
    Ok(())
}

// The events of all lanes, in the order of the plain list.
fn walk_all(
    rt: &impl Abort,
    alloc: Global,
    feed: &Feed,
    lanes: &StopLanes,
    steps: &mut Steps,
) -> Result<Vec<(ServiceNo, Event)>, OutOfMemory> {
    let mut events = Vec::new(alloc);
    for lane in lanes.lists() {
        walk(rt, feed, lane, steps, &mut events)?;
    }
    for lane in lanes.periods() {
        walk(rt, feed, lane, steps, &mut events)?;
    }
    for lane in lanes.filled() {
        walk(rt, feed, lane, steps, &mut events)?;
    }
    events.sort_unstable();
    Ok(events)
}

/// The stop has as many lanes as is wanted, which together have its events, each once, and count
/// each call. So it is of those made of the feed, and of those made of an index.
pub(crate) fn assert_lanes(
    rt: &impl Abort,
    alloc: Global,
    feed: &Feed,
    stop: StopNo,
    times: Times,
    wanted: Wanted,
    what: &str,
) -> Result<(), Fail> {
    assert!(rt; stop.0 < feed.stop_count());
    let events = flat_events(alloc, feed, stop, times)?;
    let (lanes, steps) = StopLanes::build(alloc, feed, stop, times)?;
    assert_wanted(rt, &lanes, wanted, what);
    assert_walk(rt, alloc, feed, &lanes, steps, &events, what)?;
    let index = StopIndex::build(alloc, feed, times)?;
    let (lanes, steps) = lanes_in(rt, alloc, &index, stop)?;
    assert_wanted(rt, &lanes, wanted, what);
    assert_walk(rt, alloc, feed, &lanes, steps, &events, what)
}

fn lanes_in(
    rt: &impl Abort,
    alloc: Global,
    index: &StopIndex<'_>,
    stop: StopNo,
) -> Result<(StopLanes, Steps), OutOfMemory> {
    assert!(rt; stop.0 < index.feed().stop_count());
    StopLanes::from_index(alloc, index, stop)
}

// There are so many lanes of each kind.
fn assert_wanted(rt: &impl Abort, lanes: &StopLanes, wanted: Wanted, what: &str) {
    let found = Wanted(
        lanes.lists().len(),
        lanes.periods().len(),
        lanes.filled().len(),
        lanes.greatest(),
    );
    assert_is(rt, found, wanted, what);
}

// The lanes have these events, each once, and count each call.
fn assert_walk(
    rt: &impl Abort,
    alloc: Global,
    feed: &Feed,
    lanes: &StopLanes,
    mut steps: Steps,
    events: &[(ServiceNo, Event)],
    what: &str,
) -> Result<(), Fail> {
    assert_is(rt, steps.count(), 0, what);
    let found = walk_all(rt, alloc, feed, lanes, &mut steps)?;
    assert_holds(rt, found.as_slice() == events, what);
    let calls = events.len().saturating_mul(3);
    let calls = calls
        .saturating_add(lanes.lists().len())
        .saturating_add(lanes.periods().len())
        .saturating_add(lanes.filled().len());
    assert_is(rt, steps.count(), calls as u64, what);
    Ok(())
}
