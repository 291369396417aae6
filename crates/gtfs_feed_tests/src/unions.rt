//! The lanes of a stop asked together, moment by moment, beside the plain list of its events.
ghost use Rattle.std.specs.Prelude.{◌<◌, length};

use crate::assertions::assert_is;
use gtfs_feed::Feed;
use gtfs_rows::{ServiceNo, StopNo, TripNo};
use gtfs_runs::{Event, Lane, Moment, Steps, StopLanes, Times, flat_events};
use std::alloc::Global;
use std::process::Abort;
use std::test::Fail;

// The first event of the list, which ascends,
// that belongs to the service and lies above the moment.
fn first_listed(
    events: &[(ServiceNo, Event)],
    service: ServiceNo,
    moment: &Moment,
) -> Option<Event> {
    for (other, event) in events {
        if *other == service && lies_above(moment, event) {
            return Some(*event);
        }
    }
    None
}

// Whether an event lies above a moment: by its second, trip, run and sequence.
fn lies_above(moment: &Moment, event: &Event) -> bool {
    let event_position = (
        i64::from(event.at),
        event.trip.0,
        event.run,
        i64::from(event.seq),
    );
    event_position > (moment.at, moment.trip.0, moment.run, moment.seq)
}

// The lesser of two events, where there are two.
fn lesser(one: Option<Event>, other: Option<Event>) -> Option<Event> {
    match (one, other) {
        (Some(one), Some(other)) => Some(one.min(other)),
        (Some(one), None) => Some(one),
        (None, other) => other,
    }
}

// The least event of the lanes of a service above the moment.
fn least<L: Lane>(
    feed: &Feed,
    lanes: &[L],
    service: ServiceNo,
    moment: &Moment,
    steps: &mut Steps,
) -> Option<Event> {
    let mut found = None;
    for lane in lanes {
        if lane.service() == service {
            found = lesser(found, lane.first_above(feed, moment, steps));
        }
    }
    found
}

// Positions around an event: itself, and those that differ from it in one part.
fn around(event: &Event) -> [Moment; 9] {
    let at = Moment {
        at: i64::from(event.at),
        trip: event.trip,
        run: event.run,
        seq: i64::from(event.seq),
    };
    let trip = event.trip.0;
    [
        at,
        Moment {
            at: at.at - 1,
            ..at
        },
        Moment {
            at: at.at + 1,
            ..at
        },
        Moment {
            trip: TripNo(trip.saturating_sub(1)),
            ..at
        },
        Moment {
            trip: TripNo(trip.saturating_add(1)),
            ..at
        },
        Moment {
            run: event.run.saturating_sub(1),
            ..at
        },
        Moment {
            run: event.run.saturating_add(1),
            ..at
        },
        Moment {
            seq: at.seq - 1,
            ..at
        },
        Moment {
            seq: at.seq + 1,
            ..at
        },
    ]
}

// For every service and every position around an event of the stop, the least event that a lane of
// the service has above the position is the first that the plain list has.
fn assert_union(
    rt: &impl Abort,
    alloc: Global,
    feed: &Feed,
    stop: StopNo,
    times: Times,
) -> Result<(), Fail>
    requires { stop.0 < length feed.now.stops }
{
    let events = flat_events(alloc, feed, stop, times)?;
    let (lanes, mut steps) = StopLanes::build(alloc, feed, stop, times)?;
    for (_, event) in &events {
        for moment in around(event) {
            for number in 0..feed.service_count() {
                let service = ServiceNo(number);
                let lists = least(feed, lanes.lists(), service, &moment, &mut steps);
                let periods = least(feed, lanes.periods(), service, &moment, &mut steps);
                let wanted = first_listed(&events, service, &moment);
                let filled = least(feed, lanes.filled(), service, &moment, &mut steps);
                let found = lesser(lesser(lists, periods), filled);
                assert_is(rt, found, wanted, format_args!("{moment:?}"));
            }
        }
    }
    Ok(())
}

/// The lanes of each stop of a feed have what the plain list has, wherever they are asked,
/// under all times.
pub(crate) fn assert_unions(rt: &impl Abort, alloc: Global, feed: &Feed) -> Result<(), Fail> {
    for number in 0..feed.stop_count() {
        assert_union(rt, alloc, feed, StopNo(number), Times::Given)?;
        assert_union(rt, alloc, feed, StopNo(number), Times::Interpolated)?;
    }
    Ok(())
}
