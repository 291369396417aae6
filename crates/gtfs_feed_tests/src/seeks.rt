//! A lane that is asked from positions before, at, between and past its events,
//! and by ids that no trip has.

use crate::assertions::{assert_holds, assert_is};
use crate::named::stop_named;
use gtfs_feed::Feed;
use gtfs_fixtures::feed_with;
use gtfs_runs::{Event, Lane, Seek, StepLane, Steps, StopLanes, Times};
use std::mem::size_of;
use std::process::Abort;
use std::test::Fail;

// A second, the id of a trip, a run and a sequence,
// with the second and the trip of the least event above.
type Asked = (i64, &'static str, u32, i64, Option<(u32, usize)>);

// The second and the trip of an event.
fn place_of(event: Option<Event>) -> Option<(u32, usize)> {
    let event = event?;
    Some((event.at, event.trip.0))
}

fn assert_first<L: Lane>(
    rt: &impl Abort,
    feed: &Feed,
    lane: &L,
    steps: &mut Steps,
    asked: &[Asked],
) {
    for (at, trip, run, seq, wanted) in asked {
        let seek = Seek {
            at: *at,
            trip,
            run: *run,
            seq: *seq,
        };
        let found = lane.first_after(feed, &seek, steps);
        assert_is(rt, place_of(found), *wanted, format_args!("{seek:?}"));
    }
}

// Runs of the trip T1 at 21,600 and 23,400 with sequence 1.
const OF_A_PERIOD: &[Asked] = &[
    (i64::MIN, "", 0, -1, Some((21_600, 0))),
    (21_599, "T9", 0, 0, Some((21_600, 0))),
    (21_600, "", 3_599_999, 9, Some((21_600, 0))),
    (21_600, "T0", u32::MAX, i64::MAX, Some((21_600, 0))),
    (21_600, "T", 21_600, 1, Some((21_600, 0))),
    (21_600, "T1", 0, 0, Some((21_600, 0))),
    (21_600, "T1", 21_600, 0, Some((21_600, 0))),
    (21_600, "T1", 21_600, 1, Some((23_400, 0))),
    (21_600, "T1", 21_601, 0, Some((23_400, 0))),
    (21_600, "T10", 0, -1, Some((23_400, 0))),
    (21_600, "U", 0, i64::MIN, Some((23_400, 0))),
    (23_399, "T1", 0, 0, Some((23_400, 0))),
    (23_400, "T1", 23_400, 0, Some((23_400, 0))),
    (23_400, "T1", 23_400, 1, None),
    (23_400, "t1", 0, -1, None),
    (23_401, "", 0, -1, None),
    (i64::MAX, "", 0, -1, None),
];

#[test]
fn a_period_is_asked_from_any_position(rt: HostRuntime) -> Result<(), Fail> {
    let frequencies = "trip_id,start_time,end_time,headway_secs\nT1,06:00:00,07:00:00,1800\n";
    let feed = feed_with(&rt, rt.alloc(), &[("frequencies.txt", frequencies)])?;
    let stop = stop_named(&rt, &feed, "S1");
    let (lanes, mut steps) = StopLanes::build(rt.alloc(), &feed, stop, Times::Given)?;
    let [lane] = lanes.periods() else {
        panic!(rt; "{} periods", lanes.periods().len());
    };
    assert_first(&rt, &feed, lane, &mut steps, OF_A_PERIOD);
    Ok(())
}

// The trips T10 and T2 at 90,600, with the numbers 0 and 1.
// No trip has the ids T0, T100, T11 and T20.
const OF_A_LIST: &[Asked] = &[
    (i64::MIN, "", 0, -1, Some((90_600, 0))),
    (90_600, "T0", 3_599_999, 9, Some((90_600, 0))),
    (90_600, "T10", 90_600, 0, Some((90_600, 0))),
    (90_600, "T10", 90_600, 1, Some((90_600, 1))),
    (90_600, "T100", 0, -1, Some((90_600, 1))),
    (90_600, "T11", 3_599_999, 9, Some((90_600, 1))),
    (90_600, "T2", 90_600, 0, Some((90_600, 1))),
    (90_600, "T2", 90_600, 1, None),
    (90_600, "T20", 0, -1, None),
    (90_601, "", 0, -1, None),
    (i64::MAX, "", 0, -1, None),
];

#[test]
fn a_list_is_asked_from_any_position(rt: HostRuntime) -> Result<(), Fail> {
    let trips = "route_id,service_id,trip_id\nR1,C1,T2\nR1,C1,T10\n";
    let stop_times = "trip_id,arrival_time,departure_time,stop_id,stop_sequence\n\
T2,25:10:00,25:10:00,S1,1\nT2,25:20:00,25:20:00,S2,2\nT10,25:10:00,25:10:00,S1,1\nT10,25:20:00,25:20:00,S2,2\n";
    let files = [("trips.txt", trips), ("stop_times.txt", stop_times)];
    let feed = feed_with(&rt, rt.alloc(), &files)?;
    let stop = stop_named(&rt, &feed, "S1");
    let (lanes, mut steps) = StopLanes::build(rt.alloc(), &feed, stop, Times::Given)?;
    let [lane] = lanes.lists() else {
        panic!(rt; "{} lists", lanes.lists().len());
    };
    assert_first(&rt, &feed, lane, &mut steps, OF_A_LIST);
    assert_is(&rt, steps.count(), OF_A_LIST.len() as u64, "steps");
    Ok(())
}

// The seek at the only stop time of the run that starts at a second.
fn seek_of_run(run: u32) -> Seek<'static> {
    Seek {
        at: i64::from(run),
        trip: "T1",
        run,
        seq: 1,
    }
}

// The second and the run of an event.
fn run_of(event: Option<Event>) -> Option<(u32, u32)> {
    let event = event?;
    Some((event.at, event.run))
}

// A run at each second from 0 to 3,599,998.
// A lane that walked over its runs would look at 3,000,000,000,000 of them.
#[test]
fn a_trip_of_3_599_999_runs_is_one_small_lane(rt: HostRuntime) -> Result<(), Fail> {
    let frequencies = "trip_id,start_time,end_time,headway_secs\nT1,00:00:00,999:59:59,1\n";
    let feed = feed_with(&rt, rt.alloc(), &[("frequencies.txt", frequencies)])?;
    let stop = stop_named(&rt, &feed, "S1");
    let (lanes, mut steps) = StopLanes::build(rt.alloc(), &feed, stop, Times::Given)?;
    let [lane] = lanes.periods() else {
        panic!(rt; "{} periods", lanes.periods().len());
    };
    assert_is(&rt, lanes.greatest(), 3_599_998, "the latest second");
    assert_holds(&rt, size_of::<StepLane>() <= 64, "a small lane");
    for run in 2_599_998..3_599_998 {
        let found = lane.first_after(&feed, &seek_of_run(run), &mut steps);
        assert_is(&rt, run_of(found), Some((run + 1, run + 1)), run);
    }
    let found = lane.first_after(&feed, &seek_of_run(3_599_998), &mut steps);
    assert_is(&rt, found, None, "after the last run");
    assert_is(&rt, steps.count(), 1_000_001, "steps");
    Ok(())
}
