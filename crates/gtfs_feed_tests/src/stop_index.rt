//! The departure rows of each stop.

ghost use Rattle.std.specs.Prelude.{◌<◌, length};

use crate::assertions::assert_is;
use crate::named::{stop_id, trip_id};
use crate::patterns;
use gtfs_feed::Feed;
use gtfs_fixtures::{FileText, feed_with};
use gtfs_rows::StopNo;
use gtfs_runs::{StopIndex, Times};
use std::alloc::Global;
use std::process::Abort;
use std::random::RandomSource;
use std::test::Fail;

// A change to the small dataset, and its departure rows under given and under filled times: for
// each the stop, the trip and the position.
struct Case {
    what: &'static str,
    files: &'static [FileText],
    given: &'static str,
    filled: &'static str,
}

const CASES: &[Case] = &[
    Case {
        what: "trips by their stops, their starts and their ids, and the last stop time of none",
        files: &patterns::FILES,
        given: "S1 T2 0\nS1 T5 0\nS1 T7 0\nS1 T9 0\nS1 T4 0\nS1 T1 0\nS10 T8 0\nS2 T1 1\nS2 T3 0\n",
        filled: "S1 T2 0\nS1 T5 0\nS1 T7 0\nS1 T9 0\nS1 T4 0\nS1 T1 0\nS10 T8 0\nS2 T1 1\nS2 T3 0\n",
    },
    Case {
        what: "trips by their services, and then by their starts",
        files: &[
            (
                "calendar.txt",
                "service_id,monday,tuesday,wednesday,thursday,friday,saturday,sunday,start_date,end_date\n\
C2,1,1,1,1,1,1,1,20240401,20240401\nC1,1,1,1,1,1,1,1,20240401,20240401\n",
            ),
            (
                "trips.txt",
                "route_id,service_id,trip_id\nR1,C2,T1\nR1,C1,T2\nR1,C1,T3\n",
            ),
            (
                "stop_times.txt",
                "trip_id,arrival_time,departure_time,stop_id,stop_sequence\n\
T1,07:00:00,07:00:00,S1,1\nT1,07:10:00,07:10:00,S2,2\nT2,09:00:00,09:00:00,S1,1\nT2,09:10:00,09:10:00,S2,2\n\
T3,08:00:00,08:00:00,S1,1\nT3,08:10:00,08:10:00,S2,2\n",
            ),
        ],
        given: "S1 T3 0\nS1 T2 0\nS1 T1 0\n",
        filled: "S1 T3 0\nS1 T2 0\nS1 T1 0\n",
    },
    Case {
        what: "a stop time without a time departs where times are filled",
        files: &[
            (
                "trips.txt",
                "route_id,service_id,trip_id\nR1,C1,T1\nR1,C1,T2\n",
            ),
            (
                "stop_times.txt",
                "trip_id,arrival_time,departure_time,stop_id,stop_sequence\n\
T1,08:00:00,08:00:00,S2,1\nT1,,,S1,2\nT1,09:00:00,09:00:00,S3,3\n\
T2,08:10:00,08:10:00,S2,1\nT2,08:12:00,08:12:00,S1,2\nT2,08:20:00,08:20:00,S3,3\n",
            ),
        ],
        given: "S1 T2 1\nS2 T1 0\nS2 T2 0\n",
        filled: "S1 T1 1\nS1 T2 1\nS2 T1 0\nS2 T2 0\n",
    },
    Case {
        what: "a trip that stops twice, and no pick-up",
        files: &[(
            "stop_times.txt",
            "trip_id,arrival_time,departure_time,stop_id,stop_sequence,pickup_type\n\
T1,08:00:00,08:00:00,S1,1,\nT1,08:05:00,08:05:00,S3,2,1\nT1,08:10:00,08:10:00,S1,3,2\nT1,08:15:00,08:15:00,S2,9,0\n",
        )],
        given: "S1 T1 0\nS1 T1 2\n",
        filled: "S1 T1 0\nS1 T1 2\n",
    },
];

fn assert_case<R: Abort + RandomSource>(rt: &R, alloc: Global, case: &Case) -> Result<(), Fail> {
    let feed = feed_with(rt, alloc, case.files)?;
    let given = shown(alloc, &feed, Times::Given)?;
    assert_is(rt, given.as_str(), case.given, case.what);
    let filled = shown(alloc, &feed, Times::Interpolated)?;
    assert_is(rt, filled.as_str(), case.filled, case.what);
    Ok(())
}

// The departure rows of all stops, by the numbers of the stops.
fn shown(alloc: Global, feed: &Feed, times: Times) -> Result<String, Fail> {
    let index = StopIndex::build(alloc, feed, times)?;
    let mut text = String::new(alloc);
    for number in 0..feed.stop_count() {
        push_stop(alloc, feed, &index, StopNo(number), &mut text)?;
    }
    Ok(text)
}

fn push_stop(
    alloc: Global,
    feed: &Feed,
    index: &StopIndex<'_>,
    stop: StopNo,
    text: &mut String,
) -> Result<(), Fail>
    requires { stop.0 < length index.now.feed.stops }
{
    for row in index.rows(stop) {
        let line = format!(in alloc;
            "{} {} {}\n",
            stop_id(feed, stop),
            trip_id(feed, row.trip()),
            row.row()
        )?;
        text.push_str(&line)?;
    }
    Ok(())
}

#[test]
fn each_stop_has_the_departure_rows_there(rt: HostRuntime) -> Result<(), Fail> {
    for case in CASES {
        assert_case(&rt, rt.alloc(), case)?;
    }
    Ok(())
}
