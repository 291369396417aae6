//! Stops that lie close together, and become one where the words ask for that.

use crate::fixtures::{FIRST_LINE, asked, assert_ends, folders, put_feed};
use std::test::Fail;

// The rows of the trip at a stop M1.
const AT_M1: &[u8] = b"trip_id,arrival_time,departure_time,stop_id,stop_sequence\n\
T1,08:00:00,08:00:00,M1,1\n\
T1,08:10:00,08:10:00,S2,2\n";

// The report where M1 becomes S1.
const NEAR: &str = "B\tstop\tM1\tS1\n\
joined agency 1\n\
joined stop 2\n\
joined route 1\n\
joined service 1\n\
joined trip 1\n\
near stop 1\n";

// The report where it does not.
const FAR: &str = "B\ttrip\tT1\tT1_merged_1\n\
joined agency 1\n\
joined stop 2\n\
joined route 1\n\
joined service 1\n\
joined trip 0\n\
near stop 0\n";

// The stops of the second feed with M1 in the place of S1, what `--near` is given, and the report.
const MOVED: &[(&[u8], &str, &str)] = &[
    (
        b"stop_id,stop_name,stop_lat,stop_lon\n\
M1,Mill,52.5000005,13.4\nS2,Lake,52.6,13.5\nS3,Hill,52.7,13.6\n",
        "1",
        NEAR,
    ),
    (
        b"stop_id,stop_name,stop_lat,stop_lon\n\
M1,Mill,52.5000005,13.4\nS2,Lake,52.6,13.5\nS3,Hill,52.7,13.6\n",
        "0",
        FAR,
    ),
    (
        b"stop_id,stop_name,stop_lat,stop_lon\n\
M1,Mill,52.500001,13.4\nS2,Lake,52.6,13.5\nS3,Hill,52.7,13.6\n",
        "1",
        NEAR,
    ),
    (
        b"stop_id,stop_name,stop_lat,stop_lon\n\
M1,Mill,52.500001001,13.4\nS2,Lake,52.6,13.5\nS3,Hill,52.7,13.6\n",
        "1",
        FAR,
    ),
];

// M1 and M2 in the place of S1, and the rows of the trip at both.
const TWO_STOPS: &[u8] = b"stop_id,stop_name,stop_lat,stop_lon\n\
M1,Mill,52.5,13.4\nM2,Mill,52.5,13.4\nS2,Lake,52.6,13.5\nS3,Hill,52.7,13.6\n";

const AT_BOTH: &[u8] = b"trip_id,arrival_time,departure_time,stop_id,stop_sequence\n\
T1,08:00:00,08:00:00,M1,1\n\
T1,08:05:00,08:05:00,M2,2\n\
T1,08:10:00,08:10:00,S2,3\n";

const TWO_NEAR: &str = "B\tstop\tM1\tS1\n\
B\tstop\tM2\tS1\n\
B\ttrip\tT1\tT1_merged_1\n\
joined agency 1\n\
joined stop 2\n\
joined route 1\n\
joined service 1\n\
joined trip 0\n\
near stop 2\n";

const THREE_LINES: &str =
    "@1711958400/T1/28800/1/20240401\t2024-04-01 08:00:00+00:00\tS1\t10\t\ts\n\
@1711958400/T1_merged_1/28800/1/20240401\t2024-04-01 08:00:00+00:00\tS1\t10\t\ts\n\
@1711958700/T1_merged_1/28800/2/20240401\t2024-04-01 08:05:00+00:00\tS1\t10\t\ts\n";

#[test]
fn a_stop_becomes_one_within_the_distance(rt: HostRuntime) -> Result<(), Fail> {
    for &(stops, near, report) in MOVED {
        let mut folders = folders(rt.alloc())?;
        put_feed(&mut folders, "f2")?;
        folders.put("f2", "stops.txt", stops)?;
        folders.put("f2", "stop_times.txt", AT_M1)?;
        let words = ["gtfs", "merge", "f1", "f2", "out", "--near", near];
        assert_ends(&rt, rt.alloc(), &mut folders, &words, (0, report, ""))?;
        if report == NEAR {
            let board = asked("out", "z1", "S1");
            assert_ends(&rt, rt.alloc(), &mut folders, &board, (0, FIRST_LINE, ""))?;
        }
    }
    Ok(())
}

#[test]
fn two_stops_become_one(rt: HostRuntime) -> Result<(), Fail> {
    let mut folders = folders(rt.alloc())?;
    put_feed(&mut folders, "f2")?;
    folders.put("f2", "stops.txt", TWO_STOPS)?;
    folders.put("f2", "stop_times.txt", AT_BOTH)?;
    let words = ["gtfs", "merge", "f1", "f2", "out", "--near", "0"];
    assert_ends(&rt, rt.alloc(), &mut folders, &words, (0, TWO_NEAR, ""))?;
    let board = asked("out", "z1", "S1");
    assert_ends(&rt, rt.alloc(), &mut folders, &board, (0, THREE_LINES, ""))
}

// The folders are not looked at.
#[test]
fn a_bad_distance_is_told_first(rt: HostRuntime) -> Result<(), Fail> {
    for near in ["", "x", "1.5", "2147483648"] {
        let mut folders = folders(rt.alloc())?;
        let words = ["gtfs", "merge", "none", "none", "", "--near", near];
        let ended = (2, "", "gtfs: bad value of --near\n");
        assert_ends(&rt, rt.alloc(), &mut folders, &words, ended)?;
    }
    Ok(())
}
