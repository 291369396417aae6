//! Times that are filled in where the words ask for that.

use crate::fixtures::{FIRST_LINE, asked, assert_ends, boards_asked, folders, timetable_asked};
use std::test::Fail;

// Two stop times without times between one at 08:00:00 and one 601 seconds later.
const BETWEEN: &[u8] = b"trip_id,arrival_time,departure_time,stop_id,stop_sequence\n\
T1,08:00:00,08:00:00,S1,1\n\
T1,,,S3,2\n\
T1,,,S1,5\n\
T1,08:10:01,08:10:01,S2,9\n";

const TWO_LINES: &str = "@1711958400/T1/28800/1/20240401\t2024-04-01 08:00:00+00:00\tS1\t10\t\ts\n\
@1711958800/T1/28800/5/20240401\t2024-04-01 08:06:40+00:00\tS1\t10\t\tsi\n";

const FILLED_SHEET: &str =
    "== R1 - 20240401\ntrip\tT1\nS1\t08:00:00\nS3\t08:03:20\nS1\t08:06:40\nS2\t08:10:01\n";

const GIVEN_SHEET: &str = "== R1 - 20240401\ntrip\tT1\nS1\t08:00:00\nS3\t-\nS1\t-\nS2\t08:10:01\n";

const FILLED_BOARD: [&str; 12] = [
    "gtfs",
    "board",
    "f1",
    "--zone",
    "z1",
    "--stop",
    "S1",
    "--from",
    "20240401",
    "--until",
    "20240402",
    "--interpolate",
];

const FILLED_TIMETABLE: [&str; 8] = [
    "gtfs",
    "timetable",
    "f1",
    "--route",
    "R1",
    "--date",
    "20240401",
    "--interpolate",
];

#[test]
fn a_board_has_filled_times_where_that_is_asked(rt: HostRuntime) -> Result<(), Fail> {
    let mut folders = folders(rt.alloc())?;
    folders.put("f1", "stop_times.txt", BETWEEN)?;
    let given = asked("f1", "z1", "S1");
    assert_ends(&rt, rt.alloc(), &mut folders, &given, (0, FIRST_LINE, ""))?;
    assert_ends(
        &rt,
        rt.alloc(),
        &mut folders,
        &FILLED_BOARD,
        (0, TWO_LINES, ""),
    )
}

const FILLED_BOARDS: [&str; 8] = [
    "gtfs",
    "boards",
    "f1",
    "--zone",
    "z1",
    "--requests",
    "r1",
    "--interpolate",
];

const GIVEN_PAGE: &str = "== S1 20240401 20240402\n\
@1711958400/T1/28800/1/20240401\t2024-04-01 08:00:00+00:00\tS1\t10\t\ts\n";

const FILLED_PAGE: &str = "== S1 20240401 20240402\n\
@1711958400/T1/28800/1/20240401\t2024-04-01 08:00:00+00:00\tS1\t10\t\ts\n\
@1711958800/T1/28800/5/20240401\t2024-04-01 08:06:40+00:00\tS1\t10\t\tsi\n";

#[test]
fn boards_have_filled_times_where_that_is_asked(rt: HostRuntime) -> Result<(), Fail> {
    let mut folders = folders(rt.alloc())?;
    folders.put("f1", "stop_times.txt", BETWEEN)?;
    folders.put(".", "r1", b"S1\t20240401\t20240402\n")?;
    let given = boards_asked("f1", "z1", "r1");
    assert_ends(&rt, rt.alloc(), &mut folders, &given, (0, GIVEN_PAGE, ""))?;
    assert_ends(
        &rt,
        rt.alloc(),
        &mut folders,
        &FILLED_BOARDS,
        (0, FILLED_PAGE, ""),
    )
}

#[test]
fn a_timetable_has_filled_times_where_that_is_asked(rt: HostRuntime) -> Result<(), Fail> {
    let mut folders = folders(rt.alloc())?;
    folders.put("f1", "stop_times.txt", BETWEEN)?;
    let given = timetable_asked("f1", "R1");
    assert_ends(&rt, rt.alloc(), &mut folders, &given, (0, GIVEN_SHEET, ""))?;
    assert_ends(
        &rt,
        rt.alloc(),
        &mut folders,
        &FILLED_TIMETABLE,
        (0, FILLED_SHEET, ""),
    )
}
