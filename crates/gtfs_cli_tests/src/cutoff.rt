//! Merges of one feed until a service day and of another from it on.

use crate::assertions::assert_is;
use crate::fixtures::{FIRST_LINE, asked, assert_ends, folders, folders_failing_at, put_feed};
use gtfs_table::{Folders, MemoryFolders};
use std::alloc::Global;
use std::process::Abort;
use std::test::Fail;

// The service of the feed on three days.
const THREE_DAYS: &[u8] =
    b"service_id,monday,tuesday,wednesday,thursday,friday,saturday,sunday,start_date,end_date\n\
C1,1,1,1,1,1,1,1,20240401,20240403\n";

// The trip of the feed two hours later.
const AT_TEN: &[u8] = b"trip_id,arrival_time,departure_time,stop_id,stop_sequence\n\
T1,10:00:00,10:00:00,S1,1\n\
T1,10:10:00,10:10:00,S2,2\n";

// It departs after midnight, still on the service day before.
const AFTER_MIDNIGHT: &[u8] = b"trip_id,arrival_time,departure_time,stop_id,stop_sequence\n\
T1,25:10:00,25:10:00,S1,1\n\
T1,25:20:00,25:20:00,S2,2\n";

// The stops of the feed with M1 in the place of S1, and the rows of the trip at it.
const M1_FOR_S1: &[u8] = b"stop_id,stop_name,stop_lat,stop_lon\n\
M1,Mill,52.5,13.4\nS2,Lake,52.6,13.5\nS3,Hill,52.7,13.6\n";

const AT_M1: &[u8] = b"trip_id,arrival_time,departure_time,stop_id,stop_sequence\n\
T1,08:00:00,08:00:00,M1,1\n\
T1,08:10:00,08:10:00,S2,2\n";

// The report of two feeds of which only the services and the trips differ once they are cut.
const CUT: &str = "B\tservice\tC1\tC1_merged_1\n\
B\ttrip\tT1\tT1_merged_1\n\
joined agency 1\n\
joined stop 3\n\
joined route 1\n\
joined service 0\n\
joined trip 0\n";

// The same where near stops are counted.
const CUT_AND_NEAR: &str = "B\tservice\tC1\tC1_merged_1\n\
B\ttrip\tT1\tT1_merged_1\n\
joined agency 1\n\
joined stop 3\n\
joined route 1\n\
joined service 0\n\
joined trip 0\n\
near stop 0\n";

// The words that ask for a merge at a cutoff.
fn merge_at(day: &str) -> [&str; 7] {
    ["gtfs", "merge", "f1", "f2", "out", "--cutoff", day]
}

// The words that ask for a board of the merged feed until this day.
fn board_until(day: &str) -> [&str; 11] {
    [
        "gtfs", "board", "out", "--zone", "z1", "--stop", "S1", "--from", "20240401", "--until",
        day,
    ]
}

// The feed in the folders f1 and f2.
fn two_feeds(alloc: Global) -> Result<MemoryFolders, Fail> {
    let mut folders = folders(alloc)?;
    put_feed(&mut folders, "f2")?;
    Ok(folders)
}

// The calendar of the merged feed has these rows.
fn assert_calendar(
    rt: &impl Abort,
    alloc: Global,
    folders: &mut MemoryFolders,
    rows: &str,
) -> Result<(), Fail> {
    let Some(text) = folders.read(alloc, "out", "calendar.txt")? else {
        return Err("no calendar".into());
    };
    let (_, found) = str::from_utf8(&text)?.split_once('\n').ok_or("no line")?;
    assert_is(rt, found, rows, "calendar");
    Ok(())
}

// Two days of the first feed, and the third one of the second.
#[test]
fn each_feed_has_its_days(rt: HostRuntime) -> Result<(), Fail> {
    let mut folders = two_feeds(rt.alloc())?;
    folders.put("f1", "calendar.txt", THREE_DAYS)?;
    folders.put("f2", "calendar.txt", THREE_DAYS)?;
    folders.put("f2", "stop_times.txt", AT_TEN)?;
    let words = merge_at("20240403");
    assert_ends(&rt, rt.alloc(), &mut folders, &words, (0, CUT, ""))?;
    let rows = "C1,1,1,1,1,1,1,1,20240401,20240402\n\
C1_merged_1,1,1,1,1,1,1,1,20240403,20240403\n";
    assert_calendar(&rt, rt.alloc(), &mut folders, rows)?;
    let lines = "@1711958400/T1/28800/1/20240401\t2024-04-01 08:00:00+00:00\tS1\t10\t\ts\n\
@1712044800/T1/28800/1/20240402\t2024-04-02 08:00:00+00:00\tS1\t10\t\ts\n\
@1712138400/T1_merged_1/36000/1/20240403\t2024-04-03 10:00:00+00:00\tS1\t10\t\ts\n";
    let board = board_until("20240404");
    assert_ends(&rt, rt.alloc(), &mut folders, &board, (0, lines, ""))
}

// A feed and itself at these cutoffs: the rows of the calendar, and the board.
const WITH_ITSELF: &[(&str, &str, &str)] = &[
    (
        "20240402",
        "C1,1,1,1,1,1,1,1,20240401,20240401\nC1_merged_1,0,0,0,0,0,0,0,20240402,20240402\n",
        FIRST_LINE,
    ),
    (
        "20240401",
        "C1,0,0,0,0,0,0,0,20240401,20240401\nC1_merged_1,1,1,1,1,1,1,1,20240401,20240401\n",
        "@1711958400/T1_merged_1/28800/1/20240401\t2024-04-01 08:00:00+00:00\tS1\t10\t\ts\n",
    ),
    (
        "19000101",
        "C1,0,0,0,0,0,0,0,19000101,19000101\nC1_merged_1,1,1,1,1,1,1,1,20240401,20240401\n",
        "@1711958400/T1_merged_1/28800/1/20240401\t2024-04-01 08:00:00+00:00\tS1\t10\t\ts\n",
    ),
    (
        "99981231",
        "C1,1,1,1,1,1,1,1,20240401,20240401\nC1_merged_1,0,0,0,0,0,0,0,99981231,99981231\n",
        FIRST_LINE,
    ),
];

#[test]
fn one_side_of_a_cutoff_may_be_empty(rt: HostRuntime) -> Result<(), Fail> {
    for &(day, rows, lines) in WITH_ITSELF {
        let mut folders = two_feeds(rt.alloc())?;
        let words = merge_at(day);
        assert_ends(&rt, rt.alloc(), &mut folders, &words, (0, CUT, ""))?;
        assert_calendar(&rt, rt.alloc(), &mut folders, rows)?;
        let board = asked("out", "z1", "S1");
        assert_ends(&rt, rt.alloc(), &mut folders, &board, (0, lines, ""))?;
    }
    Ok(())
}

// The merged feed passes, with a warning for the service that is never active.
#[test]
fn a_cut_feed_passes(rt: HostRuntime) -> Result<(), Fail> {
    let mut folders = two_feeds(rt.alloc())?;
    let words = merge_at("20240402");
    assert_ends(&rt, rt.alloc(), &mut folders, &words, (0, CUT, ""))?;
    let report = "W07 calendar.txt:3 service_id service never active\nerrors 0 warnings 1\n";
    let check = ["gtfs", "check", "out"];
    assert_ends(&rt, rt.alloc(), &mut folders, &check, (0, report, ""))
}

// A departure at 25:10:00 is on the service day before the cutoff.
#[test]
fn the_night_stays_with_the_day_before(rt: HostRuntime) -> Result<(), Fail> {
    let mut folders = two_feeds(rt.alloc())?;
    folders.put("f1", "stop_times.txt", AFTER_MIDNIGHT)?;
    let words = merge_at("20240402");
    assert_ends(&rt, rt.alloc(), &mut folders, &words, (0, CUT, ""))?;
    let line = "@1712020200/T1/90600/1/20240401\t2024-04-02 01:10:00+00:00\tS1\t10\t\ts\n";
    let board = board_until("20240404");
    assert_ends(&rt, rt.alloc(), &mut folders, &board, (0, line, ""))
}

// Near stops of the feeds that are cut.
#[test]
fn a_stop_may_become_one_at_a_cutoff(rt: HostRuntime) -> Result<(), Fail> {
    let mut folders = two_feeds(rt.alloc())?;
    folders.put("f1", "calendar.txt", THREE_DAYS)?;
    folders.put("f2", "calendar.txt", THREE_DAYS)?;
    folders.put("f2", "stops.txt", M1_FOR_S1)?;
    folders.put("f2", "stop_times.txt", AT_M1)?;
    let words = [
        "gtfs",
        "merge",
        "--cutoff=20240403",
        "f1",
        "f2",
        "out",
        "--near=0",
    ];
    let report = "B\tstop\tM1\tS1\n\
B\tservice\tC1\tC1_merged_1\n\
B\ttrip\tT1\tT1_merged_1\n\
joined agency 1\n\
joined stop 2\n\
joined route 1\n\
joined service 0\n\
joined trip 0\n\
near stop 1\n";
    assert_ends(&rt, rt.alloc(), &mut folders, &words, (0, report, ""))?;
    let lines = "@1711958400/T1/28800/1/20240401\t2024-04-01 08:00:00+00:00\tS1\t10\t\ts\n\
@1712044800/T1/28800/1/20240402\t2024-04-02 08:00:00+00:00\tS1\t10\t\ts\n\
@1712131200/T1_merged_1/28800/1/20240403\t2024-04-03 08:00:00+00:00\tS1\t10\t\ts\n";
    let board = board_until("20240404");
    assert_ends(&rt, rt.alloc(), &mut folders, &board, (0, lines, ""))
}

// What `--near` and `--cutoff` are given, and which of them is bad: the distance is judged first.
const BAD: &[(&str, &str, &str)] = &[
    ("1", "", "gtfs: bad value of --cutoff\n"),
    ("1", "tomorrow", "gtfs: bad value of --cutoff\n"),
    ("1", "@1711958400", "gtfs: bad value of --cutoff\n"),
    ("1", "2024-04-01", "gtfs: bad value of --cutoff\n"),
    ("1", "2024041", "gtfs: bad value of --cutoff\n"),
    ("1", "20230229", "gtfs: bad value of --cutoff\n"),
    ("1", "18991231", "gtfs: bad value of --cutoff\n"),
    ("1", "99990101", "gtfs: bad value of --cutoff\n"),
    ("1", "99991231", "gtfs: bad value of --cutoff\n"),
    ("x", "99990101", "gtfs: bad value of --near\n"),
    ("2147483648", "20240403", "gtfs: bad value of --near\n"),
];

// The folders are not looked at.
#[test]
fn a_bad_cutoff_is_told_after_a_bad_distance(rt: HostRuntime) -> Result<(), Fail> {
    for &(near, cutoff, line) in BAD {
        let mut folders = folders(rt.alloc())?;
        let words = [
            "gtfs", "merge", "none", "none", "", "--cutoff", cutoff, "--near", near,
        ];
        assert_ends(&rt, rt.alloc(), &mut folders, &words, (2, "", line))?;
    }
    Ok(())
}

// Both options ask the device for nothing more.
#[test]
fn a_device_that_fails_stops_a_merge_with_options(rt: HostRuntime) -> Result<(), Fail> {
    let words = [
        "gtfs",
        "merge",
        "f1",
        "f2",
        "out",
        "--near=2147483647",
        "--cutoff=20240402",
    ];
    for call in 1..31 {
        let mut folders = folders_failing_at(rt.alloc(), call)?;
        put_feed(&mut folders, "f2")?;
        let ended = match call {
            ..=10 => (3, "", "gtfs: f1 cannot be read\n"),
            11..=20 => (3, "", "gtfs: f2 cannot be read\n"),
            21..=29 => (3, "", "gtfs: out cannot be written\n"),
            _ => (0, CUT_AND_NEAR, ""),
        };
        assert_ends(&rt, rt.alloc(), &mut folders, &words, ended)?;
    }
    Ok(())
}
