//! Checks with advice, and the day of one.

use crate::fixtures::{assert_ends, folders};
use crate::outputs::assert_cut;
use std::test::Fail;

// What is said of the feed: no trip stops at its third stop, and its trip has no headsign.
const ADVICE: &str = "A03 stops.txt\tS3\tno trip stops here\n\
A13 trips.txt\tT1\tno headsign\n\
errors 0 warnings 0 advice 2\n";

// The same with a day on which its service is about to end.
const ON_ITS_LAST_DAY: &str = "A03 stops.txt\tS3\tno trip stops here\n\
A13 trips.txt\tT1\tno headsign\n\
A23 calendar.txt\t20240401\tfewer than seven days left\n\
errors 0 warnings 0 advice 3\n";

const IN_SUMMARY: &str = "A03 stops.txt\tS3\tno trip stops here\t1\n\
A13 trips.txt\tT1\tno headsign\t1\n\
errors 0 warnings 0 advice 2\n";

const WITHOUT_ADVISE: &str = "gtfs: --day needs --advise\n";

const BAD_DAY: &str = "gtfs: bad value of --day\n";

// The words of a check, and how it ends.
type Case<'a> = (&'a [&'a str], (u8, &'a str, &'a str));

const CASES: &[Case<'_>] = &[
    (&["gtfs", "check", "f1", "--advise"], (0, ADVICE, "")),
    (
        &["gtfs", "check", "--advise", "f1", "--values"],
        (0, ADVICE, ""),
    ),
    (
        &["gtfs", "check", "f1", "--summary", "--advise"],
        (0, IN_SUMMARY, ""),
    ),
    (
        &["gtfs", "check", "f1", "--advise", "--day", "20240327"],
        (0, ON_ITS_LAST_DAY, ""),
    ),
    (
        &["gtfs", "check", "f1", "--advise", "--day", "20240326"],
        (0, ADVICE, ""),
    ),
    (
        &["gtfs", "check", "f1", "--day", "20240327"],
        (2, "", WITHOUT_ADVISE),
    ),
    (
        &["gtfs", "check", "f1", "--day", "soon"],
        (2, "", WITHOUT_ADVISE),
    ),
    (
        &["gtfs", "check", "f1", "--advise", "--day", "99990101"],
        (2, "", BAD_DAY),
    ),
    (
        &["gtfs", "check", "none", "--advise", "--day", "soon"],
        (2, "", BAD_DAY),
    ),
    (
        &["gtfs", "check", "none", "--advise", "--day", "20240327"],
        (3, "", "gtfs: none is not there\n"),
    ),
];

#[test]
fn advice_is_told_and_its_day_judged(rt: HostRuntime) -> Result<(), Fail> {
    let mut folders = folders(rt.alloc())?;
    for &(words, ends) in CASES {
        assert_ends(&rt, rt.alloc(), &mut folders, words, ends)?;
    }
    Ok(())
}

#[test]
fn advice_may_be_cut_at_each_byte(rt: HostRuntime) -> Result<(), Fail> {
    let mut folders = folders(rt.alloc())?;
    let words = ["gtfs", "check", "f1", "--advise"];
    assert_cut(&rt, rt.alloc(), &mut folders, &words, ADVICE)
}

const BAD_TIME: &str = "trip_id,arrival_time,departure_time,stop_id,stop_sequence\n\
T1,08:00:00,08:00:00,S1,1\n\
T1,08:10:00,8h20,S2,2\n";

#[test]
fn a_feed_with_an_error_has_no_advice(rt: HostRuntime) -> Result<(), Fail> {
    let mut folders = folders(rt.alloc())?;
    folders.put("f1", "stop_times.txt", BAD_TIME.as_bytes())?;
    let report = "E07 stop_times.txt:3 departure_time value unreadable\nerrors 1 warnings 0\n";
    let words = ["gtfs", "check", "f1", "--advise", "--day", "20240327"];
    assert_ends(&rt, rt.alloc(), &mut folders, &words, (1, report, ""))
}

const TWO_MORE_STOPS: &str = "stop_id,stop_name,stop_lat,stop_lon\n\
S1,Mill,52.5,13.4\n\
S2,Lake,52.6,13.5\n\
S3,Hill,52.7,13.6\n\
S4,Ford,52.8,13.7\n\
S5,Pond,52.9,13.8\n";

#[test]
fn a_summary_counts_the_advice_of_each_code(rt: HostRuntime) -> Result<(), Fail> {
    let mut folders = folders(rt.alloc())?;
    folders.put("f1", "stops.txt", TWO_MORE_STOPS.as_bytes())?;
    let report = "A03 stops.txt\tS3\tno trip stops here\t3\n\
A13 trips.txt\tT1\tno headsign\t1\n\
errors 0 warnings 0 advice 4\n";
    let words = ["gtfs", "check", "f1", "--advise", "--summary"];
    assert_ends(&rt, rt.alloc(), &mut folders, &words, (0, report, ""))
}
