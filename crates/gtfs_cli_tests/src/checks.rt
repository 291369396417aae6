//! Reports with the values of their problems, and with a line for each kind of problem.

use crate::fixtures::{CHECK, assert_ends, folders};
use crate::outputs::assert_cut;
use gtfs_table::MemoryFolders;
use std::alloc::Global;
use std::process::Abort;
use std::test::Fail;

const WITH_VALUES: [&str; 4] = ["gtfs", "check", "f1", "--values"];

const WITH_SUMMARY: [&str; 4] = ["gtfs", "check", "--summary", "f1"];

const WITH_BOTH: [&str; 5] = ["gtfs", "check", "--summary", "f1", "--values"];

// Three rows with a bad time, of which two are arrivals, and a column that is not kept.
const BAD_TIMES: &str = "trip_id,arrival_time,departure_time,stop_id,stop_sequence,note\n\
T1,8:60:00,08:00:00,S1,1,\n\
T1,08:10:00,\"08 10\t00\",S2,2,\n\
T1, 8:61:00 ,08:20:00,S3,3,\n";

const VALUES: &str = "W04 stop_times.txt:1 note column not kept\t\"\"\n\
E07 stop_times.txt:2 arrival_time value unreadable\t\"8:60:00\"\n\
E07 stop_times.txt:3 departure_time value unreadable\t\"08 10 00\"\n\
E07 stop_times.txt:4 arrival_time value unreadable\t\"8:61:00\"\n\
errors 3 warnings 1\n";

const SUMMARY: &str = "W04 stop_times.txt:1 note column not kept\t1\n\
E07 stop_times.txt:2 arrival_time value unreadable\t2\n\
E07 stop_times.txt:3 departure_time value unreadable\t1\n\
errors 3 warnings 1\n";

const BOTH: &str = "W04 stop_times.txt:1 note column not kept\t\"\"\t1\n\
E07 stop_times.txt:2 arrival_time value unreadable\t\"8:60:00\"\t2\n\
E07 stop_times.txt:3 departure_time value unreadable\t\"08 10 00\"\t1\n\
errors 3 warnings 1\n";

fn bad_folders(alloc: Global) -> Result<MemoryFolders, Fail> {
    let mut folders = folders(alloc)?;
    folders.put("f1", "stop_times.txt", BAD_TIMES.as_bytes())?;
    Ok(folders)
}

#[test]
fn values_stand_behind_their_problems(rt: HostRuntime) -> Result<(), Fail> {
    let mut folders = bad_folders(rt.alloc())?;
    assert_ends(&rt, rt.alloc(), &mut folders, &WITH_VALUES, (1, VALUES, ""))?;
    assert_cut(&rt, rt.alloc(), &mut folders, &WITH_VALUES, VALUES)
}

#[test]
fn a_kind_of_problem_has_one_line(rt: HostRuntime) -> Result<(), Fail> {
    let mut folders = bad_folders(rt.alloc())?;
    assert_ends(
        &rt,
        rt.alloc(),
        &mut folders,
        &WITH_SUMMARY,
        (1, SUMMARY, ""),
    )?;
    assert_cut(&rt, rt.alloc(), &mut folders, &WITH_SUMMARY, SUMMARY)
}

#[test]
fn a_summary_has_values_too(rt: HostRuntime) -> Result<(), Fail> {
    let mut folders = bad_folders(rt.alloc())?;
    assert_ends(&rt, rt.alloc(), &mut folders, &WITH_BOTH, (1, BOTH, ""))?;
    assert_cut(&rt, rt.alloc(), &mut folders, &WITH_BOTH, BOTH)
}

#[test]
fn a_fine_feed_has_one_line(rt: HostRuntime) -> Result<(), Fail> {
    let mut folders = folders(rt.alloc())?;
    let fine = (0, "errors 0 warnings 0\n", "");
    assert_ends(&rt, rt.alloc(), &mut folders, &CHECK, fine)?;
    assert_ends(&rt, rt.alloc(), &mut folders, &WITH_VALUES, fine)?;
    assert_ends(&rt, rt.alloc(), &mut folders, &WITH_SUMMARY, fine)?;
    assert_ends(&rt, rt.alloc(), &mut folders, &WITH_BOTH, fine)
}

// Colours that are none, and what is shown of them: 60 characters, 61, 61 of two bytes each, and 60
// of them.
const LONG: &[(&str, &str)] = &[
    (
        "123456789012345678901234567890123456789012345678901234567890",
        "123456789012345678901234567890123456789012345678901234567890",
    ),
    (
        "1234567890123456789012345678901234567890123456789012345678901",
        "123456789012345678901234567890123456789012345678901234567...",
    ),
    (
        "ääääääääääääääääääääääääääääääääääääääääääääääääääääääääääääX",
        "äääääääääääääääääääääääääääääääääääääääääääääääääääääääää...",
    ),
    (
        "ääääääääääääääääääääääääääääääääääääääääääääääääääääääääääää",
        "ääääääääääääääääääääääääääääääääääääääääääääääääääääääääääää",
    ),
];

// The files of a feed whose route has this colour, and the report with its value.
fn assert_shown(
    rt: &impl Abort,
    alloc: Global,
    folders: &mut MemoryFolders,
    colour: &str,
    shown: &str,
) -> Result<(), Fail> {
    let mut routes = String::new(alloc);
    routes.push_str("route_id,route_short_name,route_type,route_color\nR1,10,3,")?;
    routes.push_str(colour)?;
    routes.push_str("\n")?;
    folders.put("f1", "routes.txt", routes.as_bytes())?;
    let mut report = String::new(alloc);
    report.push_str("E07 routes.txt:2 route_color value unreadable\t\"")?;
    report.push_str(shown)?;
    report.push_str("\"\nerrors 1 warnings 0\n")?;
    assert_ends(rt, alloc, folders, &WITH_VALUES, (1, report.as_str(), ""))
}

#[test]
fn long_values_are_cut(rt: HostRuntime) -> Result<(), Fail> {
    let mut folders = folders(rt.alloc())?;
    for &(colour, shown) in LONG {
        assert_shown(&rt, rt.alloc(), &mut folders, colour, shown)?;
    }
    Ok(())
}
