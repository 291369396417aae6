//! A feed of which two files have more than 2^17 rows, and each of those rows a problem.

use crate::assertions::{assert_case, assert_is};
use crate::feed::{FEED, STOP_TIMES, TRIPS, put_files};
use gtfs_field::OutOfMemory;
use gtfs_rules::{Code, FileName, Problem, check};
use gtfs_table::{File, MemoryFolders, Tables};
use std::alloc::Global;
use std::process::Abort;
use std::test::Fail;

// How many trips there are, more than 2^17.
const COUNT: usize = 140_000;

// The most bytes that a file of the feed may have.
const LIMIT: u64 = 10_000_000;

fn trips_text(alloc: Global) -> Result<String, OutOfMemory> {
    let mut text = format!(in alloc; "{TRIPS}\n")?;
    for n in 0..COUNT {
        let line = format!(in alloc; "R1,C1,T{n}\n")?;
        text.push_str(&line)?;
    }
    Ok(text)
}

// Each trip has one row, at a stop that is not there.
fn stop_times_text(alloc: Global) -> Result<String, OutOfMemory> {
    let mut text = format!(in alloc; "{STOP_TIMES}\n")?;
    for n in 0..COUNT {
        let line = format!(in alloc; "T{n},08:00:00,08:00:00,S9,1\n")?;
        text.push_str(&line)?;
    }
    Ok(text)
}

// The problem at an index of the report: first that each trip has fewer than two rows, then that
// the stop of each stop time is not there.
fn wanted(n: usize) -> Problem<'static> {
    let row = n % COUNT + 2;
    if n < COUNT {
        Problem {
            file: FileName::Kept(File::Trips),
            row,
            code: Code::W06,
            column: "trip_id",
        }
    } else {
        Problem {
            file: FileName::Kept(File::StopTimes),
            row,
            code: Code::E10,
            column: "stop_id",
        }
    }
}

#[test]
fn every_problem_of_many_is_reported(rt: HostRuntime) -> Result<(), Fail> {
    let mut folders = MemoryFolders::new(rt.alloc(), LIMIT, None);
    put_files(rt.alloc(), &mut folders, &FEED)?;
    let trips = trips_text(rt.alloc())?;
    folders.put("f1", "trips.txt", trips.as_bytes())?;
    let stop_times = stop_times_text(rt.alloc())?;
    folders.put("f1", "stop_times.txt", stop_times.as_bytes())?;
    let tables = Tables::read(rt.alloc(), &mut folders, "f1")?;
    let report = check(rt.alloc(), &tables)?;
    assert_problems(&rt, report.problems());
    Ok(())
}

fn assert_problems(rt: &impl Abort, problems: &[Problem<'_>]) {
    assert_is(rt, problems.len(), 2 * COUNT, "problems");
    for (n, problem) in problems.iter().enumerate() {
        assert_case(rt, *problem, wanted(n), "problem", n);
    }
}
