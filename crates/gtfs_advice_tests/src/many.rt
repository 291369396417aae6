//! More stops and trips than two bytes can number. `rt try` builds with checks that make this take
//! minutes; built for the gate it takes a second.

use crate::assertions::assert_is;
use crate::cases::{QUIET_FILES, id_of, put};
use gtfs_advice::{Advice, Code, advise};
use gtfs_feed::Feed;
use gtfs_field::{OutOfMemory, push_count};
use gtfs_fixtures::{FEED, read_feed};
use gtfs_table::MemoryFolders;
use std::alloc::Global;
use std::hash::RandomState;
use std::process::Abort;
use std::random::RandomSource;
use std::test::Fail;

// No file has so many bytes.
const LIMIT: u64 = 10_000_000;

// Each file by its name, how it begins, and what stands before and behind the number of a row.
// All trips stop at S1 at eight.
const FILES: &[(&str, &str, &str, &str)] = &[
    (
        "stops.txt",
        "stop_id,stop_name,stop_lat,stop_lon\nS1,Mill,52.5,13.4\n",
        "S",
        ",Lake,52.6,13.5\n",
    ),
    (
        "trips.txt",
        "route_id,service_id,trip_id,trip_headsign\n",
        "R1,C1,T",
        ",Lake\n",
    ),
    (
        "stop_times.txt",
        "trip_id,arrival_time,departure_time,stop_id,stop_sequence\n",
        "T",
        ",08:00:00,08:00:00,S1,1\n",
    ),
];

// Rows with the numbers from 10,000 to 79,999.
fn rows_of(alloc: Global, begin: &str, before: &str, behind: &str) -> Result<String, OutOfMemory> {
    let mut text = String::from_str(alloc, begin)?;
    for number in 10_000..80_000 {
        text.push_str(before)?;
        push_count(alloc, &mut text, number)?;
        text.push_str(behind)?;
    }
    Ok(text)
}

// Puts the files of the feed into the folder f1.
fn put_files(alloc: Global, folders: &mut MemoryFolders) -> Result<(), OutOfMemory> {
    put(folders, &FEED)?;
    put(folders, QUIET_FILES)?;
    for (name, begin, before, behind) in FILES {
        let text = rows_of(alloc, begin, before, behind)?;
        folders.put("f1", name, text.as_bytes())?;
    }
    Ok(())
}

fn many_feed<R: RandomSource>(rt: &R, alloc: Global) -> Result<Feed, Fail> {
    let mut folders = MemoryFolders::new(alloc, LIMIT, None);
    put_files(alloc, &mut folders)?;
    read_feed(alloc, RandomState::new(rt)?, &mut folders, "f1")
}

// How many of these have a code.
fn count(list: &[Advice], code: Code) -> usize {
    let mut count: usize = 0;
    for advice in list {
        if advice.code == code {
            count = count.saturating_add(1);
        }
    }
    count
}

// The subject of an advice by its number, if it is there.
fn subject<'a>(feed: &'a Feed, list: &[Advice], number: usize) -> Option<&'a str> {
    id_of(feed.parts(), &list.get(number)?.subject)
}

// No trip stops at any stop but S1, and all trips but the first are as another one.
fn assert_many(rt: &impl Abort, feed: &Feed, list: &[Advice]) {
    assert_is(rt, count(list, Code::StopWithoutTrip), 70_000, "stops");
    assert_is(rt, count(list, Code::TripAsAnother), 69_999, "trips");
    assert_is(rt, list.len(), 139_999, "all");
    for (number, id) in SUBJECTS {
        assert_is(rt, subject(feed, list, *number), Some(*id), "subject");
    }
}

const SUBJECTS: &[(usize, &str)] = &[
    (0, "S10000"),
    (69_999, "S79999"),
    (70_000, "T10001"),
    (139_998, "T79999"),
];

#[test]
fn advice_on_many_rows(rt: HostRuntime) -> Result<(), Fail> {
    let feed = many_feed(&rt, rt.alloc())?;
    let list = advise(rt.alloc(), &feed, None)?;
    assert_many(&rt, &feed, list.as_slice());
    Ok(())
}
