//! A feed with more rows of each kind than two bytes can number, merged with itself.

use crate::assertions::assert_is;
use gtfs_feed::Feed;
use gtfs_field::{Day, OutOfMemory, push_count};
use gtfs_fixtures::read_feed;
use gtfs_merge::{Kind, Merged, Options, merge};
use gtfs_table::MemoryFolders;
use std::alloc::Global;
use std::hash::RandomState;
use std::process::Abort;
use std::random::RandomSource;
use std::test::Fail;

const MANY: u32 = 70_000;

// No file of the feed or of a merge has so many bytes.
pub(crate) const LIMIT: u64 = 100_000_000;

// Each file by its name, its header, and what stands before and between the numbers of a row.
const FILES: &[(&str, &str, &[&str])] = &[
    (
        "agency.txt",
        "agency_id,agency_name,agency_url,agency_timezone\n",
        &["A", ",Metro,http://m.example,UTC\n"],
    ),
    (
        "stops.txt",
        "stop_id,stop_name,stop_lat,stop_lon\n",
        &["S", ",Mill,52.5,13.4\n"],
    ),
    (
        "routes.txt",
        "route_id,agency_id,route_short_name,route_type\n",
        &["R", ",A", ",10,3\n"],
    ),
    (
        "trips.txt",
        "route_id,service_id,trip_id\n",
        &["R", ",C", ",T", "\n"],
    ),
    (
        "stop_times.txt",
        "trip_id,arrival_time,departure_time,stop_id,stop_sequence,stop_headsign\n",
        &[
            "T",
            ",08:00:00,08:00:00,S0,1,To ",
            "\nT",
            ",08:10:00,08:10:00,S",
            ",2,\n",
        ],
    ),
    (
        "calendar.txt",
        "service_id,monday,tuesday,wednesday,thursday,friday,saturday,sunday,start_date,end_date\n",
        &["C", ",1,1,1,1,1,1,1,20240401,20240402\n"],
    ),
    (
        "calendar_dates.txt",
        "service_id,date,exception_type\n",
        &["C", ",20240403,1\n"],
    ),
    (
        "frequencies.txt",
        "trip_id,start_time,end_time,headway_secs\n",
        &["T", ",06:00:00,07:00:00,1800\n"],
    ),
    (
        "transfers.txt",
        "from_stop_id,to_stop_id,transfer_type\n",
        &["S", ",S", ",0\n"],
    ),
];

// A row, with the number after each part but the last.
fn push_row(
    alloc: Global,
    text: &mut String,
    parts: &[&str],
    number: u32,
) -> Result<(), OutOfMemory> {
    let mut is_first = true;
    for part in parts {
        if !is_first {
            push_count(alloc, text, number)?;
        }
        is_first = false;
        text.push_str(part)?;
    }
    Ok(())
}

fn rows_of(alloc: Global, header: &str, parts: &[&str]) -> Result<String, OutOfMemory> {
    let mut text = String::from_str(alloc, header)?;
    for number in 0..MANY {
        push_row(alloc, &mut text, parts, number)?;
    }
    Ok(text)
}

// Puts the files of the feed into the folder f1. Each trip goes from the first stop to another one.
pub(crate) fn put_files(alloc: Global, folders: &mut MemoryFolders) -> Result<(), OutOfMemory> {
    for (name, header, parts) in FILES {
        let text = rows_of(alloc, header, parts)?;
        folders.put("f1", name, text.as_bytes())?;
    }
    Ok(())
}

// What a merge has: so many rows and so many joined ids of each kind.
fn assert_merged(rt: &impl Abort, merged: &Merged, rows: [usize; 5], joined: [usize; 5]) {
    let feed = &merged.feed;
    let found = [
        feed.agency_count(),
        feed.stop_count(),
        feed.route_count(),
        feed.service_count(),
        feed.trip_count(),
    ];
    assert_is(rt, found, rows, "rows");
    let names = &merged.names;
    let found = [
        names.joined(Kind::Agency).len(),
        names.joined(Kind::Stop).len(),
        names.joined(Kind::Route).len(),
        names.joined(Kind::Service).len(),
        names.joined(Kind::Trip).len(),
    ];
    assert_is(rt, found, joined, "joined ids");
}

// All ids are joined.
fn assert_whole<R: Abort + RandomSource>(rt: &R, alloc: Global, feed: &Feed) -> Result<(), Fail> {
    let options = Options {
        file_limit: LIMIT,
        near: None,
        cutoff: None,
    };
    let merged = merge(alloc, RandomState::new(rt)?, feed, feed, &options)?;
    assert_merged(rt, &merged, [70_000; 5], [70_000; 5]);
    Ok(())
}

// From 2 April on each service has another part, and so each trip has another service.
fn assert_cut<R: Abort + RandomSource>(rt: &R, alloc: Global, feed: &Feed) -> Result<(), Fail> {
    let options = Options {
        file_limit: LIMIT,
        near: None,
        cutoff: Some(Day::from_number(19_815)),
    };
    let merged = merge(alloc, RandomState::new(rt)?, feed, feed, &options)?;
    let rows = [70_000, 70_000, 70_000, 140_000, 140_000];
    assert_merged(rt, &merged, rows, [70_000, 70_000, 70_000, 0, 0]);
    Ok(())
}

#[test]
fn a_large_feed_is_merged_with_itself(rt: HostRuntime) -> Result<(), Fail> {
    let mut folders = MemoryFolders::new(rt.alloc(), LIMIT, None);
    put_files(rt.alloc(), &mut folders)?;
    let random = RandomState::new(&rt)?;
    let feed = read_feed(rt.alloc(), random, &mut folders, "f1")?;
    assert_whole(&rt, rt.alloc(), &feed)?;
    assert_cut(&rt, rt.alloc(), &feed)
}
