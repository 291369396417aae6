//! A small dataset without a problem, changes to it, and the feeds of both.

use gtfs_feed::{Feed, FeedDraft};
use gtfs_field::OutOfMemory;
use gtfs_rules::check;
use gtfs_table::{MemoryFolders, Tables};
use std::alloc::Global;
use std::hash::RandomState;
use std::random::RandomSource;
use std::test::Fail;

/// A file: its name and its text.
pub type FileText = (&'static str, &'static str);

/// One agency without an id, three stops, one route, and one trip on 1 April 2024.
pub const FEED: [FileText; 6] = [
    (
        "agency.txt",
        "agency_name,agency_url,agency_timezone\nMetro,http://m.example,UTC\n",
    ),
    (
        "stops.txt",
        "stop_id,stop_name,stop_lat,stop_lon\nS1,Mill,52.5,13.4\nS2,Lake,52.6,13.5\nS3,Hill,52.7,13.6\n",
    ),
    (
        "routes.txt",
        "route_id,route_short_name,route_type\nR1,10,3\n",
    ),
    ("trips.txt", "route_id,service_id,trip_id\nR1,C1,T1\n"),
    (
        "stop_times.txt",
        "trip_id,arrival_time,departure_time,stop_id,stop_sequence\n\
T1,08:00:00,08:00:00,S1,1\nT1,08:10:00,08:10:00,S2,2\n",
    ),
    (
        "calendar.txt",
        "service_id,monday,tuesday,wednesday,thursday,friday,saturday,sunday,start_date,end_date\n\
C1,1,1,1,1,1,1,1,20240401,20240401\n",
    ),
];

/// Folders that hold the small dataset in the folder f1,
/// with these files in place of those with their names.
pub fn folders_of(alloc: Global, changes: &[FileText]) -> Result<MemoryFolders, OutOfMemory> {
    let mut folders = MemoryFolders::new(alloc, 10_000, None);
    put_small(&mut folders, changes)?;
    Ok(folders)
}

fn put_small(folders: &mut MemoryFolders, changes: &[FileText]) -> Result<(), OutOfMemory> {
    put_all(folders, &FEED)?;
    put_all(folders, changes)
}

// Puts files into the folder f1.
pub(crate) fn put_all(folders: &mut MemoryFolders, files: &[FileText]) -> Result<(), OutOfMemory> {
    for (name, text) in files {
        folders.put("f1", name, text.as_bytes())?;
    }
    Ok(())
}

/// The feed of a folder, which has to pass.
pub fn read_feed(
    alloc: Global,
    random: RandomState,
    folders: &mut MemoryFolders,
    dir: &str,
) -> Result<Feed, Fail> {
    let tables = Tables::read(alloc, folders, dir)?;
    feed_of(alloc, random, &tables)
}

fn feed_of(alloc: Global, random: RandomState, tables: &Tables) -> Result<Feed, Fail> {
    let report = check(alloc, tables)?;
    match report.passed() {
        Ok(passed) => Ok(Feed::new(alloc, random, &passed)?),
        Err(_) => Err(Fail::new("the dataset has errors")),
    }
}

/// The same feed, whose tables are let go before its stop times have their places.
pub fn read_by_draft(
    alloc: Global,
    random: RandomState,
    folders: &mut MemoryFolders,
    dir: &str,
) -> Result<Feed, Fail> {
    let tables = Tables::read(alloc, folders, dir)?;
    let draft = draft_of(alloc, random, &tables)?;
    drop(tables);
    Ok(draft.into_feed(alloc, random)?)
}

fn draft_of(alloc: Global, random: RandomState, tables: &Tables) -> Result<FeedDraft, Fail> {
    let report = check(alloc, tables)?;
    match report.passed() {
        Ok(passed) => Ok(FeedDraft::new(alloc, random, passed)?),
        Err(_) => Err(Fail::new("the dataset has errors")),
    }
}

// The feed of the folder f1, which has to pass.
pub(crate) fn read_first<R: RandomSource>(
    rt: &R,
    alloc: Global,
    mut folders: MemoryFolders,
) -> Result<Feed, Fail> {
    read_feed(alloc, RandomState::new(rt)?, &mut folders, "f1")
}

/// The feed of the small dataset with these changes.
pub fn feed_with<R: RandomSource>(
    rt: &R,
    alloc: Global,
    changes: &[FileText],
) -> Result<Feed, Fail> {
    read_first(rt, alloc, folders_of(alloc, changes)?)
}
