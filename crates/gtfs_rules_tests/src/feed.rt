//! A small feed without a problem, and changes to it.

use gtfs_field::OutOfMemory;
use gtfs_table::MemoryFolders;
use std::alloc::Global;

/// A file: its name, and its lines without their ends. The first line is the header.
pub(crate) type FileLines = (&'static str, &'static [&'static str]);

// The headers of the small feed.
const AGENCY: &str = "agency_name,agency_url,agency_timezone";

pub(crate) const STOPS: &str = "stop_id,stop_name,stop_lat,stop_lon";

const ROUTES: &str = "route_id,route_short_name,route_type";

pub(crate) const TRIPS: &str = "route_id,service_id,trip_id";

pub(crate) const STOP_TIMES: &str = "trip_id,arrival_time,departure_time,stop_id,stop_sequence";

const CALENDAR: &str =
    "service_id,monday,tuesday,wednesday,thursday,friday,saturday,sunday,start_date,end_date";

// The header of a file that the small feed lacks.
pub(crate) const FREQUENCIES: &str = "trip_id,start_time,end_time,headway_secs";

// The stops of the small feed, and the two rows of its trip.
pub(crate) const MILL: &str = "S1,Mill,52.5,13.4";

pub(crate) const LAKE: &str = "S2,Lake,52.6,13.5";

pub(crate) const HILL: &str = "S3,Hill,52.7,13.6";

const AT_MILL: &str = "T1,08:00:00,08:00:00,S1,1";

const AT_LAKE: &str = "T1,08:10:00,08:10:00,S2,2";

/// One agency, three stops, one route, and one trip on 1 April 2024.
pub(crate) const FEED: [FileLines; 6] = [
    ("agency.txt", &[AGENCY, "Metro,http://m.example,UTC"]),
    ("stops.txt", &[STOPS, MILL, LAKE, HILL]),
    ("routes.txt", &[ROUTES, "R1,10,3"]),
    ("trips.txt", &[TRIPS, "R1,C1,T1"]),
    ("stop_times.txt", &[STOP_TIMES, AT_MILL, AT_LAKE]),
    (
        "calendar.txt",
        &[CALENDAR, "C1,1,1,1,1,1,1,1,20240401,20240401"],
    ),
];

// A text of lines, each with its end.
fn text_of(alloc: Global, lines: &[&str]) -> Result<String, OutOfMemory> {
    let mut text = String::new(alloc);
    for line in lines {
        text.push_str(line)?;
        text.push_str("\n")?;
    }
    Ok(text)
}

// Folders without a file.
fn no_files(alloc: Global) -> MemoryFolders {
    MemoryFolders::new(alloc, 10_000, None)
}

/// Puts files in place of those with their names.
pub(crate) fn put_files(
    alloc: Global,
    folders: &mut MemoryFolders,
    files: &[FileLines],
) -> Result<(), OutOfMemory> {
    for (name, lines) in files {
        let text = text_of(alloc, lines)?;
        folders.put("f1", name, text.as_bytes())?;
    }
    Ok(())
}

/// The folders of the small feed.
pub(crate) fn small_feed(alloc: Global) -> Result<MemoryFolders, OutOfMemory> {
    let mut folders = no_files(alloc);
    put_files(alloc, &mut folders, &FEED)?;
    Ok(folders)
}
