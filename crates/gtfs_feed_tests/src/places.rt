//! Stop times in every place of their file:
//! a feed made of a draft is the same whether they can stay there or not.

use crate::assertions::{assert_count, assert_is};
use gtfs_feed::Feed;
use gtfs_field::OutOfMemory;
use gtfs_fixtures::{read_by_draft, read_feed};
use gtfs_rows::TripNo;
use gtfs_table::{File, MemoryFolders};
use std::alloc::Global;
use std::hash::RandomState;
use std::process::Abort;
use std::random::RandomSource;
use std::test::Fail;

// The files but stop_times.txt. The trip T1 has no stop times.
const FILES: [(&str, &str); 5] = [
    (
        "agency.txt",
        "agency_id,agency_name,agency_url,agency_timezone\nA,Metro,http://m.example,UTC\n",
    ),
    (
        "stops.txt",
        "stop_id,stop_name,stop_lat,stop_lon\nL,Lake,52.6,13.5\nM,Mill,52.5,13.4\nP,Pond,52.8,13.7\n",
    ),
    (
        "routes.txt",
        "route_id,agency_id,route_short_name,route_type\nR,A,1,3\n",
    ),
    (
        "trips.txt",
        "route_id,service_id,trip_id\nR,C,T3\nR,C,T1\nR,C,T2\nR,C,T0\n",
    ),
    (
        "calendar.txt",
        "service_id,monday,tuesday,wednesday,thursday,friday,saturday,sunday,start_date,end_date\n\
C,1,1,1,1,1,1,1,20240401,20240401\n",
    ),
];

const HEADER: &str = "trip_id,arrival_time,departure_time,stop_id,stop_sequence,stop_headsign\n";

// The same stop times in other places. Some have the headsign of the row before them: that of their
// own trip, or of another.
const PLACES: [(&str, &str); 7] = [
    (
        "by trip",
        "T0,05:00:00,05:00:00,M,1,To Pond\nT0,05:10:00,05:10:00,P,2,To Lake\n\
T2,08:00:00,08:00:00,L,1,\nT2,08:10:00,08:10:00,M,4,To Pond\nT2,08:20:00,08:20:00,P,9,To Pond\n\
T3,09:00:00,09:00:00,P,0,To Lake\nT3,09:10:00,09:10:00,L,1,\n",
    ),
    (
        "trips turned round",
        "T3,09:00:00,09:00:00,P,0,To Lake\nT3,09:10:00,09:10:00,L,1,\n\
T2,08:00:00,08:00:00,L,1,\nT2,08:10:00,08:10:00,M,4,To Pond\nT2,08:20:00,08:20:00,P,9,To Pond\n\
T0,05:00:00,05:00:00,M,1,To Pond\nT0,05:10:00,05:10:00,P,2,To Lake\n",
    ),
    (
        "blank lines between trips",
        "\nT2,08:00:00,08:00:00,L,1,\nT2,08:10:00,08:10:00,M,4,To Pond\nT2,08:20:00,08:20:00,P,9,To Pond\n\n\n\
T0,05:00:00,05:00:00,M,1,To Pond\nT0,05:10:00,05:10:00,P,2,To Lake\n\n\
T3,09:00:00,09:00:00,P,0,To Lake\nT3,09:10:00,09:10:00,L,1,\n",
    ),
    (
        "a row without values in a trip",
        "T2,08:00:00,08:00:00,L,1,\n,,,,,\nT2,08:10:00,08:10:00,M,4,To Pond\nT2,08:20:00,08:20:00,P,9,To Pond\n\
T0,05:00:00,05:00:00,M,1,To Pond\nT0,05:10:00,05:10:00,P,2,To Lake\n\
T3,09:00:00,09:00:00,P,0,To Lake\nT3,09:10:00,09:10:00,L,1,\n",
    ),
    (
        "a trip that falls",
        "T0,05:00:00,05:00:00,M,1,To Pond\nT0,05:10:00,05:10:00,P,2,To Lake\n\
T2,08:20:00,08:20:00,P,9,To Pond\nT2,08:10:00,08:10:00,M,4,To Pond\nT2,08:00:00,08:00:00,L,1,\n\
T3,09:00:00,09:00:00,P,0,To Lake\nT3,09:10:00,09:10:00,L,1,\n",
    ),
    (
        "a trip in two pieces",
        "T2,08:00:00,08:00:00,L,1,\nT3,09:00:00,09:00:00,P,0,To Lake\nT3,09:10:00,09:10:00,L,1,\n\
T2,08:10:00,08:10:00,M,4,To Pond\nT2,08:20:00,08:20:00,P,9,To Pond\n\
T0,05:00:00,05:00:00,M,1,To Pond\nT0,05:10:00,05:10:00,P,2,To Lake\n",
    ),
    (
        "rows of trips in turn",
        "T0,05:00:00,05:00:00,M,1,To Pond\nT2,08:00:00,08:00:00,L,1,\nT3,09:00:00,09:00:00,P,0,To Lake\n\
T0,05:10:00,05:10:00,P,2,To Lake\nT2,08:10:00,08:10:00,M,4,To Pond\nT3,09:10:00,09:10:00,L,1,\n\
T2,08:20:00,08:20:00,P,9,To Pond\n",
    ),
];

// The stop times as they are written.
const WRITTEN: &str =
    "trip_id,arrival_time,departure_time,stop_id,stop_sequence,stop_headsign,pickup_type,drop_off_type,timepoint\n\
T0,05:00:00,05:00:00,M,1,To Pond,0,0,\nT0,05:10:00,05:10:00,P,2,To Lake,0,0,\n\
T2,08:00:00,08:00:00,L,1,,0,0,\nT2,08:10:00,08:10:00,M,4,To Pond,0,0,\nT2,08:20:00,08:20:00,P,9,To Pond,0,0,\n\
T3,09:00:00,09:00:00,P,0,To Lake,0,0,\nT3,09:10:00,09:10:00,L,1,,0,0,\n";

// A folder with these stop times.
fn folder(alloc: Global, stop_times: &str) -> Result<MemoryFolders, OutOfMemory> {
    let mut folders = MemoryFolders::new(alloc, 10_000, None);
    for (name, text) in FILES {
        folders.put("f1", name, text.as_bytes())?;
    }
    let mut text = String::from_str(alloc, HEADER)?;
    text.push_str(stop_times)?;
    folders.put("f1", "stop_times.txt", text.as_bytes())?;
    Ok(folders)
}

// The stop times of each trip, of which T1 has none, and all of them as they are written.
fn assert_stop_times(rt: &impl Abort, alloc: Global, feed: &Feed, what: &str) -> Result<(), Fail> {
    let counts = [2, 0, 3, 2];
    assert_count(rt, feed.trip_count(), counts.len(), what);
    for trip in 0..counts.len() {
        assert_is(rt, feed.trip_rows(TripNo(trip)).len(), counts[trip], what);
    }
    assert_is(rt, feed.parts().stop_times.len(), 7, what);
    let text = feed.file_text(alloc, File::StopTimes)?;
    assert_is(rt, text.as_str(), WRITTEN, what);
    let headsigns = headsigns_of(alloc, feed)?;
    assert_is(rt, headsigns.as_str(), "To Pond\nTo Lake\n", what);
    Ok(())
}

// The headsigns by their numbers, which they have in the order of the trips, and in each by
// sequence.
fn headsigns_of(alloc: Global, feed: &Feed) -> Result<String, OutOfMemory> {
    let mut text = String::new(alloc);
    for headsign in feed.parts().headsigns.as_slice() {
        text.push_str(headsign.as_str())?;
        text.push_str("\n")?;
    }
    Ok(text)
}

#[test]
fn stop_times_may_stand_anywhere(rt: HostRuntime) -> Result<(), Fail> {
    let alloc = rt.alloc();
    for (what, stop_times) in PLACES {
        let mut folders = folder(alloc, stop_times)?;
        let drafted = read_by_draft(alloc, RandomState::new(&rt)?, &mut folders, "f1")?;
        assert_stop_times(&rt, alloc, &drafted, what)?;
        let feed = read_feed(alloc, RandomState::new(&rt)?, &mut folders, "f1")?;
        assert_stop_times(&rt, alloc, &feed, what)?;
    }
    Ok(())
}
