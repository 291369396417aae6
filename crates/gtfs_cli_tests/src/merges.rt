//! Merges over devices of which a call fails, and outputs that take less than the report.

use crate::assertions::assert_case;
use crate::ended::Ended;
use crate::fixtures::{
    JOINED, MERGE, OUTPUT_FAILED, ROOM, assert_ends, fixed, folders, folders_failing_at, put_feed,
    start_of,
};
use gtfs_table::{File, FolderFault, Folders, MemoryFolders};
use std::alloc::Global;
use std::process::Abort;
use std::test::Fail;

// The files of the merged feed, in the order in which they are written.
const WRITTEN: [&str; 9] = [
    "agency_id,agency_name,agency_url,agency_timezone,agency_lang,agency_phone,agency_fare_url,agency_email\n\
,Metro,http://m.example,UTC,,,,\n",
    "stop_id,stop_code,stop_name,tts_stop_name,stop_desc,stop_lat,stop_lon,stop_url,location_type,parent_station,\
wheelchair_boarding,platform_code\n\
S1,,Mill,,,52.5,13.4,,0,,0,\n\
S2,,Lake,,,52.6,13.5,,0,,0,\n\
S3,,Hill,,,52.7,13.6,,0,,0,\n",
    "route_id,agency_id,route_short_name,route_long_name,route_desc,route_type,route_url,route_color,\
route_text_color,route_sort_order\n\
R1,,10,,,3,,FFFFFF,000000,\n",
    "route_id,service_id,trip_id,trip_headsign,trip_short_name,direction_id,wheelchair_accessible,bikes_allowed\n\
R1,C1,T1,,,,0,0\n",
    "trip_id,arrival_time,departure_time,stop_id,stop_sequence,stop_headsign,pickup_type,drop_off_type,timepoint\n\
T1,08:00:00,08:00:00,S1,1,,0,0,\n\
T1,08:10:00,08:10:00,S2,2,,0,0,\n",
    "service_id,monday,tuesday,wednesday,thursday,friday,saturday,sunday,start_date,end_date\n\
C1,1,1,1,1,1,1,1,20240401,20240401\n",
    "service_id,date,exception_type\n",
    "trip_id,start_time,end_time,headway_secs,exact_times\n",
    "from_stop_id,to_stop_id,from_route_id,to_route_id,from_trip_id,to_trip_id,transfer_type,min_transfer_time\n",
];

// What the folder `out` holds of a file; there may be no such folder.
fn held(
    alloc: Global,
    folders: &mut MemoryFolders,
    file: File,
) -> Result<Option<Vec<u8>>, FolderFault> {
    match folders.read(alloc, "out", file.name()) {
        Err(FolderFault::NoFolder) => Ok(None),
        answer => answer,
    }
}

// The first `count` files were written to `out`, each whole, and no other.
fn assert_written(
    rt: &impl Abort,
    alloc: Global,
    folders: &mut MemoryFolders,
    count: usize,
) -> Result<(), Fail> {
    for (number, (file, text)) in File::ALL.iter().zip(WRITTEN).enumerate() {
        let found = held(alloc, folders, *file)?;
        let wanted = if number < count {
            Some(text.as_bytes())
        } else {
            None
        };
        assert_case(rt, found.as_deref(), wanted, "text", file.name());
    }
    Ok(())
}

// Each folder is read by a call for its names and one for each of nine files, and nine calls write.
#[test]
fn a_device_that_fails_stops_a_merge(rt: HostRuntime) -> Result<(), Fail> {
    for call in 1..30 {
        let mut folders = folders_failing_at(rt.alloc(), call)?;
        put_feed(&mut folders, "f2")?;
        let (told, count) = match call {
            ..=10 => ("gtfs: f1 cannot be read\n", 0),
            11..=20 => ("gtfs: f2 cannot be read\n", 0),
            _ => ("gtfs: out cannot be written\n", call - 21),
        };
        assert_ends(&rt, rt.alloc(), &mut folders, &MERGE, (3, "", told))?;
        assert_written(&rt, rt.alloc(), &mut folders, count as usize)?;
    }
    let mut folders = folders_failing_at(rt.alloc(), 30)?;
    put_feed(&mut folders, "f2")?;
    assert_ends(&rt, rt.alloc(), &mut folders, &MERGE, (0, JOINED, ""))
}

// All files are written before the report is printed.
#[test]
fn a_report_of_a_merge_may_be_cut_at_each_byte(rt: HostRuntime) -> Result<(), Fail> {
    for room in 0..JOINED.len() {
        let mut folders = folders(rt.alloc())?;
        put_feed(&mut folders, "f2")?;
        let rooms = (room, ROOM);
        let ended = Ended::of(rt.alloc(), fixed()?, &mut folders, &MERGE, rooms)?;
        let wanted = (3, start_of(JOINED, room)?, OUTPUT_FAILED);
        assert_case(&rt, ended.seen()?, wanted, "end", room);
        assert_written(&rt, rt.alloc(), &mut folders, 9)?;
    }
    Ok(())
}

// Also where a folder without a name can be had.
#[test]
fn an_empty_text_names_no_folder_to_write(rt: HostRuntime) -> Result<(), Fail> {
    let mut folders = folders(rt.alloc())?;
    folders.put_folder("")?;
    let words = ["gtfs", "merge", "f1", "f1", ""];
    let ended = (3, "", "gtfs:  cannot be written\n");
    assert_ends(&rt, rt.alloc(), &mut folders, &words, ended)
}
