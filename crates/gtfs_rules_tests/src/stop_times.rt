//! The stop times of a feed that passes, as they are handed on.

use crate::assertions::assert_is;
use crate::feed::{FileLines, HILL, LAKE, MILL, STOPS, TRIPS, put_files, small_feed};
use gtfs_field::Clock;
use gtfs_rules::{KeptStopTimes, check};
use gtfs_table::Tables;
use std::alloc::Global;
use std::test::Fail;

// Trips, stops and stop times that do not stand in their order.
const FILES: [FileLines; 3] = [
    ("stops.txt", &[STOPS, HILL, MILL, LAKE]),
    ("trips.txt", &[TRIPS, "R1,C1,T2", "R1,C1,T10"]),
    (
        "stop_times.txt",
        &[
            "stop_id,trip_id,stop_sequence,arrival_time,departure_time,pickup_type,drop_off_type,timepoint,\
             stop_headsign",
            "S1,T2,1,08:00:00,08:00:00,,,,",
            "S3,T10,07,25:10:00,25:11:30,2,3,0,Lake",
            ",,,,,,,,",
            "S2,T10, 2 ,8:00:00,08:00:00,1,0,1, ",
            "S2,T2,2,,,,,,",
            "S3,T2,3,08:20:00,08:20:00,,,,Hill",
        ],
    ),
];

// The trip, the stop, the row, the times, the sequence and the choices of each,
// and whether it has a headsign.
const WANTED: &str = "\
0 1 5 Some(28800) Some(28800) 2 None Regular Some(Exact) false
0 2 3 Some(90600) Some(90690) 7 Phone Driver Some(Approximate) true
1 0 2 Some(28800) Some(28800) 1 Regular Regular None false
1 1 6 None None 2 Regular Regular None false
1 2 7 Some(30000) Some(30000) 3 Regular Regular None true
";

fn seconds(clock: Option<Clock>) -> Option<u32> {
    Some(clock?.seconds())
}

fn lines_of(alloc: Global, stop_times: &KeptStopTimes) -> Result<String, Fail> {
    let mut lines = String::new(alloc);
    for at in 0..stop_times.len() {
        let stop_time = stop_times.get(at);
        let said = stop_time.stop_row;
        let line = format!(in alloc;
            "{} {} {} {:?} {:?} {} {:?} {:?} {:?} {}\n",
            stop_time.trip,
            said.stop_id.0,
            stop_time.row,
            seconds(said.arrival_time.get()),
            seconds(said.departure_time.get()),
            said.stop_sequence,
            said.pickup_type,
            said.drop_off_type,
            said.timepoint,
            stop_time.has_headsign
        )?;
        lines.push_str(&line)?;
    }
    Ok(lines)
}

#[test]
fn stop_times_stand_by_trip_and_sequence(rt: HostRuntime) -> Result<(), Fail> {
    let mut folders = small_feed(rt.alloc())?;
    put_files(rt.alloc(), &mut folders, &FILES)?;
    let tables = Tables::read(rt.alloc(), &mut folders, "f1")?;
    let passed = check(rt.alloc(), &tables)?.passed();
    let lines = match &passed {
        Ok(passed) => lines_of(rt.alloc(), passed.stop_times())?,
        Err(_) => String::new(rt.alloc()),
    };
    assert_is(&rt, lines.as_str(), WANTED, "stop times");
    Ok(())
}
