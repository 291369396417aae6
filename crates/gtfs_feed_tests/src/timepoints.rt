//! What passes a stop at stop times between timepoints: under given times, and under filled ones.

use crate::events::{Case, Passes};
use crate::lanes::{Wanted, assert_lanes};
use crate::named::stop_named;
use gtfs_fixtures::{FEED, FileText, read_feed};
use gtfs_runs::Times;
use gtfs_table::MemoryFolders;
use std::alloc::Global;
use std::hash::RandomState;
use std::test::Fail;

const NOTHING: Passes = Passes("", Wanted::NONE);

// T1 leaves S2 before T2 does, and S1 after it.
const CROSSING: &[FileText] = &[
    (
        "trips.txt",
        "route_id,service_id,trip_id\nR1,C1,T1\nR1,C1,T2\n",
    ),
    (
        "stop_times.txt",
        "trip_id,arrival_time,departure_time,stop_id,stop_sequence\n\
T1,08:00:00,08:00:00,S2,1\nT1,,,S1,2\nT1,09:00:00,09:00:00,S3,3\n\
T2,08:10:00,08:10:00,S2,1\nT2,08:12:00,08:12:00,S1,2\nT2,08:20:00,08:20:00,S3,3\n",
    ),
];

const TWO_BETWEEN: &str = "trip_id,arrival_time,departure_time,stop_id,stop_sequence\n\
T1,08:00:00,08:00:00,S1,1\nT1,,,S3,2\nT1,,,S1,5\nT1,08:10:01,08:10:01,S2,9\n";

/// A filled time beside given ones.
pub(crate) const BESIDE: &[Case] = &[
    Case {
        what: "one lane has the filled time of a trip and the given one of another, by time",
        files: CROSSING,
        stop: "S1",
        given: Passes("C1 29520 T2 29400 2 1\n", Wanted(1, 0, 0, 29_520)),
        filled: Some(Passes(
            "C1 29520 T2 29400 2 1\nC1 30600 T1 28800 2 1\n",
            Wanted(0, 0, 1, 30_600),
        )),
    },
    Case {
        what: "the lane of another position has given times alone",
        files: CROSSING,
        stop: "S2",
        given: Passes(
            "C1 28800 T1 28800 1 0\nC1 29400 T2 29400 1 0\n",
            Wanted(1, 0, 0, 29_400),
        ),
        filled: Some(Passes(
            "C1 28800 T1 28800 1 0\nC1 29400 T2 29400 1 0\n",
            Wanted(1, 0, 0, 29_400),
        )),
    },
    Case {
        what: "two positions on the way from 08:00:00 to 08:10:01",
        files: &[("stop_times.txt", TWO_BETWEEN)],
        stop: "S1",
        given: Passes("C1 28800 T1 28800 1 0\n", Wanted(1, 0, 0, 28_800)),
        filled: Some(Passes(
            "C1 28800 T1 28800 1 0\nC1 29200 T1 28800 5 2\n",
            Wanted(1, 0, 1, 29_200),
        )),
    },
    Case {
        what: "three positions within a second have its beginning, and a lane each",
        files: &[(
            "stop_times.txt",
            "trip_id,arrival_time,departure_time,stop_id,stop_sequence\n\
T1,00:00:00,00:00:00,S2,1\nT1,,,S1,2\nT1,,,S1,3\nT1,,,S1,4\nT1,00:00:01,00:00:01,S2,5\n",
        )],
        stop: "S1",
        given: NOTHING,
        filled: Some(Passes(
            "C1 0 T1 0 2 1\nC1 0 T1 0 3 2\nC1 0 T1 0 4 3\n",
            Wanted(0, 0, 3, 0),
        )),
    },
    Case {
        what: "a row of frequencies.txt has a lane at each position, filled or not",
        files: &[
            ("stop_times.txt", TWO_BETWEEN),
            (
                "frequencies.txt",
                "trip_id,start_time,end_time,headway_secs,exact_times\nT1,06:00:00,06:00:01,1,0\n",
            ),
        ],
        stop: "S1",
        given: Passes("C1 21600 T1 21600 1 0\n", Wanted(0, 1, 0, 21_600)),
        filled: Some(Passes(
            "C1 21600 T1 21600 1 0\nC1 22000 T1 21600 5 2\n",
            Wanted(0, 2, 0, 22_000),
        )),
    },
];

/// The stop times around a filled one.
pub(crate) const AROUND: &[Case] = &[
    Case {
        what: "from a departure to an arrival",
        files: &[(
            "stop_times.txt",
            "trip_id,arrival_time,departure_time,stop_id,stop_sequence\n\
T1,08:00:00,08:01:00,S2,1\nT1,,,S1,2\nT1,08:03:00,08:10:00,S2,3\n",
        )],
        stop: "S1",
        given: NOTHING,
        filled: Some(Passes("C1 28920 T1 28860 2 1\n", Wanted(0, 0, 1, 28_920))),
    },
    Case {
        what: "from an arrival alone to a departure alone",
        files: &[(
            "stop_times.txt",
            "trip_id,arrival_time,departure_time,stop_id,stop_sequence\n\
T1,08:00:00,,S2,1\nT1,,,S1,2\nT1,,08:10:00,S2,3\n",
        )],
        stop: "S1",
        given: NOTHING,
        filled: Some(Passes("C1 29100 T1 28800 2 1\n", Wanted(0, 0, 1, 29_100))),
    },
    Case {
        what: "from a stop time without a pick-up",
        files: &[(
            "stop_times.txt",
            "trip_id,arrival_time,departure_time,stop_id,stop_sequence,pickup_type\n\
T1,08:00:00,08:00:00,S2,1,0\nT1,08:10:00,08:10:00,S2,2,1\nT1,,,S1,3,\nT1,08:20:00,08:20:00,S2,4,0\n",
        )],
        stop: "S1",
        given: NOTHING,
        filled: Some(Passes("C1 29700 T1 28800 3 2\n", Wanted(0, 0, 1, 29_700))),
    },
    Case {
        what: "a filled stop time without a pick-up is no departure",
        files: &[(
            "stop_times.txt",
            "trip_id,arrival_time,departure_time,stop_id,stop_sequence,pickup_type\n\
T1,08:00:00,08:00:00,S2,1,0\nT1,,,S1,2,1\nT1,08:20:00,08:20:00,S2,3,0\n",
        )],
        stop: "S1",
        given: NOTHING,
        filled: None,
    },
    Case {
        what: "a station has the filled departures of its platforms",
        files: &[
            (
                "stops.txt",
                "stop_id,stop_name,stop_lat,stop_lon,location_type,parent_station\n\
S1,Mill,52.5,13.4,,S3\nS2,Lake,52.6,13.5,0,\nS3,Hill,52.7,13.6,1,\n",
            ),
            (
                "stop_times.txt",
                "trip_id,arrival_time,departure_time,stop_id,stop_sequence\n\
T1,25:00:00,25:00:00,S2,1\nT1,,,S1,2\nT1,25:00:03,25:00:03,S2,3\n",
            ),
        ],
        stop: "S3",
        given: NOTHING,
        filled: Some(Passes("C1 90001 T1 90000 2 1\n", Wanted(0, 0, 1, 90_001))),
    },
];

// Two bytes number 65,536.
const COUNT: u32 = 70_000;

// A trip that goes from 00:00:00 to 999:59:59, with so many stop times between.
fn long_trip(alloc: Global) -> Result<String, Fail> {
    let mut text = String::from_str(
        alloc,
        "trip_id,arrival_time,departure_time,stop_id,stop_sequence\n\
T1,00:00:00,00:00:00,S2,0\nT1,999:59:59,999:59:59,S2,2147483647\n",
    )?;
    for number in 1..=COUNT {
        let line = format!(in alloc; "T1,,,S1,{number}\n")?;
        text.push_str(&line)?;
    }
    Ok(text)
}

fn long_folders(alloc: Global) -> Result<MemoryFolders, Fail> {
    let mut folders = MemoryFolders::new(alloc, 10_000_000, None);
    for (name, text) in FEED {
        folders.put("f1", name, text.as_bytes())?;
    }
    folders.put("f1", "stop_times.txt", long_trip(alloc)?.as_bytes())?;
    Ok(folders)
}

// Of 3,599,999 seconds the last position has 70,000 parts in 70,001, cut to 3,599,947.
#[test]
fn a_long_trip_has_a_filled_lane_at_each_position(rt: HostRuntime) -> Result<(), Fail> {
    let mut folders = long_folders(rt.alloc())?;
    let random = RandomState::new(&rt)?;
    let feed = read_feed(rt.alloc(), random, &mut folders, "f1")?;
    let stop = stop_named(&rt, &feed, "S1");
    let wanted = Wanted(0, 0, 70_000, 3_599_947);
    assert_lanes(
        &rt,
        rt.alloc(),
        &feed,
        stop,
        Times::Interpolated,
        wanted,
        "70,000 stop times between two timepoints",
    )
}
