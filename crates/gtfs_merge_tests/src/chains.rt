//! New names that are taken already, and merges of three feeds.

use crate::cases::{AT_TEN, Case, MERGED, PLAIN, merged_by};
use crate::written::{Rows, assert_rows};
use gtfs_feed::Feed;
use gtfs_fixtures::{FileText, feed_with};
use gtfs_merge::Merged;
use gtfs_table::File;
use std::alloc::Global;
use std::process::Abort;
use std::random::RandomSource;
use std::test::Fail;

/// A new id is one that neither feed has.
pub(crate) const CASES: &[Case] = &[
    Case {
        what: "three ids of a chain in both",
        a: &[
            (
                "trips.txt",
                "route_id,service_id,trip_id\nR1,C1,T1\nR1,C1,T1_merged_1\nR1,C1,T1_merged_2\n",
            ),
            (
                "stop_times.txt",
                "trip_id,arrival_time,departure_time,stop_id,stop_sequence\n\
T1,08:00:00,08:00:00,S1,1\nT1_merged_1,09:00:00,09:00:00,S1,1\nT1_merged_2,10:00:00,10:00:00,S1,1\n",
            ),
        ],
        b: &[
            (
                "trips.txt",
                "route_id,service_id,trip_id\nR1,C1,T1_merged_2\nR1,C1,T1_merged_1\nR1,C1,T1\n",
            ),
            (
                "stop_times.txt",
                "trip_id,arrival_time,departure_time,stop_id,stop_sequence\n\
T1,11:00:00,11:00:00,S1,1\nT1_merged_1,12:00:00,12:00:00,S1,1\nT1_merged_2,13:00:00,13:00:00,S1,1\n",
            ),
        ],
        report: "B\ttrip\tT1\tT1_merged_3\nB\ttrip\tT1_merged_1\tT1_merged_1_merged_1\n\
B\ttrip\tT1_merged_2\tT1_merged_2_merged_1\n\
joined agency 1\njoined stop 3\njoined route 1\njoined service 1\njoined trip 0\n",
        written: &[(
            File::StopTimes,
            "T1,08:00:00,08:00:00,S1,1,,0,0,\nT1_merged_1,09:00:00,09:00:00,S1,1,,0,0,\n\
T1_merged_1_merged_1,12:00:00,12:00:00,S1,1,,0,0,\nT1_merged_2,10:00:00,10:00:00,S1,1,,0,0,\n\
T1_merged_2_merged_1,13:00:00,13:00:00,S1,1,,0,0,\nT1_merged_3,11:00:00,11:00:00,S1,1,,0,0,\n",
        )],
        ..MERGED
    },
    Case {
        what: "a new name that B alone has, and one that A alone has",
        a: &[(
            "trips.txt",
            "route_id,service_id,trip_id\nR1,C1,T1\nR1,C1,T1_merged_1\n",
        )],
        b: &[
            AT_TEN,
            (
                "trips.txt",
                "route_id,service_id,trip_id\nR1,C1,T1\nR1,C1,T1_merged_2\nR1,C1,T1_merged_4\n",
            ),
        ],
        report: "B\ttrip\tT1\tT1_merged_3\n\
joined agency 1\njoined stop 3\njoined route 1\njoined service 1\njoined trip 0\n",
        written: &[(
            File::Trips,
            "R1,C1,T1,,,,0,0\nR1,C1,T1_merged_1,,,,0,0\nR1,C1,T1_merged_2,,,,0,0\nR1,C1,T1_merged_3,,,,0,0\n\
R1,C1,T1_merged_4,,,,0,0\n",
        )],
        ..MERGED
    },
    Case {
        what: "nine new names that are taken",
        a: &[(
            "trips.txt",
            "route_id,service_id,trip_id\nR1,C1,T1\nR1,C1,T1_merged_1\nR1,C1,T1_merged_2\nR1,C1,T1_merged_3\n\
R1,C1,T1_merged_4\nR1,C1,T1_merged_5\nR1,C1,T1_merged_6\nR1,C1,T1_merged_7\nR1,C1,T1_merged_8\nR1,C1,T1_merged_9\n",
        )],
        b: &[AT_TEN],
        report: "B\ttrip\tT1\tT1_merged_10\n\
joined agency 1\njoined stop 3\njoined route 1\njoined service 1\njoined trip 0\n",
        written: &[],
        ..MERGED
    },
    Case {
        what: "stops, routes and services whose first new names are ids of another kind",
        a: &[
            (
                "stops.txt",
                "stop_id,stop_name,stop_lat,stop_lon\n\
S1,Mill,52.5,13.4\nS2,Lake,52.6,13.5\nS3,Hill,52.7,13.6\nC1_merged_1,Hill,52.7,13.6\n",
            ),
            (
                "routes.txt",
                "route_id,route_short_name,route_type\nR1,10,3\nS3_merged_1,12,3\n",
            ),
            (
                "trips.txt",
                "route_id,service_id,trip_id\nR1,C1,T1\nR1,C1,R1_merged_1\n",
            ),
        ],
        b: &[
            (
                "stops.txt",
                "stop_id,stop_name,stop_lat,stop_lon\nS1,Mill,52.5,13.4\nS2,Lake,52.6,13.5\nS3,Pond,52.7,13.6\n",
            ),
            (
                "routes.txt",
                "route_id,route_short_name,route_type\nR1,11,3\n",
            ),
            (
                "calendar.txt",
                "service_id,monday,tuesday,wednesday,thursday,friday,saturday,sunday,start_date,end_date\n\
C1,1,1,1,1,1,1,1,20240401,20240402\n",
            ),
        ],
        report: "B\tstop\tS3\tS3_merged_1\nB\troute\tR1\tR1_merged_1\nB\tservice\tC1\tC1_merged_1\n\
B\ttrip\tT1\tT1_merged_1\n\
joined agency 1\njoined stop 2\njoined route 0\njoined service 0\njoined trip 0\n",
        written: &[(
            File::Trips,
            "R1,C1,R1_merged_1,,,,0,0\nR1,C1,T1,,,,0,0\nR1_merged_1,C1_merged_1,T1_merged_1,,,,0,0\n",
        )],
        ..MERGED
    },
];

// The small dataset at nine.
const AT_NINE: FileText = (
    "stop_times.txt",
    "trip_id,arrival_time,departure_time,stop_id,stop_sequence\n\
T1,09:00:00,09:00:00,S1,1\nT1,09:10:00,09:10:00,S2,2\n",
);

const FIRST_TWO_FIRST: &[Rows] = &[
    (File::Agency, ",Metro,http://m.example,UTC,,,,\n"),
    (
        File::Trips,
        "R1,C1,T1,,,,0,0\nR1,C1,T1_merged_1,,,,0,0\nR1,C1,T1_merged_2,,,,0,0\n",
    ),
    (
        File::StopTimes,
        "T1,08:00:00,08:00:00,S1,1,,0,0,\nT1,08:10:00,08:10:00,S2,2,,0,0,\n\
T1_merged_1,10:00:00,10:00:00,S1,1,,0,0,\nT1_merged_1,10:10:00,10:10:00,S2,2,,0,0,\n\
T1_merged_2,09:00:00,09:00:00,S1,1,,0,0,\nT1_merged_2,09:10:00,09:10:00,S2,2,,0,0,\n",
    ),
];

const LAST_TWO_FIRST: &[Rows] = &[
    (
        File::Trips,
        "R1,C1,T1,,,,0,0\nR1,C1,T1_merged_1,,,,0,0\nR1,C1,T1_merged_2,,,,0,0\n",
    ),
    (
        File::StopTimes,
        "T1,08:00:00,08:00:00,S1,1,,0,0,\nT1,08:10:00,08:10:00,S2,2,,0,0,\n\
T1_merged_1,09:00:00,09:00:00,S1,1,,0,0,\nT1_merged_1,09:10:00,09:10:00,S2,2,,0,0,\n\
T1_merged_2,10:00:00,10:00:00,S1,1,,0,0,\nT1_merged_2,10:10:00,10:10:00,S2,2,,0,0,\n",
    ),
];

// The merge of a feed and a change to the small dataset.
fn merged_with<R: Abort + RandomSource>(
    rt: &R,
    alloc: Global,
    feed: &Feed,
    change: FileText,
) -> Result<Merged, Fail> {
    let other = feed_with(rt, alloc, &[change])?;
    merged_by(rt, alloc, (feed, &other), PLAIN)
}

#[test]
fn a_third_feed_is_merged_with_a_merge(rt: HostRuntime) -> Result<(), Fail> {
    let at_eight = feed_with(&rt, rt.alloc(), &[])?;
    let two = merged_with(&rt, rt.alloc(), &at_eight, AT_TEN)?;
    let three = merged_with(&rt, rt.alloc(), &two.feed, AT_NINE)?;
    assert_rows(&rt, rt.alloc(), &three.feed, FIRST_TWO_FIRST)
}

#[test]
fn a_merge_is_merged_with_a_first_feed(rt: HostRuntime) -> Result<(), Fail> {
    let at_ten = feed_with(&rt, rt.alloc(), &[AT_TEN])?;
    let two = merged_with(&rt, rt.alloc(), &at_ten, AT_NINE)?;
    let at_eight = feed_with(&rt, rt.alloc(), &[])?;
    let three = merged_by(&rt, rt.alloc(), (&at_eight, &two.feed), PLAIN)?;
    assert_rows(&rt, rt.alloc(), &three.feed, LAST_TWO_FIRST)
}
