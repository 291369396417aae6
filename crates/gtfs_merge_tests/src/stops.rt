//! Stops in stations, and boarding areas of stops: a stop is joined where its parent is.

use crate::cases::{Case, MERGED};
use gtfs_fixtures::FileText;
use gtfs_table::File;

// A station with a stop, an entrance and a node; a boarding area of the stop; and a stop apart.
const HUB: FileText = (
    "stops.txt",
    "stop_id,stop_name,stop_lat,stop_lon,location_type,parent_station\n\
H,Hub,52.7,13.6,1,\nS1,Mill,52.5,13.4,0,H\nS2,Lake,52.6,13.5,0,\nE1,Gate,52.7,13.6,2,H\nN1,,,,3,H\nB1,,,,4,S1\n",
);

/// Stops are joined with their parents.
pub(crate) const CASES: &[Case] = &[
    Case {
        what: "the same stops",
        a: &[HUB],
        b: &[HUB],
        report: "joined agency 1\njoined stop 6\njoined route 1\njoined service 1\njoined trip 1\n",
        written: &[(
            File::Stops,
            "B1,,,,,,,,4,S1,0,\nE1,,Gate,,,52.7,13.6,,2,H,0,\nH,,Hub,,,52.7,13.6,,1,,0,\nN1,,,,,,,,3,H,0,\n\
S1,,Mill,,,52.5,13.4,,0,H,0,\nS2,,Lake,,,52.6,13.5,,0,,0,\n",
        )],
        ..MERGED
    },
    Case {
        what: "a station with another name",
        a: &[HUB],
        b: &[(
            "stops.txt",
            "stop_id,stop_name,stop_lat,stop_lon,location_type,parent_station\n\
H,Main,52.7,13.6,1,\nS1,Mill,52.5,13.4,0,H\nS2,Lake,52.6,13.5,0,\nE1,Gate,52.7,13.6,2,H\nN1,,,,3,H\nB1,,,,4,S1\n",
        )],
        report: "B\tstop\tB1\tB1_merged_1\nB\tstop\tE1\tE1_merged_1\nB\tstop\tH\tH_merged_1\n\
B\tstop\tN1\tN1_merged_1\nB\tstop\tS1\tS1_merged_1\nB\ttrip\tT1\tT1_merged_1\n\
joined agency 1\njoined stop 1\njoined route 1\njoined service 1\njoined trip 0\n",
        written: &[
            (
                File::Stops,
                "B1,,,,,,,,4,S1,0,\nB1_merged_1,,,,,,,,4,S1_merged_1,0,\n\
E1,,Gate,,,52.7,13.6,,2,H,0,\nE1_merged_1,,Gate,,,52.7,13.6,,2,H_merged_1,0,\n\
H,,Hub,,,52.7,13.6,,1,,0,\nH_merged_1,,Main,,,52.7,13.6,,1,,0,\n\
N1,,,,,,,,3,H,0,\nN1_merged_1,,,,,,,,3,H_merged_1,0,\n\
S1,,Mill,,,52.5,13.4,,0,H,0,\nS1_merged_1,,Mill,,,52.5,13.4,,0,H_merged_1,0,\n\
S2,,Lake,,,52.6,13.5,,0,,0,\n",
            ),
            (
                File::StopTimes,
                "T1,08:00:00,08:00:00,S1,1,,0,0,\nT1,08:10:00,08:10:00,S2,2,,0,0,\n\
T1_merged_1,08:00:00,08:00:00,S1_merged_1,1,,0,0,\nT1_merged_1,08:10:00,08:10:00,S2,2,,0,0,\n",
            ),
        ],
        ..MERGED
    },
    Case {
        what: "a station with another id",
        a: &[HUB],
        b: &[(
            "stops.txt",
            "stop_id,stop_name,stop_lat,stop_lon,location_type,parent_station\n\
H2,Hub,52.7,13.6,1,\nS1,Mill,52.5,13.4,0,H2\nS2,Lake,52.6,13.5,0,\nB1,,,,4,S1\n",
        )],
        report: "B\tstop\tB1\tB1_merged_1\nB\tstop\tS1\tS1_merged_1\nB\ttrip\tT1\tT1_merged_1\n\
joined agency 1\njoined stop 1\njoined route 1\njoined service 1\njoined trip 0\n",
        written: &[(
            File::Stops,
            "B1,,,,,,,,4,S1,0,\nB1_merged_1,,,,,,,,4,S1_merged_1,0,\nE1,,Gate,,,52.7,13.6,,2,H,0,\n\
H,,Hub,,,52.7,13.6,,1,,0,\nH2,,Hub,,,52.7,13.6,,1,,0,\nN1,,,,,,,,3,H,0,\n\
S1,,Mill,,,52.5,13.4,,0,H,0,\nS1_merged_1,,Mill,,,52.5,13.4,,0,H2,0,\nS2,,Lake,,,52.6,13.5,,0,,0,\n",
        )],
        ..MERGED
    },
    Case {
        what: "a stop with another name, which has a boarding area",
        a: &[HUB],
        b: &[(
            "stops.txt",
            "stop_id,stop_name,stop_lat,stop_lon,location_type,parent_station\n\
H,Hub,52.7,13.6,1,\nS1,Pond,52.5,13.4,0,H\nS2,Lake,52.6,13.5,0,\nE1,Gate,52.7,13.6,2,H\nN1,,,,3,H\nB1,,,,4,S1\n",
        )],
        report: "B\tstop\tB1\tB1_merged_1\nB\tstop\tS1\tS1_merged_1\nB\ttrip\tT1\tT1_merged_1\n\
joined agency 1\njoined stop 4\njoined route 1\njoined service 1\njoined trip 0\n",
        written: &[(
            File::Stops,
            "B1,,,,,,,,4,S1,0,\nB1_merged_1,,,,,,,,4,S1_merged_1,0,\nE1,,Gate,,,52.7,13.6,,2,H,0,\n\
H,,Hub,,,52.7,13.6,,1,,0,\nN1,,,,,,,,3,H,0,\nS1,,Mill,,,52.5,13.4,,0,H,0,\n\
S1_merged_1,,Pond,,,52.5,13.4,,0,H,0,\nS2,,Lake,,,52.6,13.5,,0,,0,\n",
        )],
        ..MERGED
    },
    Case {
        what: "a stop that has no station in B",
        a: &[HUB],
        b: &[(
            "stops.txt",
            "stop_id,stop_name,stop_lat,stop_lon,location_type,parent_station\n\
H,Hub,52.7,13.6,1,\nS1,Mill,52.5,13.4,0,\nS2,Lake,52.6,13.5,0,\n",
        )],
        report: "B\tstop\tS1\tS1_merged_1\nB\ttrip\tT1\tT1_merged_1\n\
joined agency 1\njoined stop 2\njoined route 1\njoined service 1\njoined trip 0\n",
        written: &[],
        ..MERGED
    },
];
