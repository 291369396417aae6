//! Advice on stops.

use crate::cases::{Case, QUIET, assert_cases};
use gtfs_fixtures::FileText;
use std::test::Fail;

// A trip that stops at three.
const AT_THREE: FileText = (
    "stop_times.txt",
    "trip_id,arrival_time,departure_time,stop_id,stop_sequence\n\
T1,08:00:00,08:00:00,S1,1\nT1,,,S3,2\nT1,08:10:00,08:10:00,S2,3\n",
);

// Stops at which no trip stops, and stations without stops.
const USED: &[Case] = &[
    Case {
        what: "no trip stops at two",
        changes: &[(
            "stops.txt",
            "stop_id,stop_name,stop_lat,stop_lon,location_type,parent_station\n\
S1,Mill,52.5,13.4,,\nS2,Lake,52.6,13.5,,\nS4,Hill,52.7,13.6,0,\nS3,Port,52.7,13.6,,\n",
        )],
        wanted: "A03 stops.txt S3\nA03 stops.txt S4\n",
        ..QUIET
    },
    Case {
        what: "a transfer is no trip",
        changes: &[
            (
                "stops.txt",
                "stop_id,stop_name,stop_lat,stop_lon,location_type,parent_station\n\
S1,Mill,52.5,13.4,,\nS2,Lake,52.6,13.5,,\nS3,Hill,52.7,13.6,0,\n",
            ),
            ("transfers.txt", "from_stop_id,to_stop_id\nS1,S3\n"),
        ],
        wanted: "A03 stops.txt S3\n",
        ..QUIET
    },
    Case {
        what: "a trip stops at each",
        changes: &[
            AT_THREE,
            (
                "stops.txt",
                "stop_id,stop_name,stop_lat,stop_lon,location_type,parent_station\n\
S1,Mill,52.5,13.4,,\nS2,Lake,52.6,13.5,,\nH1,Hill,52.6,13.5,1,\nS3,Hill,52.6,13.5,0,H1\nE1,Door,52.6,13.5,2,H1\n\
N1,,,,3,H1\nB1,,,,4,S3\n",
            ),
        ],
        ..QUIET
    },
    Case {
        what: "no stop belongs to two",
        changes: &[(
            "stops.txt",
            "stop_id,stop_name,stop_lat,stop_lon,location_type,parent_station\n\
S1,Mill,52.5,13.4,,\nS2,Lake,52.6,13.5,,\nH1,Hill,52.6,13.5,1,\nH2,Port,52.6,13.5,1,\nE1,Door,52.6,13.5,2,H2\n\
N1,,,,3,H2\n",
        )],
        wanted: "A04 stops.txt H1\nA04 stops.txt H2\n",
        ..QUIET
    },
    Case {
        what: "a stop belongs to the station",
        changes: &[(
            "stops.txt",
            "stop_id,stop_name,stop_lat,stop_lon,location_type,parent_station\n\
S1,Mill,52.5,13.4,,\nS2,Lake,52.6,13.5,,\nH1,Hill,52.6,13.5,1,\nS3,Hill,52.6,13.5,,H1\n",
        )],
        wanted: "A03 stops.txt S3\n",
        ..QUIET
    },
];

// Stops near 0,0 or a pole, and far from their parents.
const PLACES: &[Case] = &[
    Case {
        what: "a degree from 0,0 or a pole",
        changes: &[
            (
                "stop_times.txt",
                "trip_id,arrival_time,departure_time,stop_id,stop_sequence\n\
T1,08:00:00,08:00:00,S1,1\nT1,,,P1,2\nT1,,,P2,3\nT1,,,P3,4\nT1,,,P4,5\nT1,,,P5,6\nT1,,,P6,7\nT1,,,P7,8\n\
T1,08:10:00,08:10:00,S2,9\n",
            ),
            (
                "stops.txt",
                "stop_id,stop_name,stop_lat,stop_lon,location_type,parent_station\n\
S1,Mill,52.5,13.4,,\nS2,Lake,52.6,13.5,,\nP1,Port,1,1,,\nP2,Port,-1,-1,,\nP3,Port,0,0,,\nP4,Port,89,50,,\n\
P5,Port,-89,50,,\nP6,Port,90,-180,,\nP7,Port,0.000000001,-1,,\n",
            ),
        ],
        wanted: "A05 stops.txt P1\n\
A05 stops.txt P2\nA05 stops.txt P3\nA05 stops.txt P4\nA05 stops.txt P5\nA05 stops.txt P6\nA05 stops.txt P7\n",
        ..QUIET
    },
    Case {
        what: "a unit more",
        changes: &[
            (
                "stop_times.txt",
                "trip_id,arrival_time,departure_time,stop_id,stop_sequence\n\
T1,08:00:00,08:00:00,S1,1\nT1,,,P1,2\nT1,,,P2,3\nT1,,,P3,4\nT1,,,P4,5\nT1,,,P5,6\nT1,,,S3,7\n\
T1,08:10:00,08:10:00,S2,8\n",
            ),
            (
                "stops.txt",
                "stop_id,stop_name,stop_lat,stop_lon,location_type,parent_station\n\
S1,Mill,52.5,13.4,,\nS2,Lake,52.6,13.5,,\nP1,Port,1.000000001,0,,\nP2,Port,0,-1.000000001,,\n\
P3,Port,-1.000000001,1,,\nP4,Port,88.999999999,0,,\nP5,Port,-88.999999999,180,,\nH1,Port,50,10,1,\n\
S3,Port,50,10,0,H1\nN1,,0,,3,H1\nN2,,,0,3,H1\nN3,,89,,3,H1\nN4,,,,3,H1\n",
            ),
        ],
        ..QUIET
    },
    Case {
        what: "each type of stop",
        changes: &[
            AT_THREE,
            (
                "stops.txt",
                "stop_id,stop_name,stop_lat,stop_lon,location_type,parent_station\n\
S1,Mill,52.5,13.4,,\nS2,Lake,52.6,13.5,,\nH1,Port,0,0,1,\nS3,Port,0,0,0,H1\nE1,Port,0,0,2,H1\nN1,,0,0,3,H1\n\
B1,,0,0,4,S3\n",
            ),
        ],
        wanted: "A05 stops.txt B1\nA05 stops.txt E1\nA05 stops.txt H1\nA05 stops.txt N1\nA05 stops.txt S3\n",
        ..QUIET
    },
    Case {
        what: "farther than 0.01 and 0.02 degrees",
        changes: &[
            (
                "stop_times.txt",
                "trip_id,arrival_time,departure_time,stop_id,stop_sequence\n\
T1,08:00:00,08:00:00,S1,1\nT1,,,S3,2\nT1,,,S4,3\nT1,,,S5,4\nT1,,,S6,5\nT1,,,S7,6\nT1,08:10:00,08:10:00,S2,7\n",
            ),
            (
                "stops.txt",
                "stop_id,stop_name,stop_lat,stop_lon,location_type,parent_station\n\
S1,Mill,52.5,13.4,,\nS2,Lake,52.6,13.5,,\nH1,Hill,50,10,1,\nS3,Hill,50.010000001,10,0,H1\n\
S4,Hill,49.989999999,10,,H1\nS5,Hill,50,10.020000001,0,H1\nE1,Hill,50,9.979999999,2,H1\nN1,,-50,-10,3,H1\n\
H2,Cape,50,180,1,\nS6,Cape,50,-180,0,H2\nS7,Cape,50,180,0,H2\nB1,,50.5,180,4,S7\n",
            ),
        ],
        wanted: "A06 stops.txt B1\n\
A06 stops.txt E1\nA06 stops.txt N1\nA06 stops.txt S3\nA06 stops.txt S4\nA06 stops.txt S5\nA06 stops.txt S6\n",
        ..QUIET
    },
    Case {
        what: "0.01 and 0.02 degrees",
        changes: &[
            (
                "stop_times.txt",
                "trip_id,arrival_time,departure_time,stop_id,stop_sequence\n\
T1,08:00:00,08:00:00,S1,1\nT1,,,S3,2\nT1,,,S4,3\nT1,08:10:00,08:10:00,S2,4\n",
            ),
            (
                "stops.txt",
                "stop_id,stop_name,stop_lat,stop_lon,location_type,parent_station\n\
S1,Mill,52.5,13.4,,\nS2,Lake,52.6,13.5,,\nH1,Hill,50,10,1,\nS3,Hill,50.01,10.02,0,H1\nS4,Hill,49.99,9.98,,H1\n\
E1,Hill,50.01,9.98,2,H1\nN1,,,,3,H1\nN2,,51,,3,H1\nN3,,,51,3,H1\nB1,,50.02,10.04,4,S3\nB2,,,,4,S3\n",
            ),
        ],
        ..QUIET
    },
];

#[test]
fn advice_on_stops_and_trips(rt: HostRuntime) -> Result<(), Fail> {
    assert_cases(&rt, rt.alloc(), USED)
}

#[test]
fn advice_on_places(rt: HostRuntime) -> Result<(), Fail> {
    assert_cases(&rt, rt.alloc(), PLACES)
}
