//! Advice on the stop times of trips.

use crate::cases::{Case, QUIET, assert_cases};
use gtfs_fixtures::FileText;
use std::test::Fail;

// Two stops at one latitude.
const EAST_AND_WEST: FileText = (
    "stops.txt",
    "stop_id,stop_name,stop_lat,stop_lon\nS1,Mill,52.5,13.4\nS2,Lake,52.5,13.5\n",
);

// Five trips.
const FIVE_TRIPS: FileText = (
    "trips.txt",
    "route_id,service_id,trip_id,trip_headsign\n\
R1,C1,T1,Lake\nR1,C1,T2,Lake\nR1,C1,T3,Lake\nR1,C1,T4,Lake\nR1,C1,T5,Lake\n",
);

// Six trips.
const SIX_TRIPS: FileText = (
    "trips.txt",
    "route_id,service_id,trip_id,trip_headsign\n\
R1,C1,T1,Lake\nR1,C1,T2,Lake\nR1,C1,T3,Lake\nR1,C1,T4,Lake\nR1,C1,T5,Lake\nR1,C1,T6,Lake\n",
);

// Three trips.
const THREE_TRIPS: FileText = (
    "trips.txt",
    "route_id,service_id,trip_id,trip_headsign\nR1,C1,T1,Lake\nR1,C1,T2,Lake\nR1,C1,T3,Lake\n",
);

// Two trips.
const TWO_TRIPS: FileText = (
    "trips.txt",
    "route_id,service_id,trip_id,trip_headsign\nR1,C1,T1,Lake\nR1,C1,T2,Lake\n",
);

// Trips by their stops.
const STOPS: &[Case] = &[
    Case {
        what: "a stop twice in a row",
        changes: &[
            (
                "stop_times.txt",
                "trip_id,arrival_time,departure_time,stop_id,stop_sequence\n\
T1,08:00:00,08:00:00,S1,1\nT1,08:10:00,08:10:00,S1,2\nT2,08:00:00,08:00:00,S1,1\nT2,08:10:00,08:10:00,S2,2\n\
T2,,,S2,3\nT2,08:40:00,08:40:00,S1,4\nT2,08:40:00,08:40:00,S1,5\nT3,08:50:00,08:50:00,S2,1\n\
T3,09:00:00,09:00:00,S1,2\nT3,09:30:00,09:30:00,S1,3\n",
            ),
            THREE_TRIPS,
        ],
        wanted: "A15 stop_times.txt T1\nA15 stop_times.txt T2\nA15 stop_times.txt T3\n",
        ..QUIET
    },
    Case {
        what: "a stop twice, another one between",
        changes: &[(
            "stop_times.txt",
            "trip_id,arrival_time,departure_time,stop_id,stop_sequence\n\
T1,08:00:00,08:00:00,S1,1\nT1,08:10:00,08:10:00,S2,2\nT1,08:20:00,08:20:00,S1,3\n",
        )],
        ..QUIET
    },
    Case {
        what: "nobody gets on or off",
        changes: &[
            (
                "stop_times.txt",
                "trip_id,arrival_time,departure_time,stop_id,stop_sequence,pickup_type,drop_off_type\n\
T1,08:00:00,08:00:00,S1,1,,\nT1,08:10:00,08:10:00,S2,2,1,1\nT1,08:20:00,08:20:00,S1,3,1,1\n\
T2,09:00:00,09:00:00,S1,1,0,1\nT2,09:10:00,09:10:00,S2,2,1,1\n",
            ),
            TWO_TRIPS,
        ],
        wanted: "A18 stop_times.txt T1\nA18 stop_times.txt T2\n",
        ..QUIET
    },
    Case {
        what: "somebody may get on or off",
        changes: &[(
            "stop_times.txt",
            "trip_id,arrival_time,departure_time,stop_id,stop_sequence,pickup_type,drop_off_type\n\
T1,01:00:00,01:00:00,S2,1,0,1\nT1,02:00:00,02:00:00,S1,2,1,0\nT1,03:00:00,03:00:00,S2,3,1,\n\
T1,04:00:00,04:00:00,S1,4,1,2\nT1,05:00:00,05:00:00,S2,5,1,3\nT1,06:00:00,06:00:00,S1,6,2,1\n\
T1,07:00:00,07:00:00,S2,7,3,1\nT1,08:00:00,08:00:00,S1,8,2,2\nT1,09:00:00,09:00:00,S2,9,0,1\n",
        )],
        ..QUIET
    },
];

// Trips by their times.
const TIMES: &[Case] = &[
    Case {
        what: "six rows at one moment",
        changes: &[
            (
                "stop_times.txt",
                "trip_id,arrival_time,departure_time,stop_id,stop_sequence\n\
T1,08:00:00,08:00:00,S1,1\nT1,08:00:00,08:00:00,S2,2\nT1,08:00:00,08:00:00,S1,3\nT1,08:00:00,08:00:00,S2,4\n\
T1,08:00:00,08:00:00,S1,5\nT1,08:00:00,08:00:00,S2,6\nT2,08:00:00,08:00:00,S1,1\nT2,08:00:00,08:00:00,S2,2\n\
T2,08:00:00,08:00:00,S1,3\nT2,08:00:00,08:00:00,S2,4\nT2,08:00:00,08:00:00,S1,5\nT2,08:00:00,08:00:00,S2,6\n\
T2,08:00:00,08:00:00,S1,7\nT3,07:00:00,08:00:00,S2,1\nT3,08:00:00,08:00:00,S1,2\nT3,08:00:00,08:00:00,S2,3\n\
T3,08:00:00,08:00:00,S1,4\nT3,08:00:00,08:00:00,S2,5\nT3,08:00:00,09:00:00,S1,6\nT3,10:00:00,10:00:00,S2,7\n\
T4,08:00:00,,S1,1\nT4,08:00:00,08:00:00,S2,2\nT4,08:00:00,08:00:00,S1,3\nT4,08:00:00,08:00:00,S2,4\n\
T4,08:00:00,08:00:00,S1,5\nT4,,08:00:00,S2,6\nT5,07:00:00,07:00:00,S1,1\nT5,07:30:00,07:30:00,S2,2\n\
T5,08:00:00,08:00:00,S1,3\nT5,08:00:00,08:00:00,S2,4\nT5,08:00:00,08:00:00,S1,5\nT5,08:00:00,08:00:00,S2,6\n\
T5,08:00:00,08:00:00,S1,7\nT5,08:00:00,08:00:00,S2,8\nT5,09:00:00,09:00:00,S1,9\n",
            ),
            EAST_AND_WEST,
            FIVE_TRIPS,
        ],
        wanted: "A16 stop_times.txt T1\n\
A16 stop_times.txt T2\nA16 stop_times.txt T3\nA16 stop_times.txt T4\nA16 stop_times.txt T5\n",
        ..QUIET
    },
    Case {
        what: "five rows, a second more, or a row without a time",
        changes: &[
            (
                "stop_times.txt",
                "trip_id,arrival_time,departure_time,stop_id,stop_sequence\n\
T1,08:00:00,08:00:00,S1,1\nT1,08:00:00,08:00:00,S2,2\nT1,08:00:00,08:00:00,S1,3\nT1,08:00:00,08:00:00,S2,4\n\
T1,08:00:00,08:00:00,S1,5\nT2,08:00:00,08:00:00,S1,1\nT2,08:00:00,08:00:00,S2,2\nT2,08:00:00,08:00:00,S1,3\n\
T2,08:00:00,08:00:00,S2,4\nT2,08:00:00,08:00:00,S1,5\nT2,08:00:01,08:00:01,S2,6\nT3,07:59:59,07:59:59,S2,1\n\
T3,08:00:00,08:00:00,S1,2\nT3,08:00:00,08:00:00,S2,3\nT3,08:00:00,08:00:00,S1,4\nT3,08:00:00,08:00:00,S2,5\n\
T3,08:00:00,08:00:00,S1,6\nT4,08:00:00,08:00:00,S1,1\nT4,08:00:00,08:00:00,S2,2\nT4,,,S1,3\n\
T4,08:00:00,08:00:00,S2,4\nT4,08:00:00,08:00:00,S1,5\nT4,08:00:00,08:00:00,S2,6\nT5,08:00:00,08:00:00,S1,1\n\
T5,08:00:00,08:00:00,S2,2\nT5,08:00:00,08:00:00,S1,3\nT5,,,S2,4\nT5,08:00:00,08:00:00,S1,5\n\
T5,08:00:00,08:00:00,S2,6\nT5,08:00:00,08:00:00,S1,7\nT6,08:00:00,08:00:00,S1,1\nT6,08:00:00,08:00:00,S2,2\n\
T6,08:00:00,08:00:00,S1,3\nT6,08:00:00,08:00:01,S2,4\nT6,08:00:01,08:00:01,S1,5\nT6,08:00:01,08:00:01,S2,6\n\
T6,08:00:01,08:00:01,S1,7\n",
            ),
            EAST_AND_WEST,
            SIX_TRIPS,
        ],
        ..QUIET
    },
    Case {
        what: "86,401 seconds",
        changes: &[
            (
                "stop_times.txt",
                "trip_id,arrival_time,departure_time,stop_id,stop_sequence\n\
T1,01:00:00,01:00:00,S1,1\nT1,25:00:01,25:00:01,S2,2\nT2,01:00:00,,S1,1\nT2,,,S2,2\nT2,,25:00:01,S1,3\n",
            ),
            TWO_TRIPS,
        ],
        wanted: "A19 stop_times.txt T1\nA19 stop_times.txt T2\n",
        ..QUIET
    },
    Case {
        what: "86,400 seconds",
        changes: &[
            (
                "stop_times.txt",
                "trip_id,arrival_time,departure_time,stop_id,stop_sequence\n\
T1,01:00:00,01:00:00,S1,1\nT1,25:00:00,25:00:00,S2,2\nT2,01:00:00,01:00:01,S1,1\nT2,25:00:01,25:00:01,S2,2\n\
T3,01:00:00,01:00:00,S1,1\nT3,25:00:00,25:00:01,S2,2\n",
            ),
            THREE_TRIPS,
        ],
        ..QUIET
    },
];

// Trips by their speeds.
const SPEEDS: &[Case] = &[
    Case {
        what: "a unit farther than 500 km/h and a minute",
        changes: &[
            (
                "stop_times.txt",
                "trip_id,arrival_time,departure_time,stop_id,stop_sequence\n\
T1,08:00:00,08:00:00,S1,1\nT1,08:00:00,08:00:00,S2,2\nT2,08:00:00,08:00:00,S5,1\nT2,08:01:00,08:01:00,S1,2\n\
T3,08:00:00,08:00:00,S3,1\nT3,08:01:40,,S4,2\nT4,00:00:00,00:00:00,S6,1\nT4,22:12:19,22:12:19,S7,2\n\
T5,07:00:00,08:00:00,S1,1\nT5,08:00:59,09:00:00,S5,2\n",
            ),
            (
                "stops.txt",
                "stop_id,stop_name,stop_lat,stop_lon\n\
S1,Stop,50,13.4\nS2,Stop,50.075000001,13.4\nS3,Stop,-0.1,13.4\nS4,Stop,0.100000001,13.4\n\
S5,Stop,50.150000001,13.4\nS6,Stop,-50,13.4\nS7,Stop,50,13.4\n",
            ),
            FIVE_TRIPS,
        ],
        wanted: "A17 stop_times.txt T1\n\
A17 stop_times.txt T2\nA17 stop_times.txt T3\nA17 stop_times.txt T4\nA17 stop_times.txt T5\n",
        ..QUIET
    },
    Case {
        what: "as far as 500 km/h and a minute",
        changes: &[
            (
                "stop_times.txt",
                "trip_id,arrival_time,departure_time,stop_id,stop_sequence\n\
T1,08:00:00,08:00:00,S1,1\nT1,08:00:00,08:00:00,S2,2\nT2,08:00:00,08:00:00,S5,1\nT2,08:01:00,08:01:00,S1,2\n\
T3,08:00:00,08:00:00,S3,1\nT3,08:01:40,08:01:40,S4,2\nT4,00:00:00,00:00:00,S6,1\nT4,22:12:20,22:12:20,S7,2\n\
T5,07:00:00,08:00:00,S1,1\nT5,08:01:00,09:00:00,S5,2\nT6,08:00:00,08:00:00,S1,1\nT6,,,S8,2\n\
T6,08:00:00,08:00:00,S1,3\n",
            ),
            (
                "stops.txt",
                "stop_id,stop_name,stop_lat,stop_lon\n\
S1,Stop,50,13.4\nS2,Stop,50.075,13.4\nS3,Stop,-0.1,13.4\nS4,Stop,0.1,13.4\nS5,Stop,50.15,13.4\n\
S6,Stop,-50,13.4\nS7,Stop,50,13.4\nS8,Stop,51,13.4\n",
            ),
            SIX_TRIPS,
        ],
        ..QUIET
    },
    Case {
        what: "east and west do not count",
        changes: &[(
            "stops.txt",
            "stop_id,stop_name,stop_lat,stop_lon\nS1,Mill,52.5,-170\nS2,Lake,52.5,170\n",
        )],
        ..QUIET
    },
];

#[test]
fn advice_on_stops_in_turn(rt: HostRuntime) -> Result<(), Fail> {
    assert_cases(&rt, rt.alloc(), STOPS)
}

#[test]
fn advice_on_times(rt: HostRuntime) -> Result<(), Fail> {
    assert_cases(&rt, rt.alloc(), TIMES)
}

#[test]
fn advice_on_speeds(rt: HostRuntime) -> Result<(), Fail> {
    assert_cases(&rt, rt.alloc(), SPEEDS)
}
