//! Advice on trips and their frequencies.

use crate::cases::{Case, QUIET, assert_cases};
use gtfs_fixtures::FileText;
use std::test::Fail;

// Their stop times are the same.
const SAME_TIMES: FileText = (
    "stop_times.txt",
    "trip_id,arrival_time,departure_time,stop_id,stop_sequence\n\
T1,08:00:00,08:00:00,S1,1\nT1,08:10:00,08:10:00,S2,2\nT2,08:00:00,08:00:00,S1,1\nT2,08:10:00,08:10:00,S2,2\n",
);

// Three trips.
const THREE_TRIPS: FileText = (
    "trips.txt",
    "route_id,service_id,trip_id,trip_headsign\nR1,C1,T1,Lake\nR1,C1,T2,Lake\nR1,C1,T3,Lake\n",
);

// Two trips.
const TWO_TRIPS: FileText = (
    "trips.txt",
    "route_id,service_id,trip_id,trip_headsign\nR1,C1,T1,Lake\nR1,C1,T2,Lake\n",
);

// Trips without headsigns.
const HEADSIGNS: &[Case] = &[
    Case {
        what: "a row before the last has none",
        changes: &[
            (
                "stop_times.txt",
                "trip_id,arrival_time,departure_time,stop_id,stop_sequence,stop_headsign\n\
T1,01:00:00,01:00:00,S1,1,\nT1,01:10:00,01:10:00,S2,2,\nT2,02:00:00,02:00:00,S1,1,Mill\n\
T2,02:10:00,02:10:00,S2,2,\nT2,02:20:00,02:20:00,S1,3,Mill\nT3,03:00:00,03:00:00,S1,1,\n\
T3,03:10:00,03:10:00,S2,2,Lake\n",
            ),
            (
                "trips.txt",
                "route_id,service_id,trip_id,trip_headsign\nR1,C1,T1,\nR1,C1,T2,\nR1,C1,T3,\n",
            ),
        ],
        wanted: "A13 trips.txt T1\nA13 trips.txt T2\nA13 trips.txt T3\n",
        ..QUIET
    },
    Case {
        what: "all have one but the last row, and trips of fewer rows",
        changes: &[
            (
                "stop_times.txt",
                "trip_id,arrival_time,departure_time,stop_id,stop_sequence,stop_headsign\n\
T1,01:00:00,01:00:00,S1,1,Lake\nT1,01:10:00,01:10:00,S2,2,Mill\nT1,01:20:00,01:20:00,S1,3,\n\
T2,02:00:00,02:00:00,S1,1,\nT2,02:10:00,02:10:00,S2,2,\nT3,03:00:00,03:00:00,S1,1,\n",
            ),
            (
                "trips.txt",
                "route_id,service_id,trip_id,trip_headsign\nR1,C1,T1,\nR1,C1,T2,Lake\nR1,C1,T3,\nR1,C1,T4,\n",
            ),
        ],
        ..QUIET
    },
];

// Trips that are like others before them.
const ALIKE: &[Case] = &[
    Case {
        what: "other sequences, and the usual values written out",
        changes: &[
            (
                "stop_times.txt",
                "trip_id,arrival_time,departure_time,stop_id,stop_sequence,stop_headsign,pickup_type,drop_off_type,timepoint\n\
T1,08:00:00,08:00:00,S1,1,,,,\nT1,08:10:00,08:10:00,S2,2,,,,\nT1,08:20:00,08:20:00,S1,3,,,,\n\
T2,08:00:00,08:00:00,S1,1,,,,\nT2,08:10:00,08:10:00,S2,2,,,,\nT2,08:20:00,08:20:00,S1,3,,,,\n\
T3,8:00:00,8:00:00,S1,01,,0,0,\nT3,08:10:00,08:10:00,S2,17,,0,,\nT3,08:20:00,08:20:00,S1,200,,,0,\n",
            ),
            (
                "trips.txt",
                "route_id,service_id,trip_id,trip_headsign\nR1,C1,T3,Lake\nR1,C1,T1,Lake\nR1,C1,T2,Mill\n",
            ),
        ],
        wanted: "A14 trips.txt T2\nA14 trips.txt T3\n",
        ..QUIET
    },
    Case {
        what: "one stop time",
        changes: &[
            (
                "stop_times.txt",
                "trip_id,arrival_time,departure_time,stop_id,stop_sequence\n\
T1,08:00:00,08:00:00,S1,1\nT2,08:00:00,08:00:00,S1,9\n",
            ),
            (
                "stops.txt",
                "stop_id,stop_name,stop_lat,stop_lon\nS1,Mill,52.5,13.4\n",
            ),
            TWO_TRIPS,
        ],
        wanted: "A14 trips.txt T2\n",
        ..QUIET
    },
    Case {
        what: "like one that is not the next one before",
        changes: &[
            (
                "stop_times.txt",
                "trip_id,arrival_time,departure_time,stop_id,stop_sequence\n\
T1,08:00:00,08:00:00,S1,1\nT2,08:00:00,08:00:00,S2,1\nT3,08:00:00,08:00:00,S1,1\nT5,08:00:00,08:00:00,S1,1\n\
T6,08:00:00,08:00:00,S2,1\nT7,08:00:00,08:00:00,S1,1\nT3,08:10:00,08:10:00,S2,2\n",
            ),
            (
                "trips.txt",
                "route_id,service_id,trip_id,trip_headsign\n\
R1,C1,T1,Lake\nR1,C1,T2,Lake\nR1,C1,T3,Lake\nR1,C1,T4,Lake\nR1,C1,T5,Lake\nR1,C1,T6,Lake\nR1,C1,T7,Lake\n",
            ),
        ],
        wanted: "A14 trips.txt T5\nA14 trips.txt T6\nA14 trips.txt T7\n",
        ..QUIET
    },
    Case {
        what: "the same frequencies",
        changes: &[
            (
                "frequencies.txt",
                "trip_id,start_time,end_time,headway_secs,exact_times\n\
T1,06:00:00,07:00:00,600,\nT1,07:00:00,08:00:00,300,1\nT2,07:00:00,08:00:00,0300,1\nT2,6:00:00,7:00:00,600,0\n",
            ),
            SAME_TIMES,
            TWO_TRIPS,
        ],
        wanted: "A14 trips.txt T2\n",
        ..QUIET
    },
    Case {
        what: "no stop times",
        changes: &[THREE_TRIPS],
        ..QUIET
    },
    Case {
        what: "one time of two",
        changes: &[
            (
                "stop_times.txt",
                "trip_id,arrival_time,departure_time,stop_id,stop_sequence\n\
T1,08:00:00,08:00:00,S1,1\nT1,08:10:00,08:10:00,S2,2\nT2,,08:00:00,S1,1\nT2,08:10:00,08:10:00,S2,2\n\
T3,08:00:00,08:00:00,S1,1\nT3,08:10:00,,S2,2\n",
            ),
            THREE_TRIPS,
        ],
        ..QUIET
    },
    Case {
        what: "another route or service, or other frequencies",
        changes: &[
            (
                "calendar.txt",
                "service_id,monday,tuesday,wednesday,thursday,friday,saturday,sunday,start_date,end_date\n\
C1,1,1,1,1,1,1,1,20240401,20240401\nC2,1,1,1,1,1,1,1,20240401,20240401\n",
            ),
            (
                "frequencies.txt",
                "trip_id,start_time,end_time,headway_secs,exact_times\n\
T4,06:00:00,07:00:00,600,\nT5,06:00:01,07:00:00,600,\nT6,06:00:00,07:00:01,600,\nT7,06:00:00,07:00:00,601,\n\
T8,06:00:00,07:00:00,600,1\n",
            ),
            (
                "routes.txt",
                "route_id,route_short_name,route_long_name,route_type\nR1,10,,3\nR2,11,,3\n",
            ),
            (
                "stop_times.txt",
                "trip_id,arrival_time,departure_time,stop_id,stop_sequence\n\
T1,08:00:00,08:00:00,S1,1\nT1,08:10:00,08:10:00,S2,2\nT2,08:00:00,08:00:00,S1,1\nT2,08:10:00,08:10:00,S2,2\n\
T3,08:00:00,08:00:00,S1,1\nT3,08:10:00,08:10:00,S2,2\nT4,08:00:00,08:00:00,S1,1\nT4,08:10:00,08:10:00,S2,2\n\
T5,08:00:00,08:00:00,S1,1\nT5,08:10:00,08:10:00,S2,2\nT6,08:00:00,08:00:00,S1,1\nT6,08:10:00,08:10:00,S2,2\n\
T7,08:00:00,08:00:00,S1,1\nT7,08:10:00,08:10:00,S2,2\nT8,08:00:00,08:00:00,S1,1\nT8,08:10:00,08:10:00,S2,2\n",
            ),
            (
                "trips.txt",
                "route_id,service_id,trip_id,trip_headsign\n\
R1,C1,T1,Lake\nR2,C1,T2,Lake\nR1,C2,T3,Lake\nR1,C1,T4,Lake\nR1,C1,T5,Lake\nR1,C1,T6,Lake\nR1,C1,T7,Lake\n\
R1,C1,T8,Lake\n",
            ),
        ],
        ..QUIET
    },
    Case {
        what: "one value of a stop time differs, or its rows end earlier",
        changes: &[
            (
                "stop_times.txt",
                "trip_id,arrival_time,departure_time,stop_id,stop_sequence,stop_headsign,pickup_type,drop_off_type,timepoint\n\
T00,08:00:00,08:00:00,S1,1,,,,\nT00,08:10:00,08:10:00,S2,2,,,,\nT00,08:20:00,08:20:00,S1,3,,,,\n\
T01,08:00:00,08:00:00,S1,1,,,,\nT01,08:10:00,08:10:00,S2,2,,1,,\nT01,08:20:00,08:20:00,S1,3,,,,\n\
T02,08:00:00,08:00:00,S1,1,,,,\nT02,08:10:00,08:10:00,S2,2,,,2,\nT02,08:20:00,08:20:00,S1,3,,,,\n\
T03,08:00:00,08:00:00,S1,1,,,,\nT03,08:10:00,08:10:00,S2,2,,,,0\nT03,08:20:00,08:20:00,S1,3,,,,\n\
T04,08:00:00,08:00:00,S1,1,,,,\nT04,08:10:00,08:10:00,S2,2,,,,1\nT04,08:20:00,08:20:00,S1,3,,,,\n\
T05,08:00:00,08:00:00,S1,1,,,,\nT05,08:10:00,08:10:00,S2,2,Mill,,,\nT05,08:20:00,08:20:00,S1,3,,,,\n\
T06,08:00:00,08:00:00,S1,1,,,,\nT06,08:09:59,08:10:00,S2,2,,,,\nT06,08:20:00,08:20:00,S1,3,,,,\n\
T07,08:00:00,08:00:00,S1,1,,,,\nT07,08:10:00,08:10:01,S2,2,,,,\nT07,08:20:00,08:20:00,S1,3,,,,\n\
T08,08:00:00,08:00:00,S1,1,,,,\nT08,,,S2,2,,,,\nT08,08:20:00,08:20:00,S1,3,,,,\nT09,08:00:00,08:00:00,S1,1,,,,\n\
T09,08:10:00,08:10:00,S3,2,,,,\nT09,08:20:00,08:20:00,S1,3,,,,\nT10,08:00:00,08:00:00,S1,1,,,,\n\
T10,08:10:00,08:10:00,S2,2,,,,\nT10,08:20:01,08:20:01,S1,3,,,,\nT11,07:59:59,08:00:00,S1,1,,,,\n\
T11,08:10:00,08:10:00,S2,2,,,,\nT11,08:20:00,08:20:00,S1,3,,,,\nT98,08:00:00,08:00:00,S1,1,,,,\n\
T98,08:10:00,08:10:00,S2,2,,,,\nT99,08:00:00,08:00:00,S1,1,,,,\nT99,08:10:00,08:10:00,S2,2,,,,\n\
T99,08:20:00,08:20:00,S1,3,,,,\nT99,08:30:00,08:30:00,S2,4,,,,\n",
            ),
            (
                "stops.txt",
                "stop_id,stop_name,stop_lat,stop_lon\nS1,Mill,52.5,13.4\nS2,Lake,52.6,13.5\nS3,Lake,52.6,13.5\n",
            ),
            (
                "trips.txt",
                "route_id,service_id,trip_id,trip_headsign\n\
R1,C1,T00,Lake\nR1,C1,T01,Lake\nR1,C1,T02,Lake\nR1,C1,T03,Lake\nR1,C1,T04,Lake\nR1,C1,T05,Lake\nR1,C1,T06,Lake\n\
R1,C1,T07,Lake\nR1,C1,T08,Lake\nR1,C1,T09,Lake\nR1,C1,T10,Lake\nR1,C1,T11,Lake\nR1,C1,T98,Lake\nR1,C1,T99,Lake\n",
            ),
        ],
        ..QUIET
    },
];

// Periods with a single run.
const PERIODS: &[Case] = &[
    Case {
        what: "a headway as long as the period, or longer",
        changes: &[
            (
                "frequencies.txt",
                "trip_id,start_time,end_time,headway_secs\n\
T1,06:00:00,06:30:00,1800\nT1,06:30:00,06:30:01,1\nT2,06:30:00,07:00:00,1801\nT2,06:00:00,06:30:00,600\n",
            ),
            SAME_TIMES,
            TWO_TRIPS,
        ],
        wanted: "A20 frequencies.txt T1\nA20 frequencies.txt T2\n",
        ..QUIET
    },
    Case {
        what: "a second less",
        changes: &[(
            "frequencies.txt",
            "trip_id,start_time,end_time,headway_secs\nT1,06:00:00,06:30:00,1799\nT1,06:30:00,06:30:02,1\n",
        )],
        ..QUIET
    },
];

#[test]
fn advice_on_headsigns(rt: HostRuntime) -> Result<(), Fail> {
    assert_cases(&rt, rt.alloc(), HEADSIGNS)
}

#[test]
fn advice_on_trips_that_are_alike(rt: HostRuntime) -> Result<(), Fail> {
    assert_cases(&rt, rt.alloc(), ALIKE)
}

#[test]
fn advice_on_frequencies(rt: HostRuntime) -> Result<(), Fail> {
    assert_cases(&rt, rt.alloc(), PERIODS)
}
