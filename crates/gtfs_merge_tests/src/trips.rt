//! Trips: their stop times, headsigns and frequencies are compared.

use crate::cases::{Case, MERGED};
use gtfs_fixtures::FileText;
use gtfs_table::File;

// The trip of the small dataset and that of B differ, and all else is joined.
const RENAMED: Case = Case {
    what: "",
    a: &[],
    b: &[],
    report: "B\ttrip\tT1\tT1_merged_1\n\
joined agency 1\njoined stop 3\njoined route 1\njoined service 1\njoined trip 0\n",
    written: &[],
    ..MERGED
};

/// Rows of trips are compared.
pub(crate) const OF_TRIPS: &[Case] = &[
    Case {
        what: "a headsign in B alone",
        b: &[(
            "trips.txt",
            "route_id,service_id,trip_id,trip_headsign\nR1,C1,T1,Lake\n",
        )],
        written: &[(
            File::Trips,
            "R1,C1,T1,,,,0,0\nR1,C1,T1_merged_1,Lake,,,0,0\n",
        )],
        ..RENAMED
    },
    Case {
        what: "two headsigns",
        a: &[(
            "trips.txt",
            "route_id,service_id,trip_id,trip_headsign\nR1,C1,T1,Lake\n",
        )],
        b: &[(
            "trips.txt",
            "route_id,service_id,trip_id,trip_headsign\nR1,C1,T1,Lake 2\n",
        )],
        ..RENAMED
    },
    Case {
        what: "a short name in B alone",
        b: &[(
            "trips.txt",
            "route_id,service_id,trip_id,trip_short_name\nR1,C1,T1,1\n",
        )],
        ..RENAMED
    },
    Case {
        what: "direction 0 in B, and none in A",
        b: &[(
            "trips.txt",
            "route_id,service_id,trip_id,direction_id\nR1,C1,T1,0\n",
        )],
        ..RENAMED
    },
    Case {
        what: "bicycles in B alone",
        b: &[(
            "trips.txt",
            "route_id,service_id,trip_id,bikes_allowed\nR1,C1,T1,1\n",
        )],
        ..RENAMED
    },
];

/// So are their stop times.
pub(crate) const OF_STOP_TIMES: &[Case] = &[
    Case {
        what: "one arrival",
        b: &[(
            "stop_times.txt",
            "trip_id,arrival_time,departure_time,stop_id,stop_sequence\n\
T1,08:00:00,08:00:00,S1,1\nT1,08:09:59,08:10:00,S2,2\n",
        )],
        written: &[(
            File::StopTimes,
            "T1,08:00:00,08:00:00,S1,1,,0,0,\nT1,08:10:00,08:10:00,S2,2,,0,0,\n\
T1_merged_1,08:00:00,08:00:00,S1,1,,0,0,\nT1_merged_1,08:09:59,08:10:00,S2,2,,0,0,\n",
        )],
        ..RENAMED
    },
    Case {
        what: "one departure",
        b: &[(
            "stop_times.txt",
            "trip_id,arrival_time,departure_time,stop_id,stop_sequence\n\
T1,08:00:00,08:00:01,S1,1\nT1,08:10:00,08:10:00,S2,2\n",
        )],
        ..RENAMED
    },
    Case {
        what: "one stop",
        b: &[(
            "stop_times.txt",
            "trip_id,arrival_time,departure_time,stop_id,stop_sequence\n\
T1,08:00:00,08:00:00,S1,1\nT1,08:10:00,08:10:00,S3,2\n",
        )],
        ..RENAMED
    },
    Case {
        what: "one sequence",
        b: &[(
            "stop_times.txt",
            "trip_id,arrival_time,departure_time,stop_id,stop_sequence\n\
T1,08:00:00,08:00:00,S1,1\nT1,08:10:00,08:10:00,S2,3\n",
        )],
        ..RENAMED
    },
    Case {
        what: "one headsign of a stop time",
        b: &[(
            "stop_times.txt",
            "trip_id,arrival_time,departure_time,stop_id,stop_sequence,stop_headsign\n\
T1,08:00:00,08:00:00,S1,1,Lake\nT1,08:10:00,08:10:00,S2,2,\n",
        )],
        ..RENAMED
    },
    Case {
        what: "one pickup",
        b: &[(
            "stop_times.txt",
            "trip_id,arrival_time,departure_time,stop_id,stop_sequence,pickup_type\n\
T1,08:00:00,08:00:00,S1,1,\nT1,08:10:00,08:10:00,S2,2,1\n",
        )],
        ..RENAMED
    },
    Case {
        what: "one stop time more",
        b: &[(
            "stop_times.txt",
            "trip_id,arrival_time,departure_time,stop_id,stop_sequence\n\
T1,08:00:00,08:00:00,S1,1\nT1,08:10:00,08:10:00,S2,2\nT1,08:20:00,08:20:00,S3,3\n",
        )],
        ..RENAMED
    },
];

const PERIOD: FileText = (
    "frequencies.txt",
    "trip_id,start_time,end_time,headway_secs,exact_times\nT1,06:00:00,07:00:00,600,0\n",
);

/// So are their frequencies.
pub(crate) const OF_FREQUENCIES: &[Case] = &[
    Case {
        what: "a frequency in B alone",
        b: &[PERIOD],
        written: &[(File::Frequencies, "T1_merged_1,06:00:00,07:00:00,600,0\n")],
        ..RENAMED
    },
    Case {
        what: "a frequency in A alone",
        a: &[PERIOD],
        written: &[(File::Frequencies, "T1,06:00:00,07:00:00,600,0\n")],
        ..RENAMED
    },
    Case {
        what: "times that are exact in B alone",
        a: &[PERIOD],
        b: &[(
            "frequencies.txt",
            "trip_id,start_time,end_time,headway_secs,exact_times\nT1,06:00:00,07:00:00,600,1\n",
        )],
        written: &[(
            File::Frequencies,
            "T1,06:00:00,07:00:00,600,0\nT1_merged_1,06:00:00,07:00:00,600,1\n",
        )],
        ..RENAMED
    },
    Case {
        what: "a period more in B",
        a: &[PERIOD],
        b: &[(
            "frequencies.txt",
            "trip_id,start_time,end_time,headway_secs,exact_times\n\
T1,07:00:00,08:00:00,600,0\nT1,06:00:00,07:00:00,600,0\n",
        )],
        written: &[(
            File::Frequencies,
            "T1,06:00:00,07:00:00,600,0\nT1_merged_1,06:00:00,07:00:00,600,0\nT1_merged_1,07:00:00,08:00:00,600,0\n",
        )],
        ..RENAMED
    },
    Case {
        what: "the same frequency",
        a: &[PERIOD],
        b: &[PERIOD],
        report: "joined agency 1\njoined stop 3\njoined route 1\njoined service 1\njoined trip 1\n",
        written: &[(File::Frequencies, "T1,06:00:00,07:00:00,600,0\n")],
        ..MERGED
    },
];

/// Headsigns are texts: B has those of A in another order, since another trip names them first.
pub(crate) const HEADSIGNS: Case = Case {
    what: "headsigns of stop times in another order",
    a: &[(
        "stop_times.txt",
        "trip_id,arrival_time,departure_time,stop_id,stop_sequence,stop_headsign\n\
T1,08:00:00,08:00:00,S1,1,Lake\nT1,08:10:00,08:10:00,S2,2,Hill\n",
    )],
    b: &[
        (
            "trips.txt",
            "route_id,service_id,trip_id\nR1,C1,T0\nR1,C1,T1\n",
        ),
        (
            "stop_times.txt",
            "trip_id,arrival_time,departure_time,stop_id,stop_sequence,stop_headsign\n\
T0,07:00:00,07:00:00,S1,1,Pond\nT0,07:10:00,07:10:00,S2,2,Hill\n\
T1,08:00:00,08:00:00,S1,1,Lake\nT1,08:10:00,08:10:00,S2,2,Hill\n",
        ),
    ],
    report: "joined agency 1\njoined stop 3\njoined route 1\njoined service 1\njoined trip 1\n",
    written: &[(
        File::StopTimes,
        "T0,07:00:00,07:00:00,S1,1,Pond,0,0,\nT0,07:10:00,07:10:00,S2,2,Hill,0,0,\n\
T1,08:00:00,08:00:00,S1,1,Lake,0,0,\nT1,08:10:00,08:10:00,S2,2,Hill,0,0,\n",
    )],
    ..MERGED
};
