//! Worked boards with times between timepoints.

use crate::cases::{Case, FIRST_OF_APRIL, ONE_LINE, SMALL};
use gtfs_board::{Span, Times};
use gtfs_fixtures::FileText;

// Two stop times without a time between 08:00:00 and 08:10:01, 601 seconds in three parts:
// 200 and 400 seconds after the first.
const GAP: &[FileText] = &[GAP_ROWS];

const GAP_ROWS: FileText = (
    "stop_times.txt",
    "trip_id,arrival_time,departure_time,stop_id,stop_sequence\n\
T1,08:00:00,08:00:00,S1,1\nT1,,,S3,2\nT1,,,S1,5\nT1,08:10:01,08:10:01,S2,9\n",
);

// The same trip, with one run at 06:00:00 whose times are not exact.
const GAP_OF_A_RUN: &[FileText] = &[
    GAP_ROWS,
    (
        "frequencies.txt",
        "trip_id,start_time,end_time,headway_secs,exact_times\nT1,06:00:00,06:00:01,1,0\n",
    ),
];

// Two trips of one list of stops:
// the second leaves the first stop later and the next one earlier, where the first has no time.
const CROSSING: &[FileText] = &[
    (
        "trips.txt",
        "route_id,service_id,trip_id\nR1,C1,T1\nR1,C1,T2\n",
    ),
    (
        "stop_times.txt",
        "trip_id,arrival_time,departure_time,stop_id,stop_sequence\n\
T1,08:00:00,08:00:00,S2,1\nT1,,,S1,2\nT1,09:00:00,09:00:00,S3,3\n\
T2,08:10:00,08:10:00,S2,1\nT2,08:12:00,08:12:00,S1,2\nT2,08:20:00,08:20:00,S3,3\n",
    ),
];

// A trip from 08:00:00, where it takes no riders, to 08:09:00, with two stop times between,
// of which one takes riders.
const WITHOUT_PICK_UP: &[FileText] = &[(
    "stop_times.txt",
    "trip_id,arrival_time,departure_time,stop_id,stop_sequence,pickup_type\n\
T1,08:00:00,08:00:00,S1,1,1\nT1,,,S1,2,\nT1,,,S1,3,1\nT1,08:09:00,08:09:00,S2,4,\n",
)];

const FARTHEST_ROWS: FileText = (
    "stop_times.txt",
    "trip_id,arrival_time,departure_time,stop_id,stop_sequence\n\
T1,00:00:00,00:00:00,S2,1\nT1,,,S1,2\nT1,999:59:59,999:59:59,S2,3\n",
);

const FILLED: Case = Case {
    what: "two stop times between timepoints",
    files: GAP,
    times: Times::Interpolated,
    lines: "@1711958400/T1/28800/1/20240401\t2024-04-01 08:00:00+00:00\tS1\t10\t\ts\n\
@1711958800/T1/28800/5/20240401\t2024-04-01 08:06:40+00:00\tS1\t10\t\tsi\n",
    lanes: 2,
    greatest: 29_200,
    held: 6,
    ..SMALL
};

const CROSSED: Case = Case {
    what: "a trip that overtakes another between timepoints",
    files: CROSSING,
    lines: "@1711959120/T2/29400/2/20240401\t2024-04-01 08:12:00+00:00\tS1\t10\t\ts\n\
@1711960200/T1/28800/2/20240401\t2024-04-01 08:30:00+00:00\tS1\t10\t\tsi\n",
    lanes: 1,
    greatest: 30_600,
    held: 3,
    ..FILLED
};

// A stop time at S1 five minutes after 08:00:00.
const AT_FIVE: Case = Case {
    what: "a stay at the timepoint before, and one at the timepoint after",
    files: &[(
        "stop_times.txt",
        "trip_id,arrival_time,departure_time,stop_id,stop_sequence\n\
T1,07:50:00,08:00:00,S2,1\nT1,,,S1,2\nT1,08:10:00,08:20:00,S3,3\n",
    )],
    lines: "@1711958700/T1/28800/2/20240401\t2024-04-01 08:05:00+00:00\tS1\t10\t\tsi\n",
    lanes: 1,
    greatest: 29_100,
    held: 3,
    ..FILLED
};

/// Of stop times between timepoints.
pub(crate) const BETWEEN: &[Case] = &[
    Case {
        what: "two stop times between timepoints, under the times of the file",
        files: GAP,
        lines: ONE_LINE,
        ..SMALL
    },
    FILLED,
    Case {
        what: "above the departure before a stop time without a time",
        after: "@1711958400/T1/28800/1/20240401",
        lines: "@1711958800/T1/28800/5/20240401\t2024-04-01 08:06:40+00:00\tS1\t10\t\tsi\n",
        ..FILLED
    },
    Case {
        what: "above the departure from a stop time without a time",
        after: "@1711958800/T1/28800/5/20240401",
        lines: "",
        ..FILLED
    },
    Case {
        what: "a stop time without a time of a run of a period",
        files: GAP_OF_A_RUN,
        lines: "@1711951200/T1/21600/1/20240401\t2024-04-01 06:00:00+00:00\tS1\t10\t\tf\n\
@1711951600/T1/21600/5/20240401\t2024-04-01 06:06:40+00:00\tS1\t10\t\tfi\n",
        greatest: 22_000,
        ..FILLED
    },
    CROSSED,
    Case {
        what: "above the one that leaves first, though it starts last",
        after: "@1711959120/T2/29400/2/20240401",
        lines: "@1711960200/T1/28800/2/20240401\t2024-04-01 08:30:00+00:00\tS1\t10\t\tsi\n",
        ..CROSSED
    },
    Case {
        what: "above the one that leaves last, though it starts first",
        after: "@1711960200/T1/28800/2/20240401",
        lines: "",
        ..CROSSED
    },
    Case {
        what: "where both trips start",
        stop: "S2",
        lines: "@1711958400/T1/28800/1/20240401\t2024-04-01 08:00:00+00:00\tS2\t10\t\ts\n\
@1711959000/T2/29400/1/20240401\t2024-04-01 08:10:00+00:00\tS2\t10\t\ts\n",
        greatest: 29_400,
        ..CROSSED
    },
    AT_FIVE,
    Case {
        what: "an arrival alone before, and a departure alone after",
        files: &[(
            "stop_times.txt",
            "trip_id,arrival_time,departure_time,stop_id,stop_sequence\n\
T1,07:00:00,07:00:00,S3,1\nT1,08:00:00,,S2,2\nT1,,,S1,3\nT1,,08:10:00,S2,4\nT1,09:00:00,09:00:00,S3,5\n",
        )],
        lines: "@1711958700/T1/25200/3/20240401\t2024-04-01 08:05:00+00:00\tS1\t10\t\tsi\n",
        ..AT_FIVE
    },
    Case {
        what: "no riders are taken at the timepoint, nor at the second stop time after it",
        files: WITHOUT_PICK_UP,
        lines: "@1711958580/T1/28800/2/20240401\t2024-04-01 08:03:00+00:00\tS1\t10\t\tsi\n",
        greatest: 28_980,
        ..AT_FIVE
    },
    Case {
        what: "one second for three stop times",
        files: &[(
            "stop_times.txt",
            "trip_id,arrival_time,departure_time,stop_id,stop_sequence\n\
T1,00:00:00,00:00:00,S2,1\nT1,,,S1,2\nT1,,,S1,3\nT1,,,S1,4\nT1,00:00:01,00:00:01,S2,5\n",
        )],
        lines: "@1711929600/T1/0/2/20240401\t2024-04-01 00:00:00+00:00\tS1\t10\t\tsi\n\
@1711929600/T1/0/3/20240401\t2024-04-01 00:00:00+00:00\tS1\t10\t\tsi\n\
@1711929600/T1/0/4/20240401\t2024-04-01 00:00:00+00:00\tS1\t10\t\tsi\n",
        lanes: 3,
        greatest: 0,
        held: 9,
        ..FILLED
    },
    Case {
        what: "no time between the timepoints",
        files: &[(
            "stop_times.txt",
            "trip_id,arrival_time,departure_time,stop_id,stop_sequence\n\
T1,08:00:00,08:00:00,S2,1\nT1,,,S1,2\nT1,,,S1,3\nT1,08:00:00,08:00:00,S3,4\n",
        )],
        lines: "@1711958400/T1/28800/2/20240401\t2024-04-01 08:00:00+00:00\tS1\t10\t\tsi\n\
@1711958400/T1/28800/3/20240401\t2024-04-01 08:00:00+00:00\tS1\t10\t\tsi\n",
        greatest: 28_800,
        ..FILLED
    },
    // 1,799,999 seconds are 20 days and 19:59:59.
    Case {
        what: "the first time that there is before, and the last one after",
        files: &[FARTHEST_ROWS],
        span: Span {
            from: FIRST_OF_APRIL.from,
            until: 1_713_729_600,
        },
        lines: "@1713729599/T1/0/2/20240401\t2024-04-21 19:59:59+00:00\tS1\t10\t\tsi\n",
        lanes: 1,
        greatest: 1_799_999,
        held: 23,
        ..FILLED
    },
];
