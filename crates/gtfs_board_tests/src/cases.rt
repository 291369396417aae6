//! Worked boards of the small dataset and of changes to it.

use crate::between::BETWEEN;
use gtfs_board::{Span, Times};
use gtfs_fixtures::{Clocks, FileText};

/// A change to the small dataset, and a board of it.
#[derive(Clone, Copy)]
pub(crate) struct Case {
    pub(crate) what: &'static str,
    pub(crate) files: &'static [FileText],
    pub(crate) clocks: Clocks,
    pub(crate) stop: &'static str,
    pub(crate) span: Span,
    pub(crate) times: Times,
    /// The text of the key above which the board is opened, or nothing.
    pub(crate) after: &'static str,
    pub(crate) lines: &'static str,
    /// How many lanes the stop has.
    pub(crate) lanes: u64,
    /// The latest second of its events.
    pub(crate) greatest: u32,
    /// How many departures may wait.
    pub(crate) held: u64,
}

/// 1 April 2024 in UTC.
pub(crate) const FIRST_OF_APRIL: Span = Span {
    from: 1_711_929_600,
    until: 1_712_016_000,
};

// The day after it.
const SECOND_OF_APRIL: Span = Span {
    from: 1_712_016_000,
    until: 1_712_102_400,
};

/// The small dataset on 1 April 2024 in UTC.
pub(crate) const SMALL: Case = Case {
    what: "a trip",
    files: &[],
    clocks: Clocks::Utc,
    stop: "S1",
    span: FIRST_OF_APRIL,
    times: Times::Given,
    after: "",
    lines: ONE_LINE,
    lanes: 1,
    greatest: 28_800,
    held: 3,
};

/// Its line.
pub(crate) const ONE_LINE: &str =
    "@1711958400/T1/28800/1/20240401\t2024-04-01 08:00:00+00:00\tS1\t10\t\ts\n";

// Of the small dataset itself.
const PLAIN: &[Case] = &[
    SMALL,
    Case {
        what: "a stop without a trip",
        stop: "S3",
        lines: "",
        lanes: 0,
        greatest: 0,
        held: 0,
        ..SMALL
    },
    Case {
        what: "a stop where a trip ends",
        stop: "S2",
        lines: "",
        lanes: 0,
        greatest: 0,
        held: 0,
        ..SMALL
    },
    Case {
        what: "the second of a departure",
        span: Span {
            from: 1_711_958_400,
            until: 1_711_958_401,
        },
        ..SMALL
    },
    Case {
        what: "the time until a departure",
        span: Span {
            from: 1_711_958_300,
            until: 1_711_958_400,
        },
        lines: "",
        ..SMALL
    },
    Case {
        what: "no time at all",
        span: Span {
            from: 1_711_958_400,
            until: 1_711_958_400,
        },
        lines: "",
        ..SMALL
    },
    Case {
        what: "all time",
        span: Span {
            from: -999_999_999_999,
            until: 999_999_999_999,
        },
        ..SMALL
    },
];

// Of days on which clocks change.
const CHANGING: &[Case] = &[
    Case {
        what: "a day that begins before midnight",
        files: &[
            (
                "stop_times.txt",
                "trip_id,arrival_time,departure_time,stop_id,stop_sequence\n\
T1,00:30:00,00:30:00,S1,1\nT1,00:40:00,00:40:00,S2,2\n",
            ),
            (
                "calendar.txt",
                "service_id,monday,tuesday,wednesday,thursday,friday,saturday,sunday,start_date,end_date\n\
C1,1,1,1,1,1,1,1,20240331,20240331\n",
            ),
        ],
        clocks: Clocks::CentralEurope,
        span: Span {
            from: 1_711_837_800,
            until: 1_711_837_801,
        },
        lines: "@1711837800/T1/1800/1/20240331\t2024-03-30 23:30:00+01:00\tS1\t10\t\ts\n",
        greatest: 1_800,
        ..SMALL
    },
    Case {
        what: "an hour that comes twice",
        files: &[
            (
                "trips.txt",
                "route_id,service_id,trip_id\nR1,C1,T1\nR1,C1,T2\n",
            ),
            (
                "stop_times.txt",
                "trip_id,arrival_time,departure_time,stop_id,stop_sequence\n\
T1,01:30:00,01:30:00,S1,1\nT1,01:40:00,01:40:00,S2,2\nT2,02:30:00,02:30:00,S1,1\nT2,02:40:00,02:40:00,S2,2\n",
            ),
            (
                "calendar.txt",
                "service_id,monday,tuesday,wednesday,thursday,friday,saturday,sunday,start_date,end_date\n\
C1,1,1,1,1,1,1,1,20241027,20241027\n",
            ),
        ],
        clocks: Clocks::CentralEurope,
        span: Span {
            from: 1_729_989_000,
            until: 1_729_992_601,
        },
        lines: "@1729989000/T1/5400/1/20241027\t2024-10-27 02:30:00+02:00\tS1\t10\t\ts\n\
@1729992600/T2/9000/1/20241027\t2024-10-27 02:30:00+01:00\tS1\t10\t\ts\n",
        greatest: 9_000,
        ..SMALL
    },
    SKIPPED,
    Case {
        what: "above the first of two days with one origin",
        after: "@1325268000/T1/28800/1/20111230",
        lines: "@1325268000/T1/28800/1/20111231\t2011-12-31 08:00:00+14:00\tS1\t10\t\ts\n",
        ..SKIPPED
    },
    BACK,
    Case {
        what: "above the day that begins before the day before it",
        after: "@1325246400/T1/28800/1/20111231",
        lines: "@1325304000/T1/28800/1/20111230\t2012-01-01 00:00:00+20:00\tS1\t10\t\ts\n",
        ..BACK
    },
    Case {
        what: "from the later of two dates, which begins first, until the earlier",
        span: Span {
            from: 1_325_217_600,
            until: 1_325_275_200,
        },
        lines: "@1325246400/T1/28800/1/20111231\t2011-12-31 08:00:00+20:00\tS1\t10\t\ts\n",
        ..BACK
    },
];

/// The last two days of 2011.
pub(crate) const END_OF_2011: &[FileText] = &[(
    "calendar.txt",
    "service_id,monday,tuesday,wednesday,thursday,friday,saturday,sunday,start_date,end_date\n\
C1,1,1,1,1,1,1,1,20111230,20111231\n",
)];

const SKIPPED: Case = Case {
    what: "two days with one origin",
    files: END_OF_2011,
    clocks: Clocks::SkipsADay,
    span: Span {
        from: 1_325_268_000,
        until: 1_325_268_001,
    },
    lines: "@1325268000/T1/28800/1/20111230\t2011-12-31 08:00:00+14:00\tS1\t10\t\ts\n\
@1325268000/T1/28800/1/20111231\t2011-12-31 08:00:00+14:00\tS1\t10\t\ts\n",
    ..SMALL
};

const BACK: Case = Case {
    what: "a day that begins before the day before it",
    files: END_OF_2011,
    clocks: Clocks::GoesBack,
    span: Span {
        from: 1_325_246_400,
        until: 1_325_304_001,
    },
    lines: "@1325246400/T1/28800/1/20111231\t2011-12-31 08:00:00+20:00\tS1\t10\t\ts\n\
@1325304000/T1/28800/1/20111230\t2012-01-01 00:00:00+20:00\tS1\t10\t\ts\n",
    ..SMALL
};

// Of trips past midnight.
const LATE: &[Case] = &[
    PAST_MIDNIGHT,
    Case {
        what: "above the trip of the day before",
        after: "@1712020200/A1/90600/1/20240401",
        lines: "@1712020200/A2/4200/1/20240402\t2024-04-02 01:10:00+00:00\tS1\t10\t\ts\n",
        ..PAST_MIDNIGHT
    },
    LATEST,
    Case {
        what: "above the first departure of the latest run",
        after: "@1715529598/T1/3599998/1/20240401",
        lines: "@1719129597/T1/3599998/2/20240401\t2024-06-23 07:59:57+00:00\tS1\t10\t\tf\n",
        ..LATEST
    },
];

const PAST_MIDNIGHT: Case = Case {
    what: "trips of two days at one instant",
    files: &[
        (
            "trips.txt",
            "route_id,service_id,trip_id\nR1,C1,A1\nR1,C1,A2\n",
        ),
        (
            "stop_times.txt",
            "trip_id,arrival_time,departure_time,stop_id,stop_sequence\n\
A1,25:10:00,25:10:00,S1,1\nA1,25:20:00,25:20:00,S2,2\nA2,01:10:00,01:10:00,S1,1\nA2,01:20:00,01:20:00,S2,2\n",
        ),
        (
            "calendar.txt",
            "service_id,monday,tuesday,wednesday,thursday,friday,saturday,sunday,start_date,end_date\n\
C1,1,1,1,1,1,1,1,20240401,20240402\n",
        ),
    ],
    span: SECOND_OF_APRIL,
    lines: "@1712020200/A1/90600/1/20240401\t2024-04-02 01:10:00+00:00\tS1\t10\t\ts\n\
@1712020200/A2/4200/1/20240402\t2024-04-02 01:10:00+00:00\tS1\t10\t\ts\n",
    greatest: 90_600,
    held: 4,
    ..SMALL
};

const LATEST: Case = Case {
    what: "the latest run, until the latest second",
    files: &[
        (
            "stop_times.txt",
            "trip_id,arrival_time,departure_time,stop_id,stop_sequence\n\
T1,00:00:00,00:00:00,S1,1\nT1,999:59:59,999:59:59,S1,2\nT1,999:59:59,999:59:59,S2,3\n",
        ),
        (
            "frequencies.txt",
            "trip_id,start_time,end_time,headway_secs,exact_times\nT1,999:59:58,999:59:59,1,0\n",
        ),
    ],
    // until 1 August 2024
    span: Span {
        from: 1_711_929_600,
        until: 1_722_470_400,
    },
    lines: "@1715529598/T1/3599998/1/20240401\t2024-05-12 15:59:58+00:00\tS1\t10\t\tf\n\
@1719129597/T1/3599998/2/20240401\t2024-06-23 07:59:57+00:00\tS1\t10\t\tf\n",
    lanes: 2,
    greatest: 7_199_997,
    held: 172,
    ..SMALL
};

/// Two periods of one trip, the first without exact times.
pub(crate) const PERIODS: Case = Case {
    what: "two periods",
    files: &[(
        "frequencies.txt",
        "trip_id,start_time,end_time,headway_secs,exact_times\nT1,06:00:00,07:00:00,1800,0\nT1,07:00:00,08:00:00,1800,1\n",
    )],
    lines: "@1711951200/T1/21600/1/20240401\t2024-04-01 06:00:00+00:00\tS1\t10\t\tf\n\
@1711953000/T1/23400/1/20240401\t2024-04-01 06:30:00+00:00\tS1\t10\t\tf\n\
@1711954800/T1/25200/1/20240401\t2024-04-01 07:00:00+00:00\tS1\t10\t\ts\n\
@1711956600/T1/27000/1/20240401\t2024-04-01 07:30:00+00:00\tS1\t10\t\ts\n",
    lanes: 2,
    greatest: 27_000,
    held: 6,
    ..SMALL
};

// Of frequencies, stop times and stations.
const OTHERS: &[Case] = &[
    PERIODS,
    Case {
        what: "above the second of four runs",
        after: "@1711953000/T1/23400/1/20240401",
        lines: "@1711954800/T1/25200/1/20240401\t2024-04-01 07:00:00+00:00\tS1\t10\t\ts\n\
@1711956600/T1/27000/1/20240401\t2024-04-01 07:30:00+00:00\tS1\t10\t\ts\n",
        ..PERIODS
    },
    Case {
        what: "no pick-up, and a last stop time",
        files: &[(
            "stop_times.txt",
            "trip_id,arrival_time,departure_time,stop_id,stop_sequence,pickup_type\n\
T1,08:00:00,08:00:00,S1,1,\nT1,08:10:00,08:10:00,S2,2,\nT1,08:20:00,08:20:00,S1,3,1\nT1,08:30:00,08:30:00,S1,4,\n",
        )],
        ..SMALL
    },
    Case {
        what: "a station has the departures of its platforms",
        files: &[(
            "stops.txt",
            "stop_id,stop_name,stop_lat,stop_lon,location_type,parent_station\n\
S1,Mill,52.5,13.4,,S3\nS2,Lake,52.6,13.5,,S3\nS3,Hill,52.7,13.6,1,\n",
        )],
        stop: "S3",
        ..SMALL
    },
    Case {
        what: "the long name of a route, the headsign of a stop time, and of the trip",
        files: &[
            (
                "routes.txt",
                "route_id,route_short_name,route_long_name,route_type\nR1,,Long,3\n",
            ),
            (
                "trips.txt",
                "route_id,service_id,trip_id,trip_headsign\nR1,C1,T1,Lake\n",
            ),
            (
                "stop_times.txt",
                "trip_id,arrival_time,departure_time,stop_id,stop_sequence,stop_headsign\n\
T1,08:00:00,08:00:00,S1,1,\nT1,08:05:00,08:05:00,S1,2,Hill\nT1,08:10:00,08:10:00,S2,3,\n",
            ),
        ],
        lines: "@1711958400/T1/28800/1/20240401\t2024-04-01 08:00:00+00:00\tS1\tLong\tLake\ts\n\
@1711958700/T1/28800/2/20240401\t2024-04-01 08:05:00+00:00\tS1\tLong\tHill\ts\n",
        lanes: 2,
        greatest: 29_100,
        held: 6,
        ..SMALL
    },
];

/// All of them.
pub(crate) const ALL: [&[Case]; 5] = [PLAIN, CHANGING, LATE, OTHERS, BETWEEN];
