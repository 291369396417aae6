//! Merges of one feed until a day and of the other from it on.

use crate::cases::{AT_TEN, Asked, Case, MERGED};
use crate::near::{AT_M1, MOVED_HALF};
use crate::services::RENAMED;
use gtfs_fixtures::FileText;
use gtfs_table::File;

// The service of the small dataset, from 1 to 3 April.
const THREE_DAYS: FileText = (
    "calendar.txt",
    "service_id,monday,tuesday,wednesday,thursday,friday,saturday,sunday,start_date,end_date\n\
C1,1,1,1,1,1,1,1,20240401,20240403\n",
);

// From 1 to 5 April.
const FIVE_DAYS: FileText = (
    "calendar.txt",
    "service_id,monday,tuesday,wednesday,thursday,friday,saturday,sunday,start_date,end_date\n\
C1,1,1,1,1,1,1,1,20240401,20240405\n",
);

// Without three of these days, and with the 10th.
const CHANGED: &[FileText] = &[
    FIVE_DAYS,
    (
        "calendar_dates.txt",
        "service_id,date,exception_type\nC1,20240410,1\nC1,20240404,2\nC1,20240403,2\nC1,20240402,2\n",
    ),
];

// A day is removed on which the calendar row does not run.
const REMOVED: &[FileText] = &[
    FIVE_DAYS,
    (
        "calendar_dates.txt",
        "service_id,date,exception_type\nC1,20240410,2\n",
    ),
];

// All days that can be written, and exceptions of the last year, in which no service runs.
const EVER: &[FileText] = &[
    (
        "calendar.txt",
        "service_id,monday,tuesday,wednesday,thursday,friday,saturday,sunday,start_date,end_date\n\
C1,1,1,1,1,1,1,1,19000101,99991231\n",
    ),
    (
        "calendar_dates.txt",
        "service_id,date,exception_type\nC1,99990101,1\nC1,99991231,2\n",
    ),
];

const LATE: FileText = (
    "calendar.txt",
    "service_id,monday,tuesday,wednesday,thursday,friday,saturday,sunday,start_date,end_date\n\
C1,1,1,1,1,1,1,1,20240402,20240430\n",
);

const EARLY: FileText = (
    "calendar.txt",
    "service_id,monday,tuesday,wednesday,thursday,friday,saturday,sunday,start_date,end_date\n\
C1,1,1,1,1,1,0,0,20240301,20240401\n",
);

// The rows of both trips, where the second one and its service are renamed.
const TWO_TRIPS: (File, &str) = (
    File::Trips,
    "R1,C1,T1,,,,0,0\nR1,C1_merged_1,T1_merged_1,,,,0,0\n",
);

const NO_DATES: (File, &str) = (File::CalendarDates, "");

// A new timetable from a day on.
const SUCCESSOR: Case = Case {
    what: "other times from the third day on",
    a: &[THREE_DAYS],
    b: &[THREE_DAYS, AT_TEN],
    report: RENAMED,
    written: &[
        TWO_TRIPS,
        (
            File::StopTimes,
            "T1,08:00:00,08:00:00,S1,1,,0,0,\nT1,08:10:00,08:10:00,S2,2,,0,0,\n\
T1_merged_1,10:00:00,10:00:00,S1,1,,0,0,\nT1_merged_1,10:10:00,10:10:00,S2,2,,0,0,\n",
        ),
        (
            File::Calendar,
            "C1,1,1,1,1,1,1,1,20240401,20240402\nC1_merged_1,1,1,1,1,1,1,1,20240403,20240403\n",
        ),
        NO_DATES,
    ],
    asked: Asked {
        near: None,
        cutoff: Some("20240403"),
    },
    ..MERGED
};

/// Calendar rows end before the day or start on it.
pub(crate) const WEEKS: &[Case] = &[
    SUCCESSOR,
    Case {
        what: "the small dataset with itself, from the day after on",
        a: &[],
        b: &[],
        report: RENAMED,
        written: &[
            TWO_TRIPS,
            (
                File::Calendar,
                "C1,1,1,1,1,1,1,1,20240401,20240401\nC1_merged_1,0,0,0,0,0,0,0,20240402,20240402\n",
            ),
            NO_DATES,
        ],
        asked: Asked {
            near: None,
            cutoff: Some("20240402"),
        },
        ..MERGED
    },
    Case {
        what: "from the first day on",
        a: &[THREE_DAYS],
        b: &[THREE_DAYS],
        report: RENAMED,
        written: &[(
            File::Calendar,
            "C1,0,0,0,0,0,0,0,20240401,20240401\nC1_merged_1,1,1,1,1,1,1,1,20240401,20240403\n",
        )],
        asked: Asked {
            near: None,
            cutoff: Some("20240401"),
        },
        ..MERGED
    },
    Case {
        what: "from the day after the last on",
        a: &[THREE_DAYS],
        b: &[THREE_DAYS],
        report: RENAMED,
        written: &[(
            File::Calendar,
            "C1,1,1,1,1,1,1,1,20240401,20240403\nC1_merged_1,0,0,0,0,0,0,0,20240404,20240404\n",
        )],
        asked: Asked {
            near: None,
            cutoff: Some("20240404"),
        },
        ..MERGED
    },
    Case {
        what: "from the first service day on",
        a: &[],
        b: &[],
        report: RENAMED,
        written: &[(
            File::Calendar,
            "C1,0,0,0,0,0,0,0,19000101,19000101\nC1_merged_1,1,1,1,1,1,1,1,20240401,20240401\n",
        )],
        asked: Asked {
            near: None,
            cutoff: Some("19000101"),
        },
        ..MERGED
    },
    Case {
        what: "from the last service day on",
        a: &[],
        b: &[],
        report: RENAMED,
        written: &[(
            File::Calendar,
            "C1,1,1,1,1,1,1,1,20240401,20240401\nC1_merged_1,0,0,0,0,0,0,0,99981231,99981231\n",
        )],
        asked: Asked {
            near: None,
            cutoff: Some("99981231"),
        },
        ..MERGED
    },
];

/// Exceptions stay on their side of the day.
pub(crate) const EXCEPTIONS: &[Case] = &[
    Case {
        what: "exceptions on the day before, on the day and after it",
        a: CHANGED,
        b: CHANGED,
        report: RENAMED,
        written: &[
            (
                File::Calendar,
                "C1,1,1,1,1,1,1,1,20240401,20240402\nC1_merged_1,1,1,1,1,1,1,1,20240403,20240405\n",
            ),
            (
                File::CalendarDates,
                "C1,20240402,2\nC1_merged_1,20240403,2\nC1_merged_1,20240404,2\nC1_merged_1,20240410,1\n",
            ),
        ],
        asked: Asked {
            near: None,
            cutoff: Some("20240403"),
        },
        ..MERGED
    },
    Case {
        what: "a day that is added behind the calendar row",
        a: CHANGED,
        b: CHANGED,
        report: RENAMED,
        written: &[
            (File::Calendar, "C1,1,1,1,1,1,1,1,20240401,20240405\n"),
            (
                File::CalendarDates,
                "C1,20240402,2\nC1,20240403,2\nC1,20240404,2\nC1_merged_1,20240410,1\n",
            ),
        ],
        asked: Asked {
            near: None,
            cutoff: Some("20240406"),
        },
        ..MERGED
    },
    Case {
        what: "a service of which a removed day alone stays",
        a: REMOVED,
        b: REMOVED,
        report: RENAMED,
        written: &[
            TWO_TRIPS,
            (File::Calendar, "C1,1,1,1,1,1,1,1,20240401,20240405\n"),
            (File::CalendarDates, "C1_merged_1,20240410,2\n"),
        ],
        asked: Asked {
            near: None,
            cutoff: Some("20240406"),
        },
        ..MERGED
    },
    Case {
        what: "dates of the last year",
        a: EVER,
        b: EVER,
        report: RENAMED,
        written: &[
            (
                File::Calendar,
                "C1,1,1,1,1,1,1,1,19000101,99981230\nC1_merged_1,1,1,1,1,1,1,1,99981231,99991231\n",
            ),
            (
                File::CalendarDates,
                "C1_merged_1,99990101,1\nC1_merged_1,99991231,2\n",
            ),
        ],
        asked: Asked {
            near: None,
            cutoff: Some("99981231"),
        },
        ..MERGED
    },
];

/// A stop is near as well.
pub(crate) const MOVED_AND_CUT: Case = Case {
    what: "a near stop and a cutoff",
    a: &[THREE_DAYS],
    b: &[THREE_DAYS, MOVED_HALF, AT_M1],
    report: "B\tstop\tM1\tS1\nB\tservice\tC1\tC1_merged_1\nB\ttrip\tT1\tT1_merged_1\n\
joined agency 1\njoined stop 2\njoined route 1\njoined service 0\njoined trip 0\n",
    pairs: "M1 S1\n",
    written: &[
        (
            File::Stops,
            "S1,,Mill,,,52.5,13.4,,0,,0,\nS2,,Lake,,,52.6,13.5,,0,,0,\nS3,,Hill,,,52.7,13.6,,0,,0,\n",
        ),
        TWO_TRIPS,
        (
            File::StopTimes,
            "T1,08:00:00,08:00:00,S1,1,,0,0,\nT1,08:10:00,08:10:00,S2,2,,0,0,\n\
T1_merged_1,08:00:00,08:00:00,S1,1,,0,0,\nT1_merged_1,08:10:00,08:10:00,S2,2,,0,0,\n",
        ),
        (
            File::Calendar,
            "C1,1,1,1,1,1,1,1,20240401,20240402\nC1_merged_1,1,1,1,1,1,1,1,20240403,20240403\n",
        ),
    ],
    asked: Asked {
        near: Some(1),
        cutoff: Some("20240403"),
    },
    ..MERGED
};

/// Services are compared once they are trimmed:
/// of two that are left with nothing the rows are the same.
pub(crate) const JOINED: &[Case] = &[
    MOVED_AND_CUT,
    Case {
        what: "services of which nothing is left",
        a: &[LATE],
        b: &[EARLY],
        report: "joined agency 1\njoined stop 3\njoined route 1\njoined service 1\njoined trip 1\n",
        written: &[
            (File::Trips, "R1,C1,T1,,,,0,0\n"),
            (File::Calendar, "C1,0,0,0,0,0,0,0,20240402,20240402\n"),
            NO_DATES,
        ],
        asked: Asked {
            near: None,
            cutoff: Some("20240402"),
        },
        ..MERGED
    },
];
