//! Services: their weeks and exceptions are compared.

use crate::cases::{Case, MERGED};
use gtfs_fixtures::FileText;
use gtfs_table::File;

const ADDED: FileText = (
    "calendar_dates.txt",
    "service_id,date,exception_type\nC1,20240402,1\n",
);

/// A service is renamed, and the trip with it.
pub(crate) const RENAMED: &str = "B\tservice\tC1\tC1_merged_1\nB\ttrip\tT1\tT1_merged_1\n\
joined agency 1\njoined stop 3\njoined route 1\njoined service 0\njoined trip 0\n";

/// Services are joined with their exceptions.
pub(crate) const CASES: &[Case] = &[
    Case {
        what: "an exception in B alone",
        a: &[],
        b: &[ADDED],
        report: RENAMED,
        written: &[
            (
                File::Calendar,
                "C1,1,1,1,1,1,1,1,20240401,20240401\nC1_merged_1,1,1,1,1,1,1,1,20240401,20240401\n",
            ),
            (File::CalendarDates, "C1_merged_1,20240402,1\n"),
            (
                File::Trips,
                "R1,C1,T1,,,,0,0\nR1,C1_merged_1,T1_merged_1,,,,0,0\n",
            ),
        ],
        ..MERGED
    },
    Case {
        what: "a date that is added in A and removed in B",
        a: &[ADDED],
        b: &[(
            "calendar_dates.txt",
            "service_id,date,exception_type\nC1,20240402,2\n",
        )],
        report: RENAMED,
        written: &[(
            File::CalendarDates,
            "C1,20240402,1\nC1_merged_1,20240402,2\n",
        )],
        ..MERGED
    },
    Case {
        what: "the same exceptions in another order",
        a: &[(
            "calendar_dates.txt",
            "service_id,date,exception_type\nC1,20240402,1\nC1,20240401,2\n",
        )],
        b: &[(
            "calendar_dates.txt",
            "service_id,date,exception_type\nC1,20240401,2\nC1,20240402,1\n",
        )],
        report: "joined agency 1\njoined stop 3\njoined route 1\njoined service 1\njoined trip 1\n",
        written: &[
            (File::Calendar, "C1,1,1,1,1,1,1,1,20240401,20240401\n"),
            (File::CalendarDates, "C1,20240401,2\nC1,20240402,1\n"),
        ],
        ..MERGED
    },
    Case {
        what: "another day of the week",
        a: &[],
        b: &[(
            "calendar.txt",
            "service_id,monday,tuesday,wednesday,thursday,friday,saturday,sunday,start_date,end_date\n\
C1,1,1,1,1,1,1,0,20240401,20240401\n",
        )],
        report: RENAMED,
        written: &[(
            File::Calendar,
            "C1,1,1,1,1,1,1,1,20240401,20240401\nC1_merged_1,1,1,1,1,1,1,0,20240401,20240401\n",
        )],
        ..MERGED
    },
    Case {
        what: "a week in A, and a date instead in B",
        a: &[],
        b: &[
            (
                "calendar.txt",
                "service_id,monday,tuesday,wednesday,thursday,friday,saturday,sunday,start_date,end_date\n",
            ),
            (
                "calendar_dates.txt",
                "service_id,date,exception_type\nC1,20240401,1\n",
            ),
        ],
        report: RENAMED,
        written: &[
            (File::Calendar, "C1,1,1,1,1,1,1,1,20240401,20240401\n"),
            (File::CalendarDates, "C1_merged_1,20240401,1\n"),
        ],
        ..MERGED
    },
];
