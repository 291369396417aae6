//! Advice on services and days.

use crate::cases::{Case, NO_WEEKS, QUIET, assert_cases};
use gtfs_fixtures::FileText;
use std::test::Fail;

// Service until the last date.
const ALWAYS: FileText = (
    "calendar.txt",
    "service_id,monday,tuesday,wednesday,thursday,friday,saturday,sunday,start_date,end_date\n\
C1,1,1,1,1,1,1,1,20240401,99991231\n",
);

// Service in April.
const APRIL: FileText = (
    "calendar.txt",
    "service_id,monday,tuesday,wednesday,thursday,friday,saturday,sunday,start_date,end_date\n\
C1,1,1,1,1,1,1,1,20240401,20240430\n",
);

// No trip stops anywhere.
const NO_TIMES: FileText = (
    "stop_times.txt",
    "trip_id,arrival_time,departure_time,stop_id,stop_sequence\n",
);

// Their stop times.
const SAME_TIMES: FileText = (
    "stop_times.txt",
    "trip_id,arrival_time,departure_time,stop_id,stop_sequence\n\
T1,08:00:00,08:00:00,S1,1\nT1,08:10:00,08:10:00,S2,2\nT2,08:00:00,08:00:00,S1,1\nT2,08:10:00,08:10:00,S2,2\n",
);

// Ten days of service.
const TEN_DAYS: FileText = (
    "calendar.txt",
    "service_id,monday,tuesday,wednesday,thursday,friday,saturday,sunday,start_date,end_date\n\
C1,1,1,1,1,1,1,1,20240401,20240410\n",
);

// A trip of each of three services.
const THREE_TRIPS: FileText = (
    "trips.txt",
    "route_id,service_id,trip_id,trip_headsign\nR1,C1,T1,Lake\nR1,C2,T2,Lake\nR1,C3,T3,Lake\n",
);

// Days of one service, and a day of another one between them.
const TWO_SERVICES: FileText = (
    "calendar_dates.txt",
    "service_id,date,exception_type\nC1,20240401,1\nC1,20240416,1\nC2,20240408,1\n",
);

// A trip of each of two services.
const TWO_TRIPS: FileText = (
    "trips.txt",
    "route_id,service_id,trip_id,trip_headsign\nR1,C1,T1,Lake\nR1,C2,T2,Lake\n",
);

// Services without trips.
const TRIPS: &[Case] = &[
    Case {
        what: "services of both files",
        changes: &[
            (
                "calendar.txt",
                "service_id,monday,tuesday,wednesday,thursday,friday,saturday,sunday,start_date,end_date\n\
C4,1,1,1,1,1,1,1,20240401,20240401\nC1,1,1,1,1,1,1,1,20240401,20240401\nC2,1,1,1,1,1,1,1,20240401,20240401\n",
            ),
            (
                "calendar_dates.txt",
                "service_id,date,exception_type\nC2,20240402,1\nC3,20240402,1\nC3,20240401,2\n",
            ),
        ],
        wanted: "A21 calendar.txt C2\nA21 calendar.txt C4\nA21 calendar_dates.txt C3\n",
        ..QUIET
    },
    Case {
        what: "services of the dates alone",
        changes: &[
            (
                "calendar_dates.txt",
                "service_id,date,exception_type\nC1,20240401,1\nC2,20240401,1\n",
            ),
            NO_WEEKS,
        ],
        wanted: "A21 calendar_dates.txt C2\n",
        ..QUIET
    },
    Case {
        what: "each has a trip",
        changes: &[
            (
                "calendar.txt",
                "service_id,monday,tuesday,wednesday,thursday,friday,saturday,sunday,start_date,end_date\n\
C1,1,1,1,1,1,1,1,20240401,20240401\nC2,1,1,1,1,1,1,1,20240401,20240401\n",
            ),
            (
                "calendar_dates.txt",
                "service_id,date,exception_type\nC3,20240402,1\n",
            ),
            THREE_TRIPS,
        ],
        ..QUIET
    },
];

// Days without service.
const GAPS: &[Case] = &[
    Case {
        what: "14 days",
        changes: &[
            (
                "calendar_dates.txt",
                "service_id,date,exception_type\nC1,20240401,1\nC1,20240416,1\n",
            ),
            NO_WEEKS,
        ],
        wanted: "A22 calendar.txt 20240402\n",
        ..QUIET
    },
    Case {
        what: "13 days",
        changes: &[
            (
                "calendar_dates.txt",
                "service_id,date,exception_type\nC1,20240401,1\nC1,20240415,1\n",
            ),
            NO_WEEKS,
        ],
        ..QUIET
    },
    Case {
        what: "14 days taken away",
        changes: &[
            APRIL,
            (
                "calendar_dates.txt",
                "service_id,date,exception_type\n\
C1,20240411,2\nC1,20240412,2\nC1,20240413,2\nC1,20240414,2\nC1,20240415,2\nC1,20240416,2\nC1,20240417,2\n\
C1,20240418,2\nC1,20240419,2\nC1,20240420,2\nC1,20240421,2\nC1,20240422,2\nC1,20240423,2\nC1,20240424,2\n",
            ),
        ],
        wanted: "A22 calendar.txt 20240411\n",
        ..QUIET
    },
    Case {
        what: "13 days taken away",
        changes: &[
            APRIL,
            (
                "calendar_dates.txt",
                "service_id,date,exception_type\n\
C1,20240411,2\nC1,20240412,2\nC1,20240413,2\nC1,20240414,2\nC1,20240415,2\nC1,20240416,2\nC1,20240417,2\n\
C1,20240418,2\nC1,20240419,2\nC1,20240420,2\nC1,20240421,2\nC1,20240422,2\nC1,20240423,2\n",
            ),
        ],
        ..QUIET
    },
    Case {
        what: "several times",
        changes: &[
            (
                "calendar_dates.txt",
                "service_id,date,exception_type\n\
C1,20240401,1\nC1,20240402,1\nC1,20240417,1\nC1,20240601,1\nC1,20240615,1\nC1,20240630,1\nC1,20241224,1\n",
            ),
            NO_WEEKS,
        ],
        wanted: "A22 calendar.txt 20240403\nA22 calendar.txt 20240418\nA22 calendar.txt 20240616\nA22 calendar.txt 20240701\n",
        ..QUIET
    },
    Case {
        what: "two services",
        changes: &[
            (
                "calendar.txt",
                "service_id,monday,tuesday,wednesday,thursday,friday,saturday,sunday,start_date,end_date\n\
C1,1,0,0,0,0,0,0,20240401,20240414\nC2,0,0,0,0,0,0,1,20240421,20240526\n",
            ),
            (
                "calendar_dates.txt",
                "service_id,date,exception_type\nC2,20240428,2\nC2,20240505,2\nC2,20240427,1\n",
            ),
            SAME_TIMES,
            TWO_TRIPS,
        ],
        wanted: "A22 calendar.txt 20240428\n",
        ..QUIET
    },
    Case {
        what: "three services in turn",
        changes: &[
            NO_WEEKS,
            (
                "calendar_dates.txt",
                "service_id,date,exception_type\nC1,20240401,1\nC2,20240410,1\nC3,20240424,1\nC2,20240501,1\nC1,20240520,1\n",
            ),
            (
                "stop_times.txt",
                "trip_id,arrival_time,departure_time,stop_id,stop_sequence\n\
T1,08:00:00,08:00:00,S1,1\nT1,08:10:00,08:10:00,S2,2\nT2,08:00:00,08:00:00,S1,1\nT3,08:00:00,08:00:00,S1,1\n",
            ),
            THREE_TRIPS,
        ],
        wanted: "A22 calendar.txt 20240502\n",
        ..QUIET
    },
    Case {
        what: "a day of a service without a trip",
        changes: &[TWO_SERVICES, NO_WEEKS],
        wanted: "A22 calendar.txt 20240402\nA21 calendar_dates.txt C2\n",
        ..QUIET
    },
    Case {
        what: "a day of a service without stop times",
        changes: &[TWO_SERVICES, TWO_TRIPS, NO_WEEKS],
        wanted: "A22 calendar.txt 20240402\n",
        ..QUIET
    },
    Case {
        what: "a day of a service with one stop time",
        changes: &[
            TWO_SERVICES,
            (
                "stop_times.txt",
                "trip_id,arrival_time,departure_time,stop_id,stop_sequence\n\
T1,08:00:00,08:00:00,S1,1\nT1,08:10:00,08:10:00,S2,2\nT2,08:00:00,08:00:00,S1,1\n",
            ),
            TWO_TRIPS,
            NO_WEEKS,
        ],
        ..QUIET
    },
    Case {
        what: "between the first and the last service day",
        changes: &[
            (
                "calendar_dates.txt",
                "service_id,date,exception_type\nC1,19000101,1\nC1,99981231,1\n",
            ),
            NO_WEEKS,
        ],
        wanted: "A22 calendar.txt 19000102\n",
        ..QUIET
    },
    Case {
        what: "14 days before the last service day",
        changes: &[
            (
                "calendar_dates.txt",
                "service_id,date,exception_type\nC1,99981216,1\nC1,99981231,1\nC1,99990101,1\n",
            ),
            NO_WEEKS,
        ],
        wanted: "A22 calendar.txt 99981217\n",
        ..QUIET
    },
    Case {
        what: "13 days before the last service day",
        changes: &[
            (
                "calendar_dates.txt",
                "service_id,date,exception_type\nC1,99981217,1\nC1,99981231,1\n",
            ),
            NO_WEEKS,
        ],
        ..QUIET
    },
    Case {
        what: "a day behind the last service day",
        changes: &[
            (
                "calendar_dates.txt",
                "service_id,date,exception_type\nC1,20240401,1\nC1,99990101,1\n",
            ),
            NO_WEEKS,
        ],
        ..QUIET
    },
];

// Service that ends soon.
const ENDS: &[Case] = &[
    Case {
        what: "no day is given",
        changes: &[TEN_DAYS],
        ..QUIET
    },
    Case {
        what: "seven days left",
        changes: &[TEN_DAYS],
        day: Some("20240404"),
        ..QUIET
    },
    Case {
        what: "six days left",
        changes: &[TEN_DAYS],
        day: Some("20240405"),
        wanted: "A23 calendar.txt 20240410\n",
        ..QUIET
    },
    Case {
        what: "the last day",
        changes: &[TEN_DAYS],
        day: Some("20240410"),
        wanted: "A23 calendar.txt 20240410\n",
        ..QUIET
    },
    Case {
        what: "the day behind it",
        changes: &[TEN_DAYS],
        day: Some("20240411"),
        wanted: "A23 calendar.txt 20240410\n",
        ..QUIET
    },
    Case {
        what: "years behind it",
        changes: &[TEN_DAYS],
        day: Some("20990101"),
        wanted: "A23 calendar.txt 20240410\n",
        ..QUIET
    },
    Case {
        what: "the first seven service days",
        changes: &[(
            "calendar.txt",
            "service_id,monday,tuesday,wednesday,thursday,friday,saturday,sunday,start_date,end_date\n\
C1,1,1,1,1,1,1,1,19000101,19000107\n",
        )],
        day: Some("19000101"),
        ..QUIET
    },
    Case {
        what: "the first six service days",
        changes: &[(
            "calendar.txt",
            "service_id,monday,tuesday,wednesday,thursday,friday,saturday,sunday,start_date,end_date\n\
C1,1,1,1,1,1,1,1,19000101,19000106\n",
        )],
        day: Some("19000101"),
        wanted: "A23 calendar.txt 19000106\n",
        ..QUIET
    },
    Case {
        what: "the last seven service days",
        changes: &[ALWAYS],
        day: Some("99981225"),
        ..QUIET
    },
    Case {
        what: "the last six service days",
        changes: &[ALWAYS],
        day: Some("99981226"),
        wanted: "A23 calendar.txt 99981231\n",
        ..QUIET
    },
    Case {
        what: "the last service day",
        changes: &[ALWAYS],
        day: Some("99981231"),
        wanted: "A23 calendar.txt 99981231\n",
        ..QUIET
    },
    Case {
        what: "several services",
        changes: &[
            (
                "calendar.txt",
                "service_id,monday,tuesday,wednesday,thursday,friday,saturday,sunday,start_date,end_date\n\
C1,1,1,1,1,1,1,1,20240401,20240410\nC2,1,1,1,1,1,1,1,20240401,20240414\nC3,1,1,1,1,1,1,1,20240401,20240430\n",
            ),
            (
                "calendar_dates.txt",
                "service_id,date,exception_type\nC2,20240413,2\nC2,20240414,2\nC4,20240531,1\n",
            ),
            SAME_TIMES,
            THREE_TRIPS,
        ],
        day: Some("20240407"),
        wanted: "A23 calendar.txt 20240412\nA21 calendar_dates.txt C4\n",
        ..QUIET
    },
    Case {
        what: "behind two weeks without service",
        changes: &[
            (
                "calendar_dates.txt",
                "service_id,date,exception_type\nC1,20240401,1\nC1,20240501,1\n",
            ),
            NO_WEEKS,
        ],
        day: Some("20240426"),
        wanted: "A22 calendar.txt 20240402\nA23 calendar.txt 20240501\n",
        ..QUIET
    },
    Case {
        what: "no day of service",
        changes: &[
            (
                "calendar.txt",
                "service_id,monday,tuesday,wednesday,thursday,friday,saturday,sunday,start_date,end_date\n\
C1,0,0,0,0,0,0,0,20240401,20240410\n",
            ),
            (
                "calendar_dates.txt",
                "service_id,date,exception_type\nC2,20240501,1\n",
            ),
        ],
        day: Some("20240401"),
        wanted: "A23 calendar.txt nothing\nA21 calendar_dates.txt C2\n",
        ..QUIET
    },
    Case {
        what: "no stop times",
        changes: &[NO_TIMES],
        day: Some("20240401"),
        wanted: "A03 stops.txt S1\nA03 stops.txt S2\nA23 calendar.txt nothing\n",
        ..QUIET
    },
    Case {
        what: "no stop times, and no day",
        changes: &[NO_TIMES],
        wanted: "A03 stops.txt S1\nA03 stops.txt S2\n",
        ..QUIET
    },
];

#[test]
fn advice_on_services(rt: HostRuntime) -> Result<(), Fail> {
    assert_cases(&rt, rt.alloc(), TRIPS)
}

#[test]
fn advice_on_gaps(rt: HostRuntime) -> Result<(), Fail> {
    assert_cases(&rt, rt.alloc(), GAPS)
}

#[test]
fn advice_on_ends(rt: HostRuntime) -> Result<(), Fail> {
    assert_cases(&rt, rt.alloc(), ENDS)
}
