//! Advice on routes.

use crate::cases::{Case, QUIET, assert_cases};
use gtfs_fixtures::FileText;
use std::test::Fail;

// A trip of each of seven routes.
const SEVEN_TRIPS: FileText = (
    "trips.txt",
    "route_id,service_id,trip_id,trip_headsign\n\
R1,C1,T1,Lake\nR2,C1,T2,Lake\nR3,C1,T3,Lake\nR4,C1,T4,Lake\nR5,C1,T5,Lake\nR6,C1,T6,Lake\nR7,C1,T7,Lake\n",
);

// A trip of each of twelve routes.
const TWELVE_TRIPS: FileText = (
    "trips.txt",
    "route_id,service_id,trip_id,trip_headsign\n\
R01,C1,T1,Lake\nR02,C1,T2,Lake\nR03,C1,T3,Lake\nR04,C1,T4,Lake\nR05,C1,T5,Lake\nR06,C1,T6,Lake\nR07,C1,T7,Lake\n\
R08,C1,T8,Lake\nR09,C1,T9,Lake\nR10,C1,T10,Lake\nR11,C1,T11,Lake\nR12,C1,T12,Lake\n",
);

// Two routes.
const TWO_ROUTES: FileText = (
    "routes.txt",
    "route_id,route_short_name,route_long_name,route_type\nR1,10,,3\nR2,11,,3\n",
);

// A trip of each of two routes.
const TWO_TRIPS: FileText = (
    "trips.txt",
    "route_id,service_id,trip_id,trip_headsign\nR1,C1,T1,Lake\nR2,C1,T2,Lake\n",
);

// Routes by their names. Most of their trips have no stop times.
const NAMES: &[Case] = &[
    Case {
        what: "two of three have the names of another one",
        changes: &[
            (
                "routes.txt",
                "route_id,route_short_name,route_long_name,route_type\n\
R9,11,Ring,3\nR1,10,,3\nR3,10,,3\nR2,10,,3\nR10,11,Ring,3\n",
            ),
            (
                "trips.txt",
                "route_id,service_id,trip_id,trip_headsign\n\
R9,C1,T1,Lake\nR1,C1,T2,Lake\nR3,C1,T3,Lake\nR2,C1,T4,Lake\nR10,C1,T5,Lake\n",
            ),
        ],
        wanted: "A08 routes.txt R2\nA08 routes.txt R3\nA08 routes.txt R9\n",
        ..QUIET
    },
    Case {
        what: "no agency is the only one",
        changes: &[
            (
                "agency.txt",
                "agency_id,agency_name,agency_url,agency_timezone\nM,Metro,http://m.example,UTC\n",
            ),
            (
                "routes.txt",
                "route_id,agency_id,route_short_name,route_type\nR1,,10,3\nR2,M,10,3\n",
            ),
            TWO_TRIPS,
        ],
        wanted: "A08 routes.txt R2\n",
        ..QUIET
    },
    Case {
        what: "one value differs",
        changes: &[
            (
                "agency.txt",
                "agency_id,agency_name,agency_url,agency_timezone\nM,Metro,http://m.example,UTC\nN,North,http://n.example,UTC\n",
            ),
            (
                "routes.txt",
                "route_id,agency_id,route_short_name,route_long_name,route_type\n\
R1,M,10,Ring,3\nR2,N,10,Ring,3\nR3,M,10,Ring,0\nR4,M,11,Ring,3\nR5,M,10,ring,3\nR6,M,10,,3\nR7,M,,Ring,3\n",
            ),
            SEVEN_TRIPS,
        ],
        ..QUIET
    },
    Case {
        what: "13 characters",
        changes: &[
            (
                "routes.txt",
                "route_id,route_short_name,route_long_name,route_type\n\
R1,Harbour Line1,Harbour,3\nR2,ééééééééééééé,,3\nR3,🚋🚋🚋🚋🚋🚋🚋🚋🚋🚋🚋🚋🚋,,3\n",
            ),
            (
                "trips.txt",
                "route_id,service_id,trip_id,trip_headsign\nR1,C1,T1,Lake\nR2,C1,T2,Lake\nR3,C1,T3,Lake\n",
            ),
        ],
        wanted: "A09 routes.txt R1\nA09 routes.txt R2\nA09 routes.txt R3\n",
        ..QUIET
    },
    Case {
        what: "12 characters",
        changes: &[
            (
                "routes.txt",
                "route_id,route_short_name,route_long_name,route_type\n\
R1,Harbour Line,,3\nR2,éééééééééééé,,3\nR3,🚋🚋🚋🚋🚋🚋🚋🚋🚋🚋🚋🚋,,3\nR4,  Night Line 1  ,,3\nR5,,Harbour and Lake,3\n",
            ),
            (
                "trips.txt",
                "route_id,service_id,trip_id,trip_headsign\n\
R1,C1,T1,Lake\nR2,C1,T2,Lake\nR3,C1,T3,Lake\nR4,C1,T4,Lake\nR5,C1,T5,Lake\n",
            ),
        ],
        ..QUIET
    },
    Case {
        what: "a word ends behind the short name",
        changes: &[
            (
                "routes.txt",
                "route_id,route_short_name,route_long_name,route_type\n\
R01,10,10,3\nR02,10,10 Ring,3\nR03,10,10-Ring,3\nR04,Bahn,Bahn: Süd,3\nR05,10,10_,3\nR06,10,\"10, Ring\",3\n\
R07,10,10/Ring,3\nR08,10,10@,3\nR09,10,10[,3\nR10,10,10`,3\nR11,10,10~,3\nR12,Ü,Ü (Ring),3\n",
            ),
            TWELVE_TRIPS,
        ],
        wanted: "A10 routes.txt R01\n\
A10 routes.txt R02\nA10 routes.txt R03\nA10 routes.txt R04\nA10 routes.txt R05\nA10 routes.txt R06\n\
A10 routes.txt R07\nA10 routes.txt R08\nA10 routes.txt R09\nA10 routes.txt R10\nA10 routes.txt R11\n\
A10 routes.txt R12\n",
        ..QUIET
    },
    Case {
        what: "a control character ends it",
        changes: &[(
            "routes.txt",
            "route_id,route_short_name,route_long_name,route_type\nR1,10,10\tRing,3\n",
        )],
        wanted: "A10 routes.txt R1\n",
        ..QUIET
    },
    Case {
        what: "the short name is part of a word, or elsewhere",
        changes: &[
            (
                "routes.txt",
                "route_id,route_short_name,route_long_name,route_type\n\
R01,10,100,3\nR02,10,10a,3\nR03,10,10Z,3\nR04,Bahn,Bahnübergang,3\nR05,10,10é,3\nR06,10,10\u{a0}Ring,3\n\
R07,10,1,3\nR08,10,Line 10,3\nR09,Bahn,bahn Süd,3\nR10,,10 Ring,3\nR11,10,,3\nR12,10,109,3\n",
            ),
            TWELVE_TRIPS,
        ],
        ..QUIET
    },
];

// Routes by their colours.
const COLOURS: &[Case] = &[
    Case {
        what: "brightness that differs by less than 510,000 sevenths",
        changes: &[
            (
                "routes.txt",
                "route_id,route_short_name,route_type,route_color,route_text_color\n\
R1,1,3,,FFFFFF\nR2,2,3,000000,\nR3,3,3,000000,484848\nR4,4,3,b7b7b7,ffffff\nR5,5,3,0352D1,000000\n\
R6,6,3,000000,0352D1\nR7,7,3,FF0000,336699\nR8,8,3,00FF7F,ABCDEF\n",
            ),
            (
                "trips.txt",
                "route_id,service_id,trip_id,trip_headsign\n\
R1,C1,T1,Lake\nR2,C1,T2,Lake\nR3,C1,T3,Lake\nR4,C1,T4,Lake\nR5,C1,T5,Lake\nR6,C1,T6,Lake\nR7,C1,T7,Lake\n\
R8,C1,T8,Lake\n",
            ),
        ],
        wanted: "A11 routes.txt R1\n\
A11 routes.txt R2\nA11 routes.txt R3\nA11 routes.txt R4\nA11 routes.txt R5\nA11 routes.txt R6\n\
A11 routes.txt R7\nA11 routes.txt R8\n",
        ..QUIET
    },
    Case {
        what: "brightness that differs by as much",
        changes: &[
            (
                "routes.txt",
                "route_id,route_short_name,route_type,route_color,route_text_color\n\
R1,1,3,,\nR2,2,3,000000,FFFFFF\nR3,3,3,000000,494949\nR4,4,3,B6B6B6,FFFFFF\nR5,5,3,006C53,000000\n\
R6,6,3,000000,006C53\nR7,7,3,FF0000,00FF00\n",
            ),
            SEVEN_TRIPS,
        ],
        ..QUIET
    },
];

// Routes by their trips.
const TRIPS: &[Case] = &[
    Case {
        what: "a route without a trip",
        changes: &[TWO_ROUTES],
        wanted: "A07 routes.txt R2\n",
        ..QUIET
    },
    Case {
        what: "a route whose trip has no stop times",
        changes: &[TWO_ROUTES, TWO_TRIPS],
        ..QUIET
    },
    Case {
        what: "a direction of some trips",
        changes: &[
            TWO_ROUTES,
            (
                "trips.txt",
                "route_id,service_id,trip_id,trip_headsign,direction_id\n\
R1,C1,T1,Lake,0\nR1,C1,T2,Lake,1\nR1,C1,T3,Lake,\nR2,C1,T4,Lake,\nR2,C1,T5,Lake,1\n",
            ),
        ],
        wanted: "A12 routes.txt R1\nA12 routes.txt R2\n",
        ..QUIET
    },
    Case {
        what: "a direction of all trips of a route, or of none",
        changes: &[
            (
                "routes.txt",
                "route_id,route_short_name,route_long_name,route_type\nR1,10,,3\nR2,11,,3\nR3,12,,3\n",
            ),
            (
                "trips.txt",
                "route_id,service_id,trip_id,trip_headsign,direction_id\n\
R1,C1,T1,Lake,0\nR1,C1,T2,Lake,1\nR2,C1,T3,Lake,\nR3,C1,T4,Lake,1\n",
            ),
        ],
        ..QUIET
    },
];

#[test]
fn advice_on_names(rt: HostRuntime) -> Result<(), Fail> {
    assert_cases(&rt, rt.alloc(), NAMES)
}

#[test]
fn advice_on_colours(rt: HostRuntime) -> Result<(), Fail> {
    assert_cases(&rt, rt.alloc(), COLOURS)
}

#[test]
fn advice_on_routes_and_trips(rt: HostRuntime) -> Result<(), Fail> {
    assert_cases(&rt, rt.alloc(), TRIPS)
}
