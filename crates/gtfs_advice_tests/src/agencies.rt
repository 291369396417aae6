//! Advice on agencies.

use crate::cases::{Case, QUIET, assert_cases};
use gtfs_fixtures::FileText;
use std::test::Fail;

// Two agencies.
const TWO_AGENCIES: FileText = (
    "agency.txt",
    "agency_id,agency_name,agency_url,agency_timezone\nM,Metro,http://m.example,UTC\nN,North,http://n.example,UTC\n",
);

// Agencies without routes, and with odd addresses.
const CASES: &[Case] = &[
    Case {
        what: "an agency without a route",
        changes: &[
            TWO_AGENCIES,
            (
                "routes.txt",
                "route_id,agency_id,route_short_name,route_type\nR1,M,10,3\n",
            ),
        ],
        wanted: "A01 agency.txt N\n",
        ..QUIET
    },
    Case {
        what: "an agency without an id and without a route",
        changes: &[
            ("routes.txt", "route_id,route_short_name,route_type\n"),
            (
                "stop_times.txt",
                "trip_id,arrival_time,departure_time,stop_id,stop_sequence\n",
            ),
            ("trips.txt", "route_id,service_id,trip_id\n"),
        ],
        wanted: "A01 agency.txt \nA03 stops.txt S1\nA03 stops.txt S2\nA21 calendar.txt C1\n",
        ..QUIET
    },
    Case {
        what: "two agencies with a route each",
        changes: &[
            TWO_AGENCIES,
            (
                "routes.txt",
                "route_id,agency_id,route_short_name,route_type\nR1,M,10,3\nR2,N,10,3\n",
            ),
            (
                "trips.txt",
                "route_id,service_id,trip_id,trip_headsign\nR1,C1,T1,Lake\nR2,C1,T2,Lake\n",
            ),
        ],
        ..QUIET
    },
    Case {
        what: "a route without an agency",
        changes: &[
            (
                "agency.txt",
                "agency_id,agency_name,agency_url,agency_timezone\nM,Metro,http://m.example,UTC\n",
            ),
            (
                "routes.txt",
                "route_id,agency_id,route_short_name,route_type\nR1,,10,3\n",
            ),
        ],
        ..QUIET
    },
    Case {
        what: "addresses that begin otherwise",
        changes: &[
            (
                "agency.txt",
                "agency_id,agency_name,agency_url,agency_timezone\n\
M1,Metro,www.m.example,UTC\nM2,Metro,http:/m.example,UTC\nM3,Metro,HTTP://m.example,UTC\n\
M4,Metro,Https://m.example,UTC\nM5,Metro,ftp://m.example,UTC\nM6,Metro,xhttp://m.example,UTC\n\
M7,Metro,http:,UTC\nM8,Metro,https:/,UTC\n",
            ),
            (
                "routes.txt",
                "route_id,agency_id,route_short_name,route_type\n\
R1,M1,1,3\nR2,M2,2,3\nR3,M3,3,3\nR4,M4,4,3\nR5,M5,5,3\nR6,M6,6,3\nR7,M7,7,3\nR8,M8,8,3\n",
            ),
            (
                "trips.txt",
                "route_id,service_id,trip_id,trip_headsign\n\
R1,C1,T1,Lake\nR2,C1,T2,Lake\nR3,C1,T3,Lake\nR4,C1,T4,Lake\nR5,C1,T5,Lake\nR6,C1,T6,Lake\nR7,C1,T7,Lake\n\
R8,C1,T8,Lake\n",
            ),
        ],
        wanted: "A02 agency.txt M1\n\
A02 agency.txt M2\nA02 agency.txt M3\nA02 agency.txt M4\nA02 agency.txt M5\nA02 agency.txt M6\n\
A02 agency.txt M7\nA02 agency.txt M8\n",
        ..QUIET
    },
    Case {
        what: "addresses with a scheme",
        changes: &[
            (
                "agency.txt",
                "agency_id,agency_name,agency_url,agency_timezone\n\
M1,Metro,http://,UTC\nM2,Metro,https://,UTC\nM3,Metro,http://m example,UTC\nM4,Metro,  https://m.example,UTC\n",
            ),
            (
                "routes.txt",
                "route_id,agency_id,route_short_name,route_type\nR1,M1,1,3\nR2,M2,2,3\nR3,M3,3,3\nR4,M4,4,3\n",
            ),
            (
                "trips.txt",
                "route_id,service_id,trip_id,trip_headsign\nR1,C1,T1,Lake\nR2,C1,T2,Lake\nR3,C1,T3,Lake\nR4,C1,T4,Lake\n",
            ),
        ],
        ..QUIET
    },
];

#[test]
fn advice_on_agencies(rt: HostRuntime) -> Result<(), Fail> {
    assert_cases(&rt, rt.alloc(), CASES)
}
