//! Advice on garbled letters.

use crate::cases::{Case, QUIET, assert_cases};
use std::test::Fail;

// U+FFFD, and letters that were read as two.
const CASES: &[Case] = &[
    Case {
        what: "in each file",
        changes: &[
            (
                "agency.txt",
                "agency_name,agency_url,agency_timezone\nZÃ¼rich,http://m.example,UTC\n",
            ),
            (
                "routes.txt",
                "route_id,route_short_name,route_long_name,route_type\nR1,Ã¿,,3\nR2,11,Â¿,3\n",
            ),
            (
                "stop_times.txt",
                "trip_id,arrival_time,departure_time,stop_id,stop_sequence\n\
T1,08:00:00,08:00:00,S1,1\nT1,08:10:00,08:10:00,S2,2\nT2,08:00:00,08:00:00,S1,1\nT2,08:10:00,08:10:00,S2,2\n",
            ),
            (
                "stops.txt",
                "stop_id,stop_name,stop_lat,stop_lon\nS1,M\u{fffd}ll,52.5,13.4\nS2,LÂ\u{80}ke,52.6,13.5\n",
            ),
            (
                "trips.txt",
                "route_id,service_id,trip_id,trip_headsign\nR1,C1,T1,\u{fffd}\nR2,C1,T2,aÃÃ\u{80}\n",
            ),
        ],
        wanted: "A24 agency.txt \n\
A24 stops.txt S1\nA24 stops.txt S2\nA24 routes.txt R1\nA24 routes.txt R2\nA24 trips.txt T1\nA24 trips.txt T2\n",
        ..QUIET
    },
    Case {
        what: "once for two names",
        changes: &[(
            "routes.txt",
            "route_id,route_short_name,route_long_name,route_type\nR1,Ã¼Ã¼,\u{fffd},3\n",
        )],
        wanted: "A24 routes.txt R1\n",
        ..QUIET
    },
    Case {
        what: "other letters, and values that are no names",
        changes: &[
            (
                "agency.txt",
                "agency_name,agency_url,agency_timezone,agency_lang\nZürich,http://m.example,UTC,Ã¼\n",
            ),
            (
                "routes.txt",
                "route_id,route_short_name,route_long_name,route_type,route_desc\nR1,Ä\u{80},Á¿,3,Ã¼\n",
            ),
            (
                "stop_times.txt",
                "trip_id,arrival_time,departure_time,stop_id,stop_sequence,stop_headsign\n\
T1,08:00:00,08:00:00,S1,1,Ã¼\nT1,08:10:00,08:10:00,S2,2,\u{fffd}\n",
            ),
            (
                "stops.txt",
                "stop_id,stop_name,stop_lat,stop_lon,stop_desc\nS1,Â,52.5,13.4,Ã¼\nS2,ÃÀ,52.6,13.5,\u{fffd}\n",
            ),
            (
                "trips.txt",
                "route_id,service_id,trip_id,trip_headsign,trip_short_name\nR1,C1,T1,Ã Â,Ã¼\n",
            ),
        ],
        ..QUIET
    },
    Case {
        what: "a control character between",
        changes: &[(
            "stops.txt",
            "stop_id,stop_name,stop_lat,stop_lon\nS1,Ã\u{1f}¼,52.5,13.4\nS2,Lake,52.6,13.5\n",
        )],
        ..QUIET
    },
];

#[test]
fn advice_on_letters(rt: HostRuntime) -> Result<(), Fail> {
    assert_cases(&rt, rt.alloc(), CASES)
}
