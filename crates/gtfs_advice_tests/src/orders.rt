//! Orders of advice.

use crate::cases::{Case, QUIET, assert_cases};
use std::test::Fail;

// Files by their order, subjects by their bytes, and codes by their numbers.
const CASES: &[Case] = &[Case {
    what: "files, subjects and codes",
    changes: &[
        (
            "agency.txt",
            "agency_id,agency_name,agency_url,agency_timezone\n\
b,Metro,www.m.example,UTC\nB,ZÃ¼rich,www.n.example,UTC\na,Post,http://p.example,UTC\n",
        ),
        (
            "calendar.txt",
            "service_id,monday,tuesday,wednesday,thursday,friday,saturday,sunday,start_date,end_date\n\
W2,1,1,1,1,1,1,1,20240401,20240401\nC1,1,1,1,1,1,1,1,20240401,20240401\nW1,1,1,1,1,1,1,1,20240401,20240401\n",
        ),
        (
            "calendar_dates.txt",
            "service_id,date,exception_type\nC1,20240501,1\nC1,20240601,1\nX2,20240401,1\nX1,20240401,1\nW1,20240402,1\n",
        ),
        (
            "frequencies.txt",
            "trip_id,start_time,end_time,headway_secs\nT3,06:00:00,07:00:00,3600\nT1,06:00:00,07:00:00,3600\n",
        ),
        (
            "routes.txt",
            "route_id,agency_id,route_short_name,route_long_name,route_type,route_text_color\n\
R2,a,10,10 Ring,3,\nR1,a,10,10 Ring,3,ffffff\nR3,a,12,,3,\n",
        ),
        (
            "stop_times.txt",
            "trip_id,arrival_time,departure_time,stop_id,stop_sequence\n\
T2,08:00:00,08:00:00,S1,1\nT2,08:10:00,08:10:00,S2,2\nT1,08:00:00,08:00:00,S1,1\nT1,08:10:00,08:10:00,S2,2\n\
T3,08:00:00,08:00:00,S1,1\nT3,08:10:00,08:10:00,S2,2\n",
        ),
        (
            "stops.txt",
            "stop_id,stop_name,stop_lat,stop_lon,location_type,parent_station\n\
S2,Lake,52.6,13.5,0,H\nS10,L\u{fffd}ke,0,0,0,H\né,Hill,52.6,13.5,1,\nH,Hill,52.6,13.5,1,\nS1,Mill,52.5,13.4,,\n\
Z,Mill,52.5,13.4,,\n",
        ),
        (
            "trips.txt",
            "route_id,service_id,trip_id,trip_headsign\nR1,C1,T2,\nR1,C1,T1,\nR2,C1,T3,Lake\n",
        ),
    ],
    day: Some("20240527"),
    wanted: "A01 agency.txt B\n\
A02 agency.txt B\nA24 agency.txt B\nA01 agency.txt b\nA02 agency.txt b\nA03 stops.txt S10\nA05 stops.txt S10\n\
A06 stops.txt S10\nA24 stops.txt S10\nA03 stops.txt Z\nA04 stops.txt é\nA10 routes.txt R1\nA11 routes.txt R1\n\
A08 routes.txt R2\nA10 routes.txt R2\nA07 routes.txt R3\nA13 trips.txt T1\nA13 trips.txt T2\n\
A21 calendar.txt W1\nA21 calendar.txt W2\nA22 calendar.txt 20240402\nA22 calendar.txt 20240502\n\
A23 calendar.txt 20240601\nA21 calendar_dates.txt X1\nA21 calendar_dates.txt X2\nA20 frequencies.txt T1\n\
A20 frequencies.txt T3\n",
    ..QUIET
}];

#[test]
fn advice_is_in_order(rt: HostRuntime) -> Result<(), Fail> {
    assert_cases(&rt, rt.alloc(), CASES)
}
