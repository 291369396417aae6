//! Numbers of ids: by their bytes, whatever the order of the rows.

use crate::assertions::assert_is;
use crate::named::{service_id, stop_id, trip_id};
use gtfs_feed::Feed;
use gtfs_fixtures::{FileText, feed_with};
use gtfs_rows::{AgencyNo, RouteNo, ServiceNo, StopNo, TripNo};
use std::process::Abort;
use std::test::Fail;

/// Ids of each kind that do not stand by their bytes.
pub(crate) const FILES: [FileText; 6] = [
    (
        "agency.txt",
        "agency_id,agency_name,agency_url,agency_timezone\n\
B,Metro,http://m.example,UTC\na,City,http://c.example,UTC\nA,Land,http://l.example,UTC\n",
    ),
    (
        "stops.txt",
        "stop_id,stop_name,stop_lat,stop_lon\n\
s1,Mill,52.5,13.4\nS2,Lake,52.6,13.5\n\u{e9},Hill,52.7,13.6\nS10,Pond,52.8,13.7\n",
    ),
    (
        "routes.txt",
        "route_id,agency_id,route_short_name,route_type\nR2,A,2,3\nR10,a,10,3\nR1,B,1,3\n",
    ),
    (
        "trips.txt",
        "route_id,service_id,trip_id\nR1,C2,T2\nR10,C10,T10\nR2,C1,T\n",
    ),
    (
        "stop_times.txt",
        "trip_id,arrival_time,departure_time,stop_id,stop_sequence\n\
T2,08:00:00,08:00:00,s1,1\nT2,08:10:00,08:10:00,S2,2\n\
T10,09:00:00,09:00:00,\u{e9},1\nT10,09:10:00,09:10:00,S10,2\n\
T,10:00:00,10:00:00,S10,1\nT,10:10:00,10:10:00,s1,2\n",
    ),
    (
        "calendar.txt",
        "service_id,monday,tuesday,wednesday,thursday,friday,saturday,sunday,start_date,end_date\n\
C2,1,1,1,1,1,1,1,20240401,20240401\nC10,1,1,1,1,1,1,1,20240401,20240401\nC1,1,1,1,1,1,1,1,20240401,20240401\n",
    ),
];

/// A kind of ids.
#[derive(Clone, Copy)]
pub(crate) enum Kind {
    Agency,
    Stop,
    Route,
    Trip,
    Service,
}

// The ids of a kind by their bytes, and texts that are none.
struct Ids {
    kind: Kind,
    ids: &'static [&'static str],
    others: &'static [&'static str],
}

const IDS: &[Ids] = &[
    Ids {
        kind: Kind::Agency,
        ids: &["A", "B", "a"],
        others: &[""],
    },
    Ids {
        kind: Kind::Stop,
        ids: &["S10", "S2", "s1", "\u{e9}"],
        others: &["", "S1", "S", "s10", "S2 "],
    },
    Ids {
        kind: Kind::Route,
        ids: &["R1", "R10", "R2"],
        others: &["R"],
    },
    Ids {
        kind: Kind::Trip,
        ids: &["T", "T10", "T2"],
        others: &["T1"],
    },
    Ids {
        kind: Kind::Service,
        ids: &["C1", "C10", "C2"],
        others: &["C"],
    },
];

fn count_of(feed: &Feed, kind: Kind) -> usize {
    match kind {
        Kind::Agency => feed.agency_count(),
        Kind::Stop => feed.stop_count(),
        Kind::Route => feed.route_count(),
        Kind::Trip => feed.trip_count(),
        Kind::Service => feed.service_count(),
    }
}

/// The number of an id.
pub(crate) fn number_of(feed: &Feed, kind: Kind, id: &str) -> Option<usize> {
    match kind {
        Kind::Agency => Some(feed.agency(id)?.0),
        Kind::Stop => Some(feed.stop(id)?.0),
        Kind::Route => Some(feed.route(id)?.0),
        Kind::Trip => Some(feed.trip(id)?.0),
        Kind::Service => Some(feed.service(id)?.0),
    }
}

// The id of a number, or a mark where there is none.
fn id_of(feed: &Feed, kind: Kind, number: usize) -> &str {
    match kind {
        Kind::Agency => agency_id(feed, AgencyNo(number)),
        Kind::Stop => stop_id(feed, StopNo(number)),
        Kind::Route => route_id(feed, RouteNo(number)),
        Kind::Trip => trip_id(feed, TripNo(number)),
        Kind::Service => service_id(feed, ServiceNo(number)),
    }
}

// The id of an agency, or a mark where there is none of this number.
fn agency_id(feed: &Feed, agency: AgencyNo) -> &str {
    if agency.0 < feed.agency_count() {
        feed.agency_by_number(agency).agency_id.as_str()
    } else {
        "no agency"
    }
}

// The id of a route, or a mark where there is none of this number.
fn route_id(feed: &Feed, route: RouteNo) -> &str {
    if route.0 < feed.route_count() {
        feed.route_by_number(route).route_id.as_str()
    } else {
        "no route"
    }
}

// The id of the agency of a route, or a mark where there is none.
fn agency_of(feed: &Feed, route: RouteNo) -> &str {
    if route.0 < feed.route_count() {
        agency_id(feed, feed.route_by_number(route).agency_id)
    } else {
        "no route"
    }
}

fn assert_ids(rt: &impl Abort, feed: &Feed, ids: &Ids) {
    assert_is(rt, count_of(feed, ids.kind), ids.ids.len(), "ids");
    for (number, id) in ids.ids.iter().enumerate() {
        assert_is(rt, number_of(feed, ids.kind, id), Some(number), *id);
        assert_is(rt, id_of(feed, ids.kind, number), *id, number);
    }
    for other in ids.others {
        assert_is(rt, number_of(feed, ids.kind, other), None, *other);
    }
}

// A route names its agency by its number.
#[test]
fn ids_are_numbered_by_bytes(rt: HostRuntime) -> Result<(), Fail> {
    let feed = feed_with(&rt, rt.alloc(), &FILES)?;
    for ids in IDS {
        assert_ids(&rt, &feed, ids);
    }
    for (number, id) in ["B", "a", "A"].into_iter().enumerate() {
        assert_is(&rt, agency_of(&feed, RouteNo(number)), id, number);
    }
    Ok(())
}
