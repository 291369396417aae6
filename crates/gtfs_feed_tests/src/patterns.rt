//! The patterns of a route, as worked out by hand.

use crate::assertions::assert_is;
use crate::named::{stop_id, trip_id};
use gtfs_feed::Feed;
use gtfs_fixtures::{FileText, feed_with};
use gtfs_rows::RouteNo;
use gtfs_runs::{Pattern, patterns};
use std::alloc::Global;
use std::process::Abort;
use std::test::Fail;

/// Trips of every direction, among them two whose stops begin those of another, one without stop
/// times, and one of another route.
pub(crate) const FILES: [FileText; 4] = [
    (
        "stops.txt",
        "stop_id,stop_name,stop_lat,stop_lon\n\
S2,Lake,52.6,13.5\nS10,Pond,52.8,13.7\nS1,Mill,52.5,13.4\nS3,Hill,52.7,13.6\n",
    ),
    (
        "routes.txt",
        "route_id,route_short_name,route_type\nR2,2,3\nR1,1,3\nR3,3,3\n",
    ),
    (
        "trips.txt",
        "route_id,service_id,trip_id,direction_id\nR1,C1,T8,\nR1,C1,T7,0\nR1,C1,T6,\nR1,C1,T5,1\n\
R1,C1,T4,\nR1,C1,T3,0\nR1,C1,T2,\nR1,C1,T1,\nR2,C1,T9,\n",
    ),
    (
        "stop_times.txt",
        "trip_id,arrival_time,departure_time,stop_id,stop_sequence\n\
T1,08:00:00,08:00:00,S1,1\nT1,08:10:00,08:10:00,S2,2\nT1,08:20:00,08:20:00,S3,3\n\
T2,08:00:00,08:00:00,S1,1\nT2,08:10:00,08:10:00,S2,2\nT3,08:00:00,08:00:00,S2,1\nT3,08:10:00,08:10:00,S1,2\n\
T4,09:10:00,09:10:00,S2,8\nT4,09:00:00,09:00:00,S1,7\nT5,08:00:00,08:00:00,S1,1\nT5,08:10:00,08:10:00,S2,2\n\
T7,08:00:00,08:00:00,S1,1\nT7,08:10:00,08:10:00,S2,2\nT8,08:00:00,08:00:00,S10,1\nT8,08:10:00,08:10:00,S1,2\n\
T9,08:00:00,08:00:00,S1,1\nT9,08:10:00,08:10:00,S2,2\n",
    ),
];

// A route with its patterns: the direction, the stops and the trips of each.
struct Wanted {
    route: &'static str,
    patterns: &'static str,
}

const WANTED: &[Wanted] = &[
    Wanted {
        route: "R1",
        patterns: "-\tS1\tS2\t: T2 T4\n-\tS1\tS2\tS3\t: T1\n-\tS10\tS1\t: T8\n\
0\tS1\tS2\t: T7\n0\tS2\tS1\t: T3\n1\tS1\tS2\t: T5\n",
    },
    Wanted {
        route: "R2",
        patterns: "-\tS1\tS2\t: T9\n",
    },
    Wanted {
        route: "R3",
        patterns: "",
    },
];

fn direction_text(direction: Option<u32>) -> &'static str {
    match direction {
        None => "-\t",
        Some(0) => "0\t",
        Some(_) => "1\t",
    }
}

// A pattern on a line.
fn push_pattern(feed: &Feed, pattern: &Pattern, text: &mut String) -> Result<(), Fail> {
    text.push_str(direction_text(pattern.direction.map(u32::from)))?;
    for stop in pattern.stops.as_slice() {
        text.push_str(stop_id(feed, *stop))?;
        text.push_str("\t")?;
    }
    text.push_str(":")?;
    for trip in pattern.trips.as_slice() {
        text.push_str(" ")?;
        text.push_str(trip_id(feed, *trip))?;
    }
    Ok(text.push_str("\n")?)
}

// The patterns of the route.
fn shown(alloc: Global, feed: &Feed, route: RouteNo) -> Result<String, Fail> {
    let mut text = String::new(alloc);
    for pattern in &patterns(alloc, feed, route)? {
        push_pattern(feed, pattern, &mut text)?;
    }
    Ok(text)
}

#[test]
fn trips_of_one_direction_and_the_same_stops_share_a_pattern(rt: HostRuntime) -> Result<(), Fail> {
    let feed = feed_with(&rt, rt.alloc(), &FILES)?;
    for wanted in WANTED {
        assert_patterns(&rt, rt.alloc(), &feed, wanted)?;
    }
    Ok(())
}

fn assert_patterns(
    rt: &impl Abort,
    alloc: Global,
    feed: &Feed,
    wanted: &Wanted,
) -> Result<(), Fail> {
    let Some(route) = feed.route(wanted.route) else {
        panic!(rt; "no route {}", wanted.route);
    };
    let found = shown(alloc, feed, route)?;
    assert_is(rt, found.as_str(), wanted.patterns, wanted.route);
    Ok(())
}
