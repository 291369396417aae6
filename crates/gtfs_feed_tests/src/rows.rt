//! What the rows of a feed say.

use crate::assertions::{assert_count, assert_holds, assert_is};
use crate::full::FULL;
use crate::named::stop_id;
use gtfs_days::Exception;
use gtfs_feed::Feed;
use gtfs_field::{Clock, Coord, Day};
use gtfs_fixtures::feed_with;
use gtfs_rows::{
    ExactTimes, Frequency, HeadsignNo, LocationType, OptionalClock, OptionalHeadsign, RouteNo,
    ServiceNo, StopNo, StopRow, TransferType, TripNo,
};
use std::alloc::Global;
use std::mem::size_of;
use std::process::Abort;
use std::test::Fail;

// The text of a stop time's headsign, or nothing.
fn headsign_of(feed: &Feed, headsign: OptionalHeadsign) -> &str {
    match headsign.get() {
        Some(HeadsignNo(number)) => if (number as usize) < feed.parts().headsigns.len() {
            feed.headsign(HeadsignNo(number))
        } else {
            "no headsign"
        },
        None => "",
    }
}

fn seconds(clock: OptionalClock) -> Option<u32> {
    Some(clock.get()?.seconds())
}

// A stop time on a line: its sequence, stop, times, headsign and choices.
fn shown(alloc: Global, feed: &Feed, rows: &[StopRow]) -> Result<String, Fail> {
    let mut text = String::new(alloc);
    for row in rows {
        let line = format!(in alloc;
            "{} {} {:?} {:?} {} {:?} {:?} {:?}\n",
            row.stop_sequence,
            stop_id(feed, row.stop_id),
            seconds(row.arrival_time),
            seconds(row.departure_time),
            headsign_of(feed, row.stop_headsign),
            row.pickup_type,
            row.drop_off_type,
            row.timepoint
        )?;
        text.push_str(&line)?;
    }
    Ok(text)
}

#[test]
fn stop_times_stand_by_sequence(rt: HostRuntime) -> Result<(), Fail> {
    let feed = feed_with(&rt, rt.alloc(), &FULL)?;
    assert_count(&rt, feed.trip_count(), 2, "trips");
    let first =
        "1 S2 None Some(360000) Mill Regular Regular None\n2 S2 None None  Regular Regular None\n\
3 S2 Some(360600) Some(360600)  Regular Regular None\n";
    let second = "9 S2 Some(25200) Some(25500) Lake Driver Regular Some(Approximate)\n\
10 S2 Some(25500) Some(29400) Mill None Phone Some(Exact)\n";
    let text = shown(rt.alloc(), &feed, feed.trip_rows(TripNo(0)))?;
    assert_is(&rt, text.as_str(), first, "the first trip");
    let text = shown(rt.alloc(), &feed, feed.trip_rows(TripNo(1)))?;
    assert_is(&rt, text.as_str(), second, "the second trip");
    Ok(())
}

#[test]
fn a_feed_is_given_up_for_its_stop_times(rt: HostRuntime) -> Result<(), Fail> {
    let feed = feed_with(&rt, rt.alloc(), &FULL)?;
    let stop_times = feed.into_stop_times();
    assert_is(&rt, stop_times.len(), 5, "stop times");
    Ok(())
}

#[test]
fn a_stop_time_has_32_bytes(rt: HostRuntime) {
    assert_is(&rt, size_of::<StopRow>(), 32, "bytes");
}

fn assert_frequencies(rt: &impl Abort, feed: &Feed) {
    assert_count(rt, feed.trip_count(), 2, "trips");
    let first = feed.trip_frequencies(TripNo(0));
    assert_holds(rt, first.is_empty(), "none of the first trip");
    let wanted = [
        Frequency {
            start_time: Clock::from_seconds(21_600),
            end_time: Clock::from_seconds(25_200),
            headway_secs: 600,
            exact_times: ExactTimes::Frequency,
        },
        Frequency {
            start_time: Clock::from_seconds(25_200),
            end_time: Clock::from_seconds(28_800),
            headway_secs: 60,
            exact_times: ExactTimes::Schedule,
        },
    ];
    let second = feed.trip_frequencies(TripNo(1));
    assert_holds(rt, second == wanted.as_slice(), "those of the second trip");
}

// D1 is known by its days alone: 1 May 2024 has number 19,844.
fn assert_services(rt: &impl Abort, feed: &Feed) {
    assert_count(rt, feed.service_count(), 2, "services");
    assert_is(
        rt,
        feed.service_id(ServiceNo(1)),
        "D1",
        "the second service",
    );
    let service = feed.service_by_number(ServiceNo(1));
    assert_holds(rt, service.week().is_none(), "no week");
    let exceptions = [
        (Day::from_number(19_844), Exception::Added),
        (Day::from_number(19_845), Exception::Removed),
    ];
    let found = service.exceptions();
    assert_holds(rt, found == exceptions.as_slice(), "exceptions");
    let first = feed.service_by_number(ServiceNo(0));
    assert_holds(rt, first.week().is_some(), "a week of the first service");
}

fn units_of(coordinate: Option<Coord>) -> Option<i64> {
    Some(coordinate?.nanodegrees())
}

fn assert_stops(rt: &impl Abort, feed: &Feed) {
    assert_count(rt, feed.stop_count(), 3, "stops");
    let stop = feed.stop_by_number(StopNo(1));
    let Some(name) = &stop.stop_name else {
        panic!(rt; "no name");
    };
    assert_is(rt, name.as_str(), "Mi ll", "the name");
    let latitude = units_of(stop.stop_lat);
    assert_is(rt, latitude, Some(-52_500_000_000), "the latitude");
    assert_is(rt, stop.location_type, LocationType::Stop, "the type");
    assert_is(rt, stop.parent_station, Some(StopNo(0)), "the parent");
    let station = feed.stop_by_number(StopNo(0));
    assert_is(
        rt,
        station.location_type,
        LocationType::Station,
        "the station",
    );
    assert_is(
        rt,
        station.parent_station,
        None,
        "the parent of the station",
    );
    assert_holds(rt, station.stop_code.is_none(), "no code of the station");
}

// An empty agency is the only one, and empty colours have their meaning.
fn assert_routes(rt: &impl Abort, feed: &Feed) {
    assert_count(rt, feed.route_count(), 1, "routes");
    let route = feed.route_by_number(RouteNo(0));
    assert_is(rt, feed.agency("A1"), Some(route.agency_id), "the agency");
    assert_is(rt, route.route_type.number(), 700, "the type");
    assert_is(rt, route.route_color.bits(), 0x00_FF7F, "the colour");
    assert_is(
        rt,
        route.route_text_color.bits(),
        0,
        "the colour of the text",
    );
    assert_is(rt, route.route_sort_order, Some(7), "the sort order");
    assert_holds(rt, route.route_short_name.is_none(), "no short name");
}

fn assert_transfers(rt: &impl Abort, feed: &Feed) {
    let [stay, between, within] = feed.transfers() else {
        panic!(rt; "{} transfers", feed.transfers().len());
    };
    assert_is(rt, stay.from_trip_id, Some(TripNo(0)), "from a trip");
    assert_is(rt, stay.to_trip_id, Some(TripNo(1)), "to a trip");
    assert_is(rt, stay.from_stop_id, None, "from no stop");
    assert_is(rt, stay.transfer_type, TransferType::InSeat, "stay");
    assert_is(rt, between.from_stop_id, Some(StopNo(0)), "between");
    assert_is(
        rt,
        between.transfer_type,
        TransferType::Recommended,
        "between",
    );
    assert_is(rt, between.min_transfer_time, None, "no time between");
    assert_is(rt, within.from_stop_id, Some(StopNo(1)), "within");
    assert_is(rt, within.min_transfer_time, Some(120), "the time within");
}

// Frequencies stand by their starts, transfers by their keys, and empty values have their meaning.
#[test]
fn rows_have_their_values(rt: HostRuntime) -> Result<(), Fail> {
    let feed = feed_with(&rt, rt.alloc(), &FULL)?;
    assert_frequencies(&rt, &feed);
    assert_services(&rt, &feed);
    assert_stops(&rt, &feed);
    assert_routes(&rt, &feed);
    assert_transfers(&rt, &feed);
    Ok(())
}
