ghost use Rattle.std.specs.Prelude.{◌≡◌, ◌==◌, ◌<◌, ◌&&◌, ◌||◌, true, false, nat_eq, ℕ, List, All, length, slice_index_or, is_some, option_map, Some, IfOk, OnOk};
ghost use Rattle.std.specs.List.{list_all, list_any};
ghost use Rattle.std.specs.Option.{option_eq};
ghost use Rattle.gtfs_schema.specs.FieldValues.{if_both};
ghost use Rattle.gtfs_rows.specs.NamedRows.{stop_named};
ghost use Rattle.gtfs_rows.specs.Trips.{stop_rows_by_trip};
ghost use Rattle.gtfs_rows.specs.RowsInMemory.{IsSoundParts, content_of_parts, names_stop, stop_of};
ghost use Rattle.gtfs_advice.specs.Advice.{Tells, answers_of, stop_advice, stop_rules};
ghost use Rattle.gtfs_advice.specs.NumberMarks.{AreMarks, station_of};
ghost use Rattle.gtfs_advice.specs.Stops.{calls_at, differ_by_more, is_far, is_far_from_parent, is_odd_place, is_part_of};

use crate::advice::{Advice, Subject, tell};
use crate::code::Code;
use crate::text_faults::is_garbled_if_given;
use gtfs_feed::Feed;
use gtfs_field::{Coord, OutOfMemory};
use gtfs_rows::{LocationType, Parts, Stop, StopNo, StopRow};
use std::alloc::Global;

// Tells the advice on stops.
pub(crate) fn tell_stops(
    alloc: Global,
    feed: &Feed,
    told: &mut Vec<Advice>,
) -> Result<(), OutOfMemory>
    ensures { OnOk result (Tells feed.now (stop_advice (content_of_parts feed.now))
        told.old.items told.new.items) }
{
    let parts = feed.parts();
    let called = with_calls(alloc, parts)?;
    let peopled = with_stops(alloc, parts)?;
    tell_each(parts, &called, &peopled, told)
}

// The same of each stop, where its marks say whether a stop time names it, and whether a
// stop or platform belongs to it.
fn tell_each(
    parts: &Parts,
    called: &[bool],
    peopled: &[bool],
    told: &mut Vec<Advice>,
) -> Result<(), OutOfMemory>
    requires sound { IsSoundParts parts.now }
    requires called { AreMarks (length parts.now.stops)
        (λ k. list_any (list_any (λ r. r.stop_id.0 == k)) (stop_rows_by_trip parts.now)) called.now }
    requires peopled { AreMarks (length parts.now.stops)
        (λ k. list_any (λ s. option_eq nat_eq (station_of s) (Some k)) parts.now.stops) peopled.now }
    ensures { OnOk result (Tells parts.now (stop_advice (content_of_parts parts.now))
        told.old.items told.new.items) }
{
    for (number, stop) in parts.stops.as_slice().iter().enumerate() {
        let answers = answers(parts, stop, called[number], peopled[number]);
        tell(told, &Subject::Stop(StopNo(number)), &answers)?;
    }
    Ok(())
}

// Whether each rule holds of a stop.
fn answers(parts: &Parts, stop: &Stop, has_call: bool, has_stop: bool) -> [(Code, bool); 5]
    requires sound { IsSoundParts parts.now }
    requires parent { names_stop parts.now stop.now.parent_station ≡ true }
    ensures { let c = content_of_parts parts.now in list_any (calls_at stop.now.stop_id) c.trips ≡ has_call
        → list_any (is_part_of stop.now.stop_id) c.stops ≡ has_stop
        → result ≡ answers_of (stop_rules c) (stop_of parts.now stop.now) }
{
    let kind = stop.location_type;
    [
        (
            Code::StopWithoutTrip,
            kind == LocationType::Stop && !has_call,
        ),
        (
            Code::StationWithoutStop,
            kind == LocationType::Station && !has_stop,
        ),
        (Code::StopNearZeroOrPole, is_near_zero_or_pole(stop)),
        (Code::StopFarFromParent, is_far_from_parent(parts, stop)),
        (Code::GarbledStop, is_garbled_if_given(&stop.stop_name)),
    ]
}

// Of each stop, by its number, whether a stop time names it.
fn with_calls(alloc: Global, parts: &Parts) -> Result<Vec<bool>, OutOfMemory>
    requires { IsSoundParts parts.now }
    ensures { IfOk result (λ marks. AreMarks (length parts.now.stops)
        (λ k. list_any (list_any (λ r. r.stop_id.0 == k)) (stop_rows_by_trip parts.now)) marks.items) }
{
    let mut marks = vec![in alloc; false; parts.stops.len()]?;
    for trip in 0..parts.trips.len() {
        mark_calls(parts.stop_times.of_trip(trip), &mut marks);
    }
    Ok(marks)
}

// Marks the stops that stop times name.
fn mark_calls(rows: &[StopRow], marks: &mut Vec<bool>)
    requires { All (λ r. r.stop_id.0 < length marks.old.items) rows.now }
    ensures { AreMarks (length marks.old.items) (λ k. slice_index_or marks.old.items k false
        || list_any (λ r. r.stop_id.0 == k) rows.now) marks.new.items }
{
    for row in rows {
        marks[row.stop_id.0] = true;
    }
}

// Of each stop, by its number, whether a stop or platform belongs to it.
fn with_stops(alloc: Global, parts: &Parts) -> Result<Vec<bool>, OutOfMemory>
    requires { IsSoundParts parts.now }
    ensures { IfOk result (λ marks. AreMarks (length parts.now.stops)
        (λ k. list_any (λ s. option_eq nat_eq (station_of s) (Some k)) parts.now.stops) marks.items) }
{
    let mut marks = vec![in alloc; false; parts.stops.len()]?;
    for stop in parts.stops.as_slice() {
        if let Some(station) = station_of(stop) {
            marks[station.0] = true;
        }
    }
    Ok(marks)
}

// The station to which a stop or platform belongs, if any.
fn station_of(stop: &Stop) -> Option<StopNo>
    ensures { option_map (λ n. n.0) result ≡ station_of stop.now }
{
    match stop.location_type {
        LocationType::Stop => stop.parent_station,
        _ => None,
    }
}

// Whether a stop is far from its parent.
fn is_far_from_parent(parts: &Parts, stop: &Stop) -> bool
    requires sound { IsSoundParts parts.now }
    requires parent { names_stop parts.now stop.now.parent_station ≡ true }
    ensures { result ≡ is_far_from_parent (content_of_parts parts.now) (stop_of parts.now stop.now) }
{
    match stop.parent_station {
        Some(parent) => is_far(stop, &parts.stops.as_slice()[parent.0]),
        None => false,
    }
}

// Units of 10^-9 degree.
const DEGREE: u64 = 1_000_000_000;

// Whether a stop lies at most a degree from 0,0 in both directions, or from a pole.
fn is_near_zero_or_pole(stop: &Stop) -> bool
    ensures { result ≡ if_both stop.now.stop_lat stop.now.stop_lon is_odd_place }
{
    match (stop.stop_lat, stop.stop_lon) {
        (Some(lat), Some(lon)) => is_odd_place(lat.nanodegrees(), lon.nanodegrees()),
        _ => false,
    }
}

fn is_odd_place(lat: i64, lon: i64) -> bool
    ensures { result ≡ is_odd_place lat lon }
{
    let (lat, lon) = (lat.unsigned_abs(), lon.unsigned_abs());
    lat <= DEGREE && lon <= DEGREE || 89 * DEGREE <= lat
}

// Whether two stops have places some kilometre from each other or more.
fn is_far(stop: &Stop, parent: &Stop) -> bool
    ensures { (ids : List (List ℕ))
        → result ≡ is_far (stop_named ids stop.now) (stop_named ids parent.now) }
{
    has_place(stop)
        && has_place(parent)
        && (differ_by_more(10_000_000, stop.stop_lat, parent.stop_lat)
            || differ_by_more(20_000_000, stop.stop_lon, parent.stop_lon))
}

fn has_place(stop: &Stop) -> bool
    ensures { result ≡ (is_some stop.now.stop_lat && is_some stop.now.stop_lon) }
{
    stop.stop_lat.is_some() && stop.stop_lon.is_some()
}

// Whether two coordinates are there and more than so many units apart.
fn differ_by_more(units: u64, a: Option<Coord>, b: Option<Coord>) -> bool
    ensures { result ≡ differ_by_more units a b }
{
    match (a, b) {
        (Some(a), Some(b)) => units < a.nanodegrees().abs_diff(b.nanodegrees()),
        _ => false,
    }
}
