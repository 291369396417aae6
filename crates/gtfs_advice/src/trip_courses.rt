ghost use Rattle.std.specs.Prelude.{◌≡◌, ◌<◌, IfOk, length, option_map};
ghost use Rattle.std.specs.Cmp.Lexicographic.{slice_cmp};
ghost use Rattle.std.specs.List.Sorted.{IsPermutation, IsSorted};
ghost use Rattle.gtfs_rows.specs.RowChoices.{timepoint_code};
ghost use Rattle.gtfs_rows.specs.NamedRows.{text_of_number};
ghost use Rattle.gtfs_advice.specs.TripCourses.{AreCourses, IsCourse, call_cmp, course_cmp, headsign_cmp, is_repeat, listed_cmp, period_cmp, place_cmp};

use gtfs_feed::Feed;
use gtfs_field::{OutOfMemory, Text};
use gtfs_rows::{
    Frequency, HeadsignNo, OptionalHeadsign, RouteNo, ServiceNo, StopRow, Timepoint, TripNo,
};
use std::alloc::Global;
use std::cmp::Ordering;

// What makes a trip the same as another one, and its number.
#[derive(Clone, Copy)]
pub(crate) struct Course<'a> {
    pub route: RouteNo,
    pub service: ServiceNo,
    pub rows: &'a [StopRow],
    pub periods: &'a [Frequency],
    pub trip: TripNo,
}

impl<'a> Course<'a> {
    // That of a trip of the feed.
    fn of(feed: &'a Feed, trip: TripNo) -> Course<'a>
        requires { trip.0 < length feed.now.trips }
        ensures trip { result.trip ≡ trip }
        ensures course { IsCourse feed.now result }
    {
        feed.soundness();
        let row = feed.trip_by_number(trip);
        Course {
            route: row.route_id,
            service: row.service_id,
            rows: feed.trip_rows(trip),
            periods: feed.trip_frequencies(trip),
            trip,
        }
    }
}

// Those of all trips, by their numbers.
pub(crate) fn courses(alloc: Global, feed: &Feed) -> Result<Vec<Course<'_>>, OutOfMemory>
    ensures { IfOk result (λ courses. AreCourses feed.now courses.items) }
{
    let mut courses = Vec::with_capacity(alloc, feed.trip_count())?;
    for number in 0..feed.trip_count() {
        courses.push(Course::of(feed, TripNo(number)))?;
    }
    Ok(courses)
}

// Trips that are the same stand one after the other, by their numbers.
//
// The stable sort looks at each trip about log n times, and each time at its own stop times at most.
// A heap could compare two long trips over and over.
pub(crate) fn in_order<'a>(
    mut courses: Vec<Course<'a>>,
    headsigns: &[Text],
) -> Result<Vec<Course<'a>>, OutOfMemory>
    ensures same { IfOk result (λ sorted. IsPermutation courses.entry.items sorted.items) }
    ensures in_order { IfOk result (λ sorted. IsSorted (listed_cmp headsigns.now) sorted.items) }
{
    courses.sort_by(|a, b| listed_order(headsigns, a, b))?;
    Ok(courses)
}

fn listed_order(headsigns: &[Text], a: &Course<'_>, b: &Course<'_>) -> Ordering
    ensures { result ≡ listed_cmp headsigns.now a.now b.now }
{
    course_order(headsigns, a, b).then(a.trip.cmp(&b.trip))
}

// Whether a trip with a stop time is the same as another one.
pub(crate) fn is_repeat(headsigns: &[Text], other: &Course<'_>, course: &Course<'_>) -> bool
    ensures { result ≡ is_repeat headsigns.now other.now course.now }
{
    !course.rows.is_empty() && course_order(headsigns, other, course).is_eq()
}

fn course_order(headsigns: &[Text], a: &Course<'_>, b: &Course<'_>) -> Ordering
    ensures { result ≡ course_cmp headsigns.now a.now b.now }
{
    let order = a.route.cmp(&b.route).then(a.service.cmp(&b.service));
    if order.is_ne() {
        return order;
    }
    let order = rows_order(headsigns, a.rows, b.rows);
    if order.is_ne() {
        return order;
    }
    periods_order(a.periods, b.periods)
}

// Stop times of trips compare like the letters of words.
fn rows_order(headsigns: &[Text], a: &[StopRow], b: &[StopRow]) -> Ordering
    ensures { result ≡ slice_cmp (call_cmp headsigns.now) a.now b.now }
{
    let (mut left, mut right) = (a, b);
    while let (Some((row, left_rest)), Some((other, right_rest))) = (
        left.split_first(),
        right.split_first(),
    ) {
        let order = call_order(headsigns, row, other);
        if order.is_ne() {
            return order;
        }
        (left, right) = (left_rest, right_rest);
    }
    left.len().cmp(&right.len())
}

fn call_order(headsigns: &[Text], a: &StopRow, b: &StopRow) -> Ordering
    ensures { result ≡ call_cmp headsigns.now a.now b.now }
{
    let order = place_order(a, b);
    if order.is_ne() {
        return order;
    }
    headsign_order(headsigns, a.stop_headsign, b.stop_headsign)
        .then(a.pickup_type.number().cmp(&b.pickup_type.number()))
        .then(a.drop_off_type.number().cmp(&b.drop_off_type.number()))
        .then(timepoint_number(a.timepoint).cmp(&timepoint_number(b.timepoint)))
}

fn place_order(a: &StopRow, b: &StopRow) -> Ordering
    ensures { result ≡ place_cmp a.now b.now }
{
    a.stop_id
        .cmp(&b.stop_id)
        .then(a.arrival_time.get().cmp(&b.arrival_time.get()))
        .then(a.departure_time.get().cmp(&b.departure_time.get()))
}

// Headsigns by their texts, of which two may be one.
fn headsign_order(headsigns: &[Text], a: OptionalHeadsign, b: OptionalHeadsign) -> Ordering
    ensures { result ≡ headsign_cmp headsigns.now a b }
{
    match (a.get(), b.get()) {
        (None, None) => Ordering::Equal,
        (None, Some(_)) => Ordering::Less,
        (Some(_), None) => Ordering::Greater,
        (Some(a), Some(b)) => text_order(headsigns, a, b),
    }
}

fn text_order(headsigns: &[Text], a: HeadsignNo, b: HeadsignNo) -> Ordering
    ensures { result ≡ headsign_cmp headsigns.now (Some a.0) (Some b.0) }
{
    if a == b {
        return Ordering::Equal;
    }
    text_of(headsigns, a).cmp(text_of(headsigns, b))
}

fn text_of(headsigns: &[Text], headsign: HeadsignNo) -> &str
    ensures { result.now ≡ text_of_number headsigns.now headsign.0 }
{
    match headsigns.get(headsign.0 as usize) {
        Some(text) => text.as_str(),
        None => "",
    }
}

// `timepoint` as a number.
fn timepoint_number(timepoint: Option<Timepoint>) -> Option<u32>
    ensures { result ≡ option_map timepoint_code timepoint }
{
    match timepoint {
        Some(timepoint) => Some(timepoint.number()),
        None => None,
    }
}

// Frequencies of trips compare like the letters of words.
fn periods_order(a: &[Frequency], b: &[Frequency]) -> Ordering
    ensures { result ≡ slice_cmp period_cmp a.now b.now }
{
    let (mut left, mut right) = (a, b);
    while let (Some((period, left_rest)), Some((other, right_rest))) = (
        left.split_first(),
        right.split_first(),
    ) {
        let order = period_order(period, other);
        if order.is_ne() {
            return order;
        }
        (left, right) = (left_rest, right_rest);
    }
    left.len().cmp(&right.len())
}

fn period_order(a: &Frequency, b: &Frequency) -> Ordering
    ensures { result ≡ period_cmp a.now b.now }
{
    a.start_time
        .cmp(&b.start_time)
        .then(a.end_time.cmp(&b.end_time))
        .then(a.headway_secs.cmp(&b.headway_secs))
        .then(a.exact_times.number().cmp(&b.exact_times.number()))
}
